//! Types, paths and arguments that may be absent.

ghost use Rattle.std.specs.Prelude.{◌≡◌, Some, option_copied};
ghost use Rattle.hir_store.specs.Range.{HasNone, HasPathOption};
ghost use Rattle.hir_env.specs.ResolvedTree.{some_path};
ghost use Rattle.hir_env.specs.Paths.{alias_or_none};
ghost use Rattle.hir_env.specs.Whole.{resolved_path, arg_list_part, path_part, type_part};
ghost use Rattle.hir_lower_builder.specs.Lowering.{Lowers};
ghost use Rattle.hir_lower_builder.specs.Nests.{IfPresent};
ghost use Rattle.hir_lower_builder.specs.Methods.{HasReading, LowersArgs, LowersPath, LowersTypeIfPresent, LowersTypeOpt, at_place};
ghost use Rattle.hir_lower_builder.specs.Paths.{cut_where, path_cut};
ghost use Rattle.hir_lower_builder.specs.Paths as spec;
ghost use Rattle.hir_lower_builder.specs.Walks.{names_in, names_read};
ghost use Rattle.hir_lower_builder.specs.Walks.{path_read as read_of};

use crate::builder::BodyBuilder;
use crate::parts::{LowerExprs, LowerParts, Lowerer};
use crate::store_sink::StoreSink;
use crate::walk::{PathWalk, Reading, path_read};
use hir_env::ctx::LowerCtx;
use hir_store::error::StoreError;
use hir_store::ids::TypeRefId;
use hir_store::name::Name;
use hir_store::path::{GenericArgs, ModPath, Path};
use hir_syntax::{Boxed, Seq, ast};

/// What stands beside the last name.
fn last_args(path: &Path) -> Option<&GenericArgs>
    ensures { option_copied result ≡ spec.last_args path.now }
{
    match path {
        Path::BarePath(_) | Path::LangItem(_) => None,
        Path::Normal(path) => match path.generic_args.as_slice() {
            [.., Some(args)] => Some(args),
            _ => None,
        },
    }
}

/// The names of a path, which an item of the language has none of.
fn names_in(path: &Path) -> Option<&ModPath>
    ensures { option_copied result ≡ names_in path.now }
{
    match path {
        Path::BarePath(names) => Some(names),
        Path::Normal(path) => Some(&path.mod_path),
        Path::LangItem(_) => None,
    }
}

impl<P: LowerParts> Lowerer<P> {
    /// The type, read at this place, and an error where it is absent.
    pub fn type_or_error<I: StoreSink>(
        &self,
        state: &mut BodyBuilder<I>,
        place: LowerCtx,
        binder: &Option<Seq<Name>>,
        part: &Option<Boxed<ast::Type_>>,
    ) -> Result<TypeRefId, StoreError>
    where
        P: LowerExprs<I>,
        requires { IfPresent ((P.can self.now.parts).type_ place) part.now }
        ensures { LowersTypeOpt binder.now (type_part (at_place (P.rctx self.now.parts) place) part.now) state.old result state.new }
    {
        match part {
            None => state.error_type(),
            Some(part) => self.parts.lower_type(state, place, binder, part.get()),
        }
    }

    /// The type, read at this place, or none where it is absent.
    pub fn type_if_present<I: StoreSink>(
        &self,
        state: &mut BodyBuilder<I>,
        place: LowerCtx,
        part: &Option<Boxed<ast::Type_>>,
    ) -> Result<Option<TypeRefId>, StoreError>
    where
        P: LowerExprs<I>,
        requires { IfPresent ((P.can self.now.parts).type_ place) part.now }
        ensures { LowersTypeIfPresent (type_part (at_place (P.rctx self.now.parts) place) part.now) state.old result state.new }
    {
        match part {
            None => Ok(None),
            Some(part) => Ok(Some(self.parts.lower_type(state, place, &None, part.get())?)),
        }
    }

    /// The arguments, read at this place, or none where the list is absent or yields nothing.
    #[inline(never)]
    pub fn args_if_present<I: StoreSink>(
        &self,
        state: &mut BodyBuilder<I>,
        place: LowerCtx,
        part: &Option<ast::GenericArgList>,
    ) -> Result<Option<GenericArgs>, StoreError>
    where
        P: LowerExprs<I>,
        requires { IfPresent ((P.can self.now.parts).args place) part.now }
        ensures { LowersArgs (arg_list_part (at_place (P.rctx self.now.parts) place) part.now) state.old result state.new }
    {
        match part {
            None => Ok(None),
            Some(part) => self.parts.lower_args(state, place, part),
        }
    }

    /// Where the path is an alias in an argument, of what was noted in it, behind the mark, the lifetimes stay that the alias's type names.
    #[tactic(auto, using(crate::proofs::Aliases::cut_found, crate::proofs::Aliases::no_cut))]
    #[inline(never)]
    fn cut_alias<I: StoreSink>(
        &self,
        state: &mut BodyBuilder<I>,
        place: LowerCtx,
        mark: usize,
        path: &Option<Path>,
    ) -> Result<(), StoreError>
    where
        P: LowerExprs<I>,
        ensures { let alias = alias_or_none (P.rctx self.now.parts).answers place (names_read path.now) in
            Lowers HasNone (cut_where mark alias path.now) state.old result state.new }
    {
        let Some(path) = path else {
            return Ok(());
        };
        let Some(args) = last_args(path) else {
            return Ok(());
        };
        let Some(names) = names_in(path) else {
            return Ok(());
        };
        match self.parts.alias(place, names) {
            None => Ok(()),
            Some(alias) => state.cut_back(mark, alias, args),
        }
    }

    /// The path that was read at this place, or none where it is refused; it is cut behind the mark. (It is a function of its own since
    /// what calls it is open at each level of a path.)
    #[tactic(auto, using(crate::proofs::Walked::path_read_has))]
    #[inline(never)]
    fn whole_path<I: StoreSink>(
        &self,
        state: &mut BodyBuilder<I>,
        place: LowerCtx,
        mark: usize,
        reading: Reading,
    ) -> Result<Option<Path>, StoreError>
    where
        P: LowerExprs<I>,
        requires { HasReading state.old.stored reading }
        ensures { let alias = alias_or_none (P.rctx self.now.parts).answers place (names_read (read_of reading)) in
            Lowers HasPathOption (path_cut mark alias (read_of reading)) state.old result state.new }
    {
        let path = path_read(reading);
        self.cut_alias(state, place, mark, &path)?;
        Ok(path)
    }

    /// The whole path, read at this place, or none where it is refused.
    #[inline(never)]
    pub fn lower_path<I: StoreSink>(
        &self,
        state: &mut BodyBuilder<I>,
        place: LowerCtx,
        node: &ast::Path,
    ) -> Result<Option<Path>, StoreError>
    where
        P: LowerExprs<I>,
        requires { (P.can self.now.parts).path place node.now }
        ensures { LowersPath (some_path (resolved_path (at_place (P.rctx self.now.parts) place) node.now)) state.old result state.new }
    {
        let mark = state.input_end();
        let walk = PathWalk::new(self.alloc);
        match self.parts.read_path(state, place, walk, true, node) {
            Ok(reading) => self.whole_path(state, place, mark, reading),
            Err(fault) => Err(fault),
        }
    }

    /// The path, read at this place, or none where it is absent or refused.
    #[inline(never)]
    pub fn path_if_present<I: StoreSink>(
        &self,
        state: &mut BodyBuilder<I>,
        place: LowerCtx,
        part: &Option<Boxed<ast::Path>>,
    ) -> Result<Option<Path>, StoreError>
    where
        P: LowerExprs<I>,
        requires { IfPresent ((P.can self.now.parts).path place) part.now }
        ensures { LowersPath (path_part (at_place (P.rctx self.now.parts) place) part.now) state.old result state.new }
    {
        match part {
            None => Ok(None),
            Some(part) => self.lower_path(state, place, part.get()),
        }
    }
}
