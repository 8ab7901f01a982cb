//! A path as a part of a form, and one of a name.

ghost use Rattle.std.specs.Prelude.{◌≡◌, IfOk};
ghost use Rattle.hir_syntax.specs.declared.ast.Path.{Path as AstPath};
ghost use Rattle.hir_env.specs.ResolvedTree.{OptionPath};
ghost use Rattle.hir_env.specs.Pats.{plain_path};
ghost use Rattle.hir_env.specs.ResolveCtx.{ResolveCtx};
ghost use Rattle.hir_env.specs.Whole.{path_part};
ghost use Rattle.hir_lower_builder.specs.Methods.{LowersPath, at_place};
ghost use Rattle.hir_lower_builder.specs.Nests.{IfPresent};

use hir_env::ctx::LowerCtx;
use hir_lower_builder::builder::BodyBuilder;
use hir_lower_builder::parts::{LowerExprs, Lowerer};
use hir_lower_builder::store_sink::StoreSink;
use hir_store::error::StoreError;
use hir_store::name::Name;
use hir_store::path::{ModPath, Path, PathKind};
use hir_syntax::{Boxed, Seq, ast};
use std::alloc::{AllocError, Global};

/// A path that is there or isn't. A form that hands one on has it as a type parameter, so that no tree is among the form's types,
/// each of which a check would lay out with all that it leads to.
pub trait PathPart {
    ghost can: { (AstPath → Type 0) → Self → Type 0 };

    ghost read: { ResolveCtx → Self → OptionPath };

    /// The path, read at this place, or none where it is absent or refused.
    fn lower<I: StoreSink, P: LowerExprs<I>>(
        &self,
        lowerer: &Lowerer<P>,
        state: &mut BodyBuilder<I>,
        place: LowerCtx,
    ) -> Result<Option<Path>, StoreError>
        requires { can ((P.can lowerer.now.parts).path place) self.now }
        ensures { LowersPath (read (at_place (P.rctx lowerer.now.parts) place) self.now) state.old result state.new };
}

impl PathPart for Option<Boxed<ast::Path>> {
    ghost can = { λ path. IfPresent path };

    ghost read = { path_part };

    fn lower<I: StoreSink, P: LowerExprs<I>>(
        &self,
        lowerer: &Lowerer<P>,
        state: &mut BodyBuilder<I>,
        place: LowerCtx,
    ) -> Result<Option<Path>, StoreError> {
        lowerer.path_if_present(state, place, self)
    }
}

/// A path of one name.
pub fn path_of_name(alloc: Global, name: Name) -> Result<ModPath, AllocError>
    ensures { IfOk result (λ path. path ≡ plain_path name) }
{
    let mut segments = Seq::new(alloc);
    segments.push(name)?;
    Ok(ModPath {
        kind: PathKind::Plain,
        segments,
    })
}
