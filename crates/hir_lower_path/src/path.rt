//! A path is read from its last segment to its first, then the path of the use tree around it.

ghost use Rattle.std.specs.Prelude.{◌≡◌, None, Ok, Some, false, if◌then◌else◌, true};
ghost use Rattle.hir_syntax.specs.declared.ast.Path.{out-Path};
ghost use Rattle.hir_syntax.specs.declared.ast.PathSegment.{out-PathSegment};
ghost use Rattle.hir_store.specs.Range.{HasArgsOption, HasPath, HasType};
ghost use Rattle.hir_store.specs.declared.name.Name.TheVariants as name;
ghost use Rattle.hir_env.specs.ResolvedTree as tree;
ghost use Rattle.hir_env.specs.Paths.{crate_root_at, kinded_segment, named_segment, qualified_segment};
ghost use Rattle.hir_env.specs.Paths as of;
ghost use Rattle.hir_env.specs.Whole.{first_part, path_level, path_level_as, path_type_level};
ghost use Rattle.hir_env.specs.Whole.{path_type_part, rest_part, segment_args_level, segment_level, segment_part, segments_part, type_part};
ghost use Rattle.hir_env.specs.Whole.{use_tree_part};
ghost use Rattle.hir_lower_builder.specs.Lowering.{Lowers, pure};
ghost use Rattle.hir_lower_builder.specs.Methods.{HasReading, HasWalk, LowersPath, ReadsPath, ReadsSegment, at_place};
ghost use Rattle.hir_lower_builder.specs.Nests.{IfPresent, KidsName, KidsPath, KidsPresent, KidsQualified, KidsSegment};
ghost use Rattle.hir_lower_builder.specs.Nests.{KidsSegments, KidsTrait};
ghost use Rattle.hir_lower_builder.specs.Lower as spec;
ghost use Rattle.hir_lower_builder.specs.Paths as forms;
ghost use Rattle.hir_lower_builder.specs.Walks.{past_walk, super_read};
ghost use Rattle.hir_lower_builder.specs.Walks as walks;
ghost use Rattle.hir_lower_builder.specs.declared.walk.Reading.TheVariants.{Refused};

use crate::args::segment_args;
use crate::local::called_path;
use crate::places::inside_projection;
use hir_base::node::InFile;
use hir_env::ctx::LowerCtx;
use hir_lower_builder::builder::BodyBuilder;
use hir_lower_builder::parts::{LowerExprs, LowerParts, Lowerer, pointer_in};
use hir_lower_builder::store_sink::StoreSink;
use hir_lower_builder::walk::{PathWalk, Reading, crate_kind};
use hir_store::error::StoreError;
use hir_store::ids::TypeRefId;
use hir_store::name::Name;
use hir_store::path::{GenericArgs, Path, PathKind};
use hir_store::type_ref::TypeRef;
use hir_syntax::ast::SegmentKind;
use hir_syntax::{Boxed, Text, ast};
use std::alloc::Global;

/// A path that is refused: what is read of it goes.
#[inline(never)]
fn refused(_walk: PathWalk) -> Result<Reading, StoreError>
    ensures { result ≡ Ok Refused }
{
    Ok(Reading::Refused)
}

/// A name that isn't there.
#[inline(never)]
fn missing_name<I: StoreSink>(
    state: &mut BodyBuilder<I>,
    walk: PathWalk,
) -> Result<Reading, StoreError>
    requires { HasWalk state.old.stored walk }
    ensures { ReadsSegment true tree.absent_segment walk state.old result state.new }
{
    Ok(walk.named(Name::Missing, None)?)
}

/// A written name, with what stands beside it.
#[inline(never)]
fn written_name<I: StoreSink>(
    state: &mut BodyBuilder<I>,
    walk: PathWalk,
    written: &ast::Name,
    args: Option<GenericArgs>,
) -> Result<Reading, StoreError>
    requires walk { HasWalk state.old.stored walk }
    requires args { HasArgsOption state.old.stored args }
    ensures { Lowers HasReading (pure (walks.named (name.Text written.now.t) args walk)) state.old result state.new }
{
    Ok(walk.named(Name::Text(written.t.clone()?), args)?)
}

/// `$crate`, which may only be the first.
#[inline(never)]
fn dollar_crate<P: LowerParts>(
    lowerer: &Lowerer<P>,
    walk: PathWalk,
    first: bool,
    name: &ast::Name,
) -> Result<Reading, StoreError>
    ensures { let rctx = P.rctx lowerer.now.parts in
        let root = walks.crate_kind (crate_root_at rctx.answers rctx.place name.now.id) in
        result ≡ Ok (if first then walks.ended root walk else Refused) }
{
    if !first {
        return refused(walk);
    }
    let at = InFile {
        file_id: lowerer.parts.place().file_id,
        value: name.id,
    };
    Ok(walk.ended(crate_kind(lowerer.parts.crate_root(at))))
}

/// A name with what stands behind it, or `$crate`, which may only be the first.
#[inline(never)]
fn name_form<I: StoreSink, P: LowerExprs<I>>(
    lowerer: &Lowerer<P>,
    state: &mut BodyBuilder<I>,
    walk: PathWalk,
    first: bool,
    node: &ast::PathSegment,
) -> Result<Reading, StoreError>
    requires parts { let level = out-PathSegment node.now in
        KidsName (P.can lowerer.now.parts) (P.rctx lowerer.now.parts).place level.name level }
    requires walk { HasWalk state.old.stored walk }
    ensures { let rctx = P.rctx lowerer.now.parts in
        let level = named_segment rctx.answers rctx.place (out-PathSegment node.now).name (segment_args_level rctx node.now) in
        ReadsSegment first level walk state.old result state.new }
{
    let Some(name) = &node.name else {
        return refused(walk);
    };
    if name.t.as_str() == "$crate" {
        return dollar_crate(lowerer, walk, first, name);
    }
    match segment_args(lowerer, state, node) {
        Ok(args) => written_name(state, walk, name, args),
        Err(fault) => Err(fault),
    }
}

pub(crate) fn trait_path<I: StoreSink, P: LowerExprs<I>>(
    lowerer: &Lowerer<P>,
    state: &mut BodyBuilder<I>,
    place: LowerCtx,
    node: &ast::PathType,
) -> Result<Option<Path>, StoreError>
    requires { KidsTrait (P.can lowerer.now.parts) place node.now }
    ensures { LowersPath (path_type_level (at_place (P.rctx lowerer.now.parts) place) node.now).path state.old result state.new }
{
    lowerer.path_if_present(state, place, &node.path)
}

/// `<T as Trait>` with this path, which is stored as a type too.
#[tactic(auto, using(hir_lower_builder::proofs::Walked::projected_has))]
pub(crate) fn projected_form<I: StoreSink, P: LowerExprs<I>>(
    lowerer: &Lowerer<P>,
    state: &mut BodyBuilder<I>,
    place: LowerCtx,
    walk: PathWalk,
    ty: TypeRefId,
    node: &ast::PathType,
    path: Path,
) -> Result<Reading, StoreError>
    requires walk { HasWalk state.old.stored walk }
    requires ty { HasType state.old.stored ty }
    requires path { HasPath state.old.stored path }
    ensures { let at = (path_type_level (at_place (P.rctx lowerer.now.parts) place) node.now).pointer in
        Lowers HasReading (forms.read_trait ty at walk (Some path)) state.old result state.new }
{
    let at = pointer_in(place, node.id, node.range);
    let _ = state.alloc_type(TypeRef::Path(path.copy(lowerer.alloc)?), Some(at))?;
    Ok(walk.projected(lowerer.alloc, ty, path)?)
}

/// `<T>`.
#[inline(never)]
fn anchored(walk: PathWalk, ty: TypeRefId) -> Result<Reading, StoreError>
    ensures { result ≡ Ok (walks.anchored ty walk) }
{
    Ok(walk.anchored(ty))
}

/// `<T as Trait>`.
#[tactic(auto, unfolding(hir_lower_builder::specs::Paths::with_trait))]
#[inline(never)]
fn trait_form<I: StoreSink, P: LowerExprs<I>>(
    lowerer: &Lowerer<P>,
    state: &mut BodyBuilder<I>,
    place: LowerCtx,
    walk: PathWalk,
    ty: TypeRefId,
    node: &ast::PathType,
) -> Result<Reading, StoreError>
    requires parts { KidsTrait (P.can lowerer.now.parts) place node.now }
    requires walk { HasWalk state.old.stored walk }
    requires ty { HasType state.old.stored ty }
    ensures { let level = path_type_level (at_place (P.rctx lowerer.now.parts) place) node.now in
        Lowers HasReading (forms.with_trait (spec.lower_path level.path) ty level.pointer walk) state.old result state.new }
{
    match trait_path(lowerer, state, place, node)? {
        None => refused(walk),
        Some(path) => projected_form(lowerer, state, place, walk, ty, node, path),
    }
}

/// `<T>` or `<T as Trait>`, which may only be the first.
#[tactic(auto, using(hir_env::proofs::PathLevels::path_type_is_level, hir_lower_builder::proofs::Walked::anchored_has))]
#[inline(never)]
fn qualified_form<I: StoreSink, P: LowerExprs<I>>(
    lowerer: &Lowerer<P>,
    state: &mut BodyBuilder<I>,
    walk: PathWalk,
    first: bool,
    ty: &Option<Boxed<ast::Type_>>,
    trait_: &Option<ast::PathType>,
) -> Result<Reading, StoreError>
    requires parts { KidsQualified (P.can lowerer.now.parts) (P.rctx lowerer.now.parts).place ty.now trait_.now }
    requires walk { HasWalk state.old.stored walk }
    ensures { let rctx = P.rctx lowerer.now.parts in
        let inner = at_place rctx (of.inside_projection rctx.place) in
        ReadsSegment first (qualified_segment (type_part inner ty.now) (path_type_part inner trait_.now)) walk state.old result state.new }
{
    let (Some(ty), true) = (ty, first) else {
        return refused(walk);
    };
    let place = inside_projection(lowerer.parts.place());
    let id = lowerer.parts.lower_type(state, place, &None, ty.get())?;
    match trait_ {
        None => anchored(walk, id),
        Some(node) => trait_form(lowerer, state, place, walk, id, node),
    }
}

/// One `super` more, where one more is counted.
#[tactic(auto, using(hir_lower_builder::proofs::Walked::super_has), unfolding(hir_lower_builder::specs::Lowering::count_out))]
#[inline(never)]
fn super_form<I: StoreSink>(
    state: &mut BodyBuilder<I>,
    walk: PathWalk,
) -> Result<Reading, StoreError>
    requires { HasWalk state.old.stored walk }
    ensures { Lowers HasReading (forms.or_count_out (super_read walk)) state.old result state.new }
{
    match walk.super_read() {
        Some(reading) => Ok(reading),
        None => Err(state.count_out()),
    }
}

/// `Self`, which is a name.
#[inline(never)]
fn self_type_form<I: StoreSink>(
    alloc: Global,
    state: &mut BodyBuilder<I>,
    walk: PathWalk,
) -> Result<Reading, StoreError>
    requires { HasWalk state.old.stored walk }
    ensures { ReadsSegment true tree.self_type_segment walk state.old result state.new }
{
    let name = Name::Text(Text::new(alloc, "Self")?);
    Ok(walk.named(name, None)?)
}

/// `crate`, which may only be the first.
#[inline(never)]
fn crate_form<I: StoreSink>(
    state: &mut BodyBuilder<I>,
    walk: PathWalk,
    first: bool,
) -> Result<Reading, StoreError>
    requires { HasWalk state.old.stored walk }
    ensures { ReadsSegment first tree.crate_segment walk state.old result state.new }
{
    if first {
        Ok(walk.ended(PathKind::Crate))
    } else {
        refused(walk)
    }
}

/// `self`, which may only be the first.
#[tactic(auto, using(hir_lower_builder::proofs::Walked::self_has))]
#[inline(never)]
fn self_form<I: StoreSink>(
    state: &mut BodyBuilder<I>,
    walk: PathWalk,
    first: bool,
) -> Result<Reading, StoreError>
    requires { HasWalk state.old.stored walk }
    ensures { ReadsSegment first tree.self_segment walk state.old result state.new }
{
    if first {
        Ok(walk.self_read())
    } else {
        refused(walk)
    }
}

/// A segment that is a word of the language, or else broken, since it has neither a name nor a type.
#[inline(never)]
fn word_form<I: StoreSink, P: LowerExprs<I>>(
    lowerer: &Lowerer<P>,
    state: &mut BodyBuilder<I>,
    walk: PathWalk,
    first: bool,
    word: Option<SegmentKind>,
) -> Result<Reading, StoreError>
    requires walk { HasWalk state.old.stored walk }
    ensures { let rctx = P.rctx lowerer.now.parts in
        let nothing = tree.segment_args tree.no_arg_list tree.no_parens false in
        let level = kinded_segment rctx.answers rctx.place word None nothing tree.no_type None in
        ReadsSegment first level walk state.old result state.new }
{
    match word {
        Some(SegmentKind::SelfTypeKw) => self_type_form(lowerer.alloc, state, walk),
        Some(SegmentKind::CrateKw) => crate_form(state, walk, first),
        Some(SegmentKind::SelfKw) => self_form(state, walk, first),
        Some(SegmentKind::SuperKw) => super_form(state, walk),
        None | Some(SegmentKind::Name) | Some(SegmentKind::Qualified) => refused(walk),
    }
}

#[inline(always)]
pub(crate) fn segment_form<I: StoreSink, P: LowerExprs<I>>(
    lowerer: &Lowerer<P>,
    state: &mut BodyBuilder<I>,
    walk: PathWalk,
    first: bool,
    node: &ast::PathSegment,
) -> Result<Reading, StoreError>
    requires parts { KidsSegment (P.can lowerer.now.parts) (P.rctx lowerer.now.parts).place (out-PathSegment node.now) }
    requires walk { HasWalk state.old.stored walk }
    ensures { ReadsSegment first (segment_level (P.rctx lowerer.now.parts) node.now) walk state.old result state.new }
{
    match node.seg {
        Some(SegmentKind::Name) => name_form(lowerer, state, walk, first, node),
        Some(SegmentKind::Qualified) => {
            qualified_form(lowerer, state, walk, first, &node.ty, &node.trait_)
        }
        word => word_form(lowerer, state, walk, first, word),
    }
}

/// A segment, or the missing name where it is absent.
#[tactic(auto, using(hir_env::proofs::PathLevels::segment_is_level))]
#[inline(never)]
fn segment<I: StoreSink, P: LowerExprs<I>>(
    lowerer: &Lowerer<P>,
    state: &mut BodyBuilder<I>,
    walk: PathWalk,
    first: bool,
    node: &Option<ast::PathSegment>,
) -> Result<Reading, StoreError>
    requires parts { KidsPresent (P.can lowerer.now.parts) (P.rctx lowerer.now.parts).place node.now }
    requires walk { HasWalk state.old.stored walk }
    ensures { ReadsSegment first (segment_part (P.rctx lowerer.now.parts) node.now) walk state.old result state.new }
{
    match node {
        None => missing_name(state, walk),
        Some(node) => segment_form(lowerer, state, walk, first, node),
    }
}

/// The segments behind the first, from the last.
#[tactic(auto, using(crate::proofs::Ends::each_before, crate::proofs::Ends::each_last, crate::proofs::Ends::read_each_last))]
#[inline(never)]
fn segments<I: StoreSink, P: LowerExprs<I>>(
    lowerer: &Lowerer<P>,
    state: &mut BodyBuilder<I>,
    mut walk: PathWalk,
    mut left: &[Option<ast::PathSegment>],
) -> Result<Reading, StoreError>
    requires parts { KidsSegments (P.can lowerer.now.parts) (P.rctx lowerer.now.parts).place left.now }
    requires walk { HasWalk state.old.stored walk }
    ensures { Lowers HasReading (spec.read_each (segments_part (P.rctx lowerer.now.parts) left.entry.now) walk) state.old result state.new }
{
    while let Some((last, before)) = left.split_last() {
        match segment(lowerer, state, walk, false, last)? {
            Reading::Open(next) => walk = next,
            other => return Ok(other),
        }
        left = before;
    }
    Ok(Reading::Open(walk))
}

/// The walk at a first segment, which may bear a `::`.
fn begin(walk: &mut PathWalk, leading: bool)
    ensures value { walk.new ≡ walks.at_first leading walk.old }
    ensures past { past_walk walk.new ≡ past_walk walk.old }
{
    if leading {
        walk.kind = PathKind::Abs;
    }
}

/// A path without any segment.
#[inline(never)]
fn missing_first<I: StoreSink>(
    state: &mut BodyBuilder<I>,
    walk: PathWalk,
    leading: bool,
) -> Result<Reading, StoreError>
    requires { HasWalk state.old.stored walk }
    ensures { ReadsSegment true tree.absent_segment (walks.at_first leading walk) state.old result state.new }
{
    Ok(walk.at_first(leading).named(Name::Missing, None)?)
}

/// The segments of a path, without those of the use tree around it.
#[inline(never)]
pub(crate) fn own_segments<I: StoreSink, P: LowerExprs<I>>(
    lowerer: &Lowerer<P>,
    state: &mut BodyBuilder<I>,
    walk: PathWalk,
    leading: bool,
    all: &[Option<ast::PathSegment>],
) -> Result<Reading, StoreError>
    requires parts { KidsSegments (P.can lowerer.now.parts) (P.rctx lowerer.now.parts).place all.now }
    requires walk { HasWalk state.old.stored walk }
    ensures { let rctx = P.rctx lowerer.now.parts in
        let own = spec.read_own leading (first_part rctx all.now) (rest_part rctx all.now) in
        Lowers HasReading (own walk) state.old result state.new }
{
    let Some((first, rest)) = all.split_first() else {
        return missing_first(state, walk, leading);
    };
    match segments(lowerer, state, walk, rest) {
        Ok(Reading::Open(mut walk)) => {
            begin(&mut walk, leading);
            segment(lowerer, state, walk, true, first)
        }
        other => other,
    }
}

/// The segments of the use tree around a path, if there is one.
#[inline(never)]
fn outer_segments<I: StoreSink, P: LowerExprs<I>>(
    lowerer: &Lowerer<P>,
    state: &mut BodyBuilder<I>,
    walk: PathWalk,
    outer: &Option<Boxed<ast::Path>>,
) -> Result<Reading, StoreError>
    requires outer { IfPresent ((P.can lowerer.now.parts).path (P.rctx lowerer.now.parts).place) outer.now }
    requires walk { HasWalk state.old.stored walk }
    ensures { Lowers HasReading (spec.read_option (use_tree_part (P.rctx lowerer.now.parts) outer.now) walk) state.old result state.new }
{
    match outer {
        None => Ok(Reading::Open(walk)),
        Some(outer) => {
            let place = lowerer.parts.place();
            lowerer
                .parts
                .read_path(state, place, walk, false, outer.get())
        }
    }
}

/// The segments of a path, and those of the use tree around it.
#[tactic(auto, unfolding(hir_lower_builder::specs::Paths::whole))]
#[inline(never)]
fn whole_path<I: StoreSink, P: LowerExprs<I>>(
    lowerer: &Lowerer<P>,
    state: &mut BodyBuilder<I>,
    walk: PathWalk,
    leading: bool,
    all: &[Option<ast::PathSegment>],
    outer: &Option<Boxed<ast::Path>>,
) -> Result<Reading, StoreError>
    requires parts { KidsSegments (P.can lowerer.now.parts) (P.rctx lowerer.now.parts).place all.now }
    requires outer { IfPresent ((P.can lowerer.now.parts).path (P.rctx lowerer.now.parts).place) outer.now }
    requires walk { HasWalk state.old.stored walk }
    ensures { let rctx = P.rctx lowerer.now.parts in
        let own = spec.read_own leading (first_part rctx all.now) (rest_part rctx all.now) in
        Lowers HasReading (forms.whole (own walk) (spec.read_option (use_tree_part rctx outer.now))) state.old result state.new }
{
    match own_segments(lowerer, state, walk, leading, all) {
        Ok(Reading::Open(walk)) => outer_segments(lowerer, state, walk, outer),
        other => other,
    }
}

/// A path that is read alone, which may stand directly in a call.
#[inline(never)]
fn path_alone<I: StoreSink, P: LowerExprs<I>>(
    lowerer: &Lowerer<P>,
    state: &mut BodyBuilder<I>,
    walk: PathWalk,
    node: &ast::Path,
) -> Result<Reading, StoreError>
    requires parts { KidsPath (P.can lowerer.now.parts) (P.rctx lowerer.now.parts).place (out-Path node.now) }
    requires walk { HasWalk state.old.stored walk }
    ensures { ReadsPath (path_level (P.rctx lowerer.now.parts) node.now) walk state.old result state.new }
{
    let all = node.segs.as_slice();
    match &node.use_ {
        None => {
            if node.in_macro {
                called_path(lowerer, state, walk, node)
            } else {
                own_segments(lowerer, state, walk, node.leading, all)
            }
        }
        Some(_) => whole_path(lowerer, state, walk, node.leading, all, &node.use_),
    }
}

/// Goes on with the segments of a path that is read here, and then with those of the use tree around it. It is read alone, or is itself
/// the use tree around another path, of whose segments its own are a part.
pub fn path_node<I: StoreSink, P: LowerExprs<I>>(
    lowerer: &Lowerer<P>,
    state: &mut BodyBuilder<I>,
    walk: PathWalk,
    alone: bool,
    node: &ast::Path,
) -> Result<Reading, StoreError>
    requires parts { KidsPath (P.can lowerer.now.parts) (P.rctx lowerer.now.parts).place (out-Path node.now) }
    requires walk { HasWalk state.old.stored walk }
    ensures { ReadsPath (path_level_as alone (P.rctx lowerer.now.parts) node.now) walk state.old result state.new }
{
    if alone {
        path_alone(lowerer, state, walk, node)
    } else {
        whole_path(
            lowerer,
            state,
            walk,
            node.leading,
            node.segs.as_slice(),
            &node.use_,
        )
    }
}
