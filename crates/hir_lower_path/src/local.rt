//! A path of one segment that stands directly in a macro call, which may begin at the root of the macro's crate.

ghost use Rattle.std.specs.Prelude.{◌≡◌, None, Some, true};
ghost use Rattle.hir_syntax.specs.declared.ast.Path.{out-Path};
ghost use Rattle.hir_syntax.specs.declared.ast.PathSegment.{out-PathSegment};
ghost use Rattle.hir_store.specs.Range.{HasType};
ghost use Rattle.hir_env.specs.ResolvedTree as tree;
ghost use Rattle.hir_env.specs.LocalPaths as crate_local;
ghost use Rattle.hir_env.specs.LocalPaths.{at_local_root, local_root};
ghost use Rattle.hir_env.specs.PathNames.{mod_path_of};
ghost use Rattle.hir_env.specs.Paths.{context_at, qualified_segment};
ghost use Rattle.hir_env.specs.Paths as of;
ghost use Rattle.hir_env.specs.Whole.{path_level, path_type_level, path_type_part, segment_level, type_part};
ghost use Rattle.hir_lower_builder.specs.Lowering.{Lowers};
ghost use Rattle.hir_lower_builder.specs.Lower as spec;
ghost use Rattle.hir_lower_builder.specs.Methods.{HasReading, HasWalk, ReadsPath, at_place};
ghost use Rattle.hir_lower_builder.specs.Nests.{KidsPath, KidsQualified, KidsSegment, KidsTrait};
ghost use Rattle.hir_lower_builder.specs.Paths as forms;
ghost use Rattle.hir_lower_builder.specs.Walks.{at_first, names_in};
ghost use Rattle.hir_lower_path.specs.Rooted.{bare_segment, bare_trait, read_at_root};
ghost use Rattle.hir_lower_path.specs.Rooted as rule;

use crate::path::{own_segments, projected_form, segment_form, trait_path};
use crate::places::inside_projection;
use hir_base::node::InFile;
use hir_env::ctx::LowerCtx;
use hir_lower_builder::builder::BodyBuilder;
use hir_lower_builder::parts::{LowerExprs, Lowerer};
use hir_lower_builder::store_sink::StoreSink;
use hir_lower_builder::walk::{PathWalk, Reading, crate_kind};
use hir_store::error::StoreError;
use hir_store::ids::{CrateId, TypeRefId};
use hir_store::name::Name;
use hir_store::path::{ModPath, Path, PathKind};
use hir_syntax::ast::SegmentKind;
use hir_syntax::{Boxed, ast};

fn is_bare_name(path: &ModPath) -> bool
    ensures { result ≡ crate_local.is_bare (Some path.now) }
{
    match path.kind {
        PathKind::Plain => matches!(path.segments.as_slice(), [_]),
        _ => false,
    }
}

/// Whether it is one name that begins nowhere.
fn is_bare(path: &Path) -> bool
    ensures { result ≡ crate_local.is_bare (names_in path.now) }
{
    match path {
        Path::BarePath(path) => is_bare_name(path),
        Path::Normal(path) => is_bare_name(&path.mod_path),
        Path::LangItem(_) => false,
    }
}

/// What is read of one segment, which begins at this root where it is one name that begins nowhere.
fn at_root(root: Option<CrateId>, bare: bool, reading: Reading) -> Reading
    ensures { result ≡ rule.at_root root bare reading }
{
    match reading {
        Reading::Open(walk) => {
            if bare {
                walk.ended(crate_kind(root))
            } else {
                Reading::Open(walk)
            }
        }
        other => other,
    }
}

#[inline(never)]
fn if_read(
    root: Option<CrateId>,
    bare: bool,
    reading: Result<Reading, StoreError>,
) -> Result<Reading, StoreError>
    ensures { result ≡ rule.if_read root bare reading }
{
    match reading {
        Ok(reading) => Ok(at_root(root, bare, reading)),
        Err(fault) => Err(fault),
    }
}

/// `<T as Trait>`, which stands for the names of the trait.
#[tactic(auto, using(crate::proofs::Rooted::bare_roots), unfolding(hir_lower_builder::specs::Paths::with_trait))]
#[inline(never)]
fn local_trait<I: StoreSink, P: LowerExprs<I>>(
    lowerer: &Lowerer<P>,
    state: &mut BodyBuilder<I>,
    place: LowerCtx,
    walk: PathWalk,
    root: Option<CrateId>,
    ty: TypeRefId,
    node: &ast::PathType,
) -> Result<Reading, StoreError>
    requires parts { KidsTrait (P.can lowerer.now.parts) place node.now }
    requires walk { HasWalk state.old.stored walk }
    requires ty { HasType state.old.stored ty }
    ensures { let level = path_type_level (at_place (P.rctx lowerer.now.parts) place) node.now in
        let own = forms.with_trait (spec.lower_path level.path) ty level.pointer walk in
        Lowers HasReading (read_at_root root (crate_local.is_bare (mod_path_of level.path)) own) state.old result state.new }
{
    let Some(path) = trait_path(lowerer, state, place, node)? else {
        return Ok(Reading::Refused);
    };
    let bare = is_bare(&path);
    let reading = projected_form(lowerer, state, place, walk, ty, node, path)?;
    Ok(at_root(root, bare, reading))
}

/// A qualified type with a trait.
#[inline(never)]
fn local_qualified<I: StoreSink, P: LowerExprs<I>>(
    lowerer: &Lowerer<P>,
    state: &mut BodyBuilder<I>,
    walk: PathWalk,
    root: Option<CrateId>,
    ty: &Option<Boxed<ast::Type_>>,
    trait_: &ast::PathType,
) -> Result<Reading, StoreError>
    requires parts { KidsQualified (P.can lowerer.now.parts) (P.rctx lowerer.now.parts).place ty.now (Some trait_.now) }
    requires walk { HasWalk state.old.stored walk }
    ensures { let rctx = P.rctx lowerer.now.parts in
        let inner = at_place rctx (of.inside_projection rctx.place) in
        let read = path_type_level inner trait_.now in
        let own = spec.read_segment true (qualified_segment (type_part inner ty.now) (Some read)) walk in
        Lowers HasReading (read_at_root root (crate_local.is_bare (mod_path_of read.path)) own) state.old result state.new }
{
    let Some(ty) = ty else {
        return Ok(Reading::Refused);
    };
    let place = inside_projection(lowerer.parts.place());
    match lowerer.parts.lower_type(state, place, &None, ty.get()) {
        Ok(id) => local_trait(lowerer, state, place, walk, root, id, trait_),
        Err(fault) => Err(fault),
    }
}

fn is_qualified(seg: Option<SegmentKind>) -> bool
    ensures { result ≡ rule.is_qualified seg }
{
    match seg {
        Some(SegmentKind::Qualified) => true,
        _ => false,
    }
}

/// Whether a segment that isn't a qualified type is one name that begins nowhere, where it goes on.
fn is_bare_segment(leading: bool, seg: Option<SegmentKind>) -> bool
    ensures { result ≡ bare_segment leading seg None }
{
    match seg {
        Some(SegmentKind::Name) => !leading,
        Some(SegmentKind::SelfTypeKw) => !leading,
        _ => false,
    }
}

/// The segment, which begins at this root where it is one name that begins nowhere.
#[inline(never)]
fn local_segment<I: StoreSink, P: LowerExprs<I>>(
    lowerer: &Lowerer<P>,
    state: &mut BodyBuilder<I>,
    walk: PathWalk,
    leading: bool,
    root: Option<CrateId>,
    node: &ast::PathSegment,
) -> Result<Reading, StoreError>
    requires parts { KidsSegment (P.can lowerer.now.parts) (P.rctx lowerer.now.parts).place (out-PathSegment node.now) }
    requires walk { HasWalk state.old.stored walk }
    ensures { let rctx = P.rctx lowerer.now.parts in
        let level = out-PathSegment node.now in
        let inner = at_place rctx (of.inside_projection rctx.place) in
        let own = spec.read_segment true (segment_level rctx node.now) (at_first leading walk) in
        Lowers HasReading (read_at_root root (bare_segment leading level.seg (path_type_part inner level.trait_)) own)
        state.old result state.new }
{
    let walk = walk.at_first(leading);
    let bare = is_bare_segment(leading, node.seg);
    match &node.trait_ {
        None => if_read(root, bare, segment_form(lowerer, state, walk, true, node)),
        Some(trait_) => {
            if is_qualified(node.seg) {
                local_qualified(lowerer, state, walk, root, &node.ty, trait_)
            } else {
                if_read(root, bare, segment_form(lowerer, state, walk, true, node))
            }
        }
    }
}

/// The segment of a path of one, in a call.
#[tactic(auto, using(crate::proofs::Rooted::local_reads))]
#[inline(never)]
fn only_segment<I: StoreSink, P: LowerExprs<I>>(
    lowerer: &Lowerer<P>,
    state: &mut BodyBuilder<I>,
    walk: PathWalk,
    leading: bool,
    node: &ast::PathSegment,
) -> Result<Reading, StoreError>
    requires parts { KidsSegment (P.can lowerer.now.parts) (P.rctx lowerer.now.parts).place (out-PathSegment node.now) }
    requires walk { HasWalk state.old.stored walk }
    ensures { let rctx = P.rctx lowerer.now.parts in
        let root = local_root rctx.answers (context_at rctx.answers rctx.place (out-PathSegment node.now).id) in
        let plain = tree.path None leading (segment_level rctx node.now) tree.no_segments tree.no_path in
        ReadsPath (at_local_root root plain) walk state.old result state.new }
{
    let at = InFile {
        file_id: lowerer.parts.place().file_id,
        value: node.id,
    };
    match lowerer.parts.local_root(at) {
        None => segment_form(lowerer, state, walk.at_first(leading), true, node),
        Some(root) => local_segment(lowerer, state, walk, leading, root, node),
    }
}

/// A path without any segment that is there, in a call.
#[inline(never)]
fn absent_path<I: StoreSink>(
    state: &mut BodyBuilder<I>,
    walk: PathWalk,
    leading: bool,
) -> Result<Reading, StoreError>
    requires walk { HasWalk state.old.stored walk }
    ensures { let plain = tree.path None leading tree.absent_segment tree.no_segments tree.no_path in
        ReadsPath (crate_local.or_broken leading plain) walk state.old result state.new }
{
    if leading {
        Ok(walk.at_first(true).named(Name::Missing, None)?)
    } else {
        Ok(Reading::Refused)
    }
}

/// A path that stands directly in a call, where no use tree stands around it.
#[inline(never)]
pub(crate) fn called_path<I: StoreSink, P: LowerExprs<I>>(
    lowerer: &Lowerer<P>,
    state: &mut BodyBuilder<I>,
    walk: PathWalk,
    node: &ast::Path,
) -> Result<Reading, StoreError>
    requires parts { KidsPath (P.can lowerer.now.parts) (P.rctx lowerer.now.parts).place (out-Path node.now) }
    requires walk { HasWalk state.old.stored walk }
    requires called { (out-Path node.now).in_macro ≡ true }
    requires alone { (out-Path node.now).use_ ≡ None }
    ensures { ReadsPath (path_level (P.rctx lowerer.now.parts) node.now) walk state.old result state.new }
{
    let all = node.segs.as_slice();
    let Some((first, rest)) = all.split_first() else {
        return absent_path(state, walk, node.leading);
    };
    if rest.split_first().is_some() {
        return own_segments(lowerer, state, walk, node.leading, all);
    }
    match first {
        None => absent_path(state, walk, node.leading),
        Some(segment) => only_segment(lowerer, state, walk, node.leading, segment),
    }
}
