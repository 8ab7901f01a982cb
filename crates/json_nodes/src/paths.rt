//! Paths and their segments.

ghost use Rattle.std.specs.Prelude.{◌≡◌, Some, codes, option_and_then};
ghost use Rattle.serde_json.specs.View.{view};
ghost use Rattle.json_nodes.specs.Kept.{Kept};
ghost use Rattle.json_nodes.specs.Fields.{text_in};
ghost use Rattle.json_nodes.specs.Paths as spec;

use crate::field::{flag, text};
use crate::fields::{AllOrNulls, Fields, InBox, One};
use crate::name_parts::Names;
use crate::part::in_box;
use crate::path_parts::{GenericArgLists, ParenArgLists, PathPart, Paths, Segments};
use crate::type_parts::{PathTypes, Rets, Types};
use hir_base::Boxed;
use hir_syntax::ast::{Path, PathSegment, SegmentKind};
use json_errors::kind::PathNode;
use json_errors::members::Own;

/// The kind with that word.
fn segment_kind_of(word: &str) -> Option<SegmentKind>
    ensures { result ≡ spec.segment_kind_of word.now }
{
    match word {
        "name" => Some(SegmentKind::Name),
        "self" => Some(SegmentKind::SelfKw),
        "crate" => Some(SegmentKind::CrateKw),
        "super" => Some(SegmentKind::SuperKw),
        "Self" => Some(SegmentKind::SelfTypeKw),
        "type" => Some(SegmentKind::Qualified),
        _ => None,
    }
}

fn segment_kind(node: &Own<'_>) -> Option<SegmentKind>
    ensures { result ≡ option_and_then spec.segment_kind_of (text_in (codes "seg") (view node.now.node.now)) }
{
    segment_kind_of(text(node, "seg")?)
}

#[inline(never)]
#[tactic(auto, unfolding(crate::specs::Paths::segment))]
fn segment<F: Fields>(node: &F, refused: &mut bool) -> Option<Boxed<PathSegment>>
    requires { F.can node.now }
    ensures { Kept refused.old refused.new (result ≡ Some (spec.segment (F.here node.now))) }
{
    let name = node.field::<One<Names>>(refused, "name");
    let generics = node.field::<One<GenericArgLists>>(refused, "generics");
    let parens = node.field::<One<ParenArgLists>>(refused, "parens");
    let ret = node.field::<One<Rets>>(refused, "ret");
    let ty = node.field::<InBox<Types>>(refused, "ty");
    let trait_ = node.field::<One<PathTypes>>(refused, "trait");
    let segment = PathSegment {
        id: node.id(),
        range: node.range(),
        seg: segment_kind(node.value()),
        name,
        generics,
        parens,
        ret,
        rtn: flag(node.value(), "rtn"),
        ty,
        trait_,
    };
    in_box::<Segments>(node.alloc(), refused, segment)
}

/// A path.
#[inline(never)]
#[tactic(auto, unfolding(crate::specs::Paths::path))]
pub fn path<F: Fields>(node: &F, refused: &mut bool) -> Path
    requires { F.can node.now }
    ensures { Kept refused.old refused.new (result ≡ spec.path (F.here node.now)) }
{
    let use_ = node.field::<InBox<Paths>>(refused, "use");
    let segs = node.field::<AllOrNulls<Segments>>(refused, "segs");
    Path {
        id: node.id(),
        range: node.range(),
        leading: flag(node.value(), "leading"),
        in_macro: flag(node.value(), "in_macro"),
        use_,
        segs,
    }
}

/// A path or a segment.
pub fn of_path<F: Fields>(node: &F, refused: &mut bool, kind: PathNode) -> Option<PathPart>
    requires { F.can node.now }
    ensures { Kept refused.old refused.new (result ≡ spec.of_path (F.here node.now) kind) }
{
    match kind {
        PathNode::Path => Some(PathPart::Path(path(node, refused))),
        PathNode::PathSegment => Some(PathPart::Segment(segment(node, refused)?)),
        _ => None,
    }
}
