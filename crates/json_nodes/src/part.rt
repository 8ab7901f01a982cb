//! The parts of trees, by their group.

ghost use Rattle.std.specs.Prelude.{◌≡◌, ℕ, Option, Some, option_and_then};
ghost use Rattle.std.specs.Result.{result_ok};
ghost use Rattle.json_nodes.specs.Kept.{Kept};
ghost use Rattle.json_nodes.specs.Any.{AnyPart};

use crate::code_parts::{CodePart, ExprPart};
use crate::fields::Fields;
use crate::name_parts::NamePart;
use crate::param_parts::{ParamPart, PatPart};
use crate::path_parts::PathPart;
use crate::type_parts::TypePart;
use hir_base::Boxed;
use hir_base::node::{NodeId, TextRange};
use std::alloc::Global;

/// A part of a tree, by its sort, whichever types the sorts have.
///
/// It can't be dropped but by what reads parts, since whatever may drop a tree is dear to check. A part of any sort is handed on
/// through type parameters, since a function whose signature names all sorts is dear, and so is each that calls one.
pub enum AnyOf<E, C, P, M, T, H, N> {
    Expr(E),
    /// A part of expressions and statements.
    Code(C),
    Pat(P),
    Param(M),
    Type_(T),
    Path(H),
    Name(N),
}

/// A part of a tree. Expressions, patterns and types are in boxes: an enum is dear to take apart that holds one by value.
pub type AnyPart = AnyOf<ExprPart, CodePart, PatPart, ParamPart, TypePart, PathPart, NamePart>;

/// What lets parts go.
pub trait LetsGo<A> {
    /// Lets a part go.
    fn let_go(&self, part: A);
}

/// What reads the parts of a node, and does with them what may drop one.
pub trait ReadParts: LetsGo<AnyPart> {
    /// It may be asked.
    ghost can: { Self → Type 0 };
    /// What stands at each node.
    ghost parts: { Self → ℕ → Option AnyPart };

    /// The part that stands at a node, if one does. Where memory is refused it sets `refused`.
    fn part_at(&self, alloc: Global, refused: &mut bool, at: u32) -> Option<AnyPart>
        requires { can self.now }
        ensures { Kept refused.old refused.new (result ≡ parts self.now at) };
}

/// A group of parts: what a field for one may hold.
pub trait Group<A> {
    ghost use Rattle.std.specs.Prelude.{Option};

    type Part;

    /// What a part is in such a field, if it serves there.
    ghost as_group: { A → Option Self.Part };

    /// The part as one of this group, or as it was where it is of another.
    fn from_part(part: A) -> Result<Self::Part, A>
        ensures { result_ok result ≡ as_group part };
}

/// The groups of one sort of parts.
pub trait Sorted {
    type Sort;
}

/// A group of parts of one sort, whose type is `S`.
pub trait SortGroup<S> {
    ghost use Rattle.std.specs.Prelude.{Option};

    type Part;

    /// What a part of the sort is in a field for this group, if it serves there.
    ghost of_sort: { S → Option Self.Part };

    /// The part as one of this group, or as it was where it is of another.
    fn from_sort(part: S) -> Result<Self::Part, S>
        ensures { result_ok result ≡ of_sort part };
}

/// A sort of parts.
pub trait PartSort<A> {
    ghost use Rattle.std.specs.Prelude.{Option};

    /// The type of its parts.
    type Held;

    /// A part where it is of this sort.
    ghost in_part: { A → Option Self.Held };

    /// The part as one of a group of this sort, or as it was where it is of another.
    fn served<G: SortGroup<Self::Held>>(part: A) -> Result<G::Part, A>
        ensures { result_ok result ≡ option_and_then G.of_sort (in_part part) };
}

impl<A, G: Sorted> Group<A> for G
where
    G::Sort: PartSort<A>,
    G: SortGroup<<<G as Sorted>::Sort as PartSort<A>>::Held>,
{
    type Part = <G as SortGroup<<<G as Sorted>::Sort as PartSort<A>>::Held>>::Part;

    ghost as_group = { λ part. option_and_then G.of_sort (G.Sort.in_part part) };

    fn from_part(part: A) -> Result<Self::Part, A> {
        G::Sort::served::<G>(part)
    }
}

/// The part as one of a group, if it serves there.
#[inline(never)]
pub fn served<A, G: Group<A>, P: LetsGo<A>>(parts: &P, part: A) -> Option<G::Part>
    ensures { result ≡ G.as_group part }
{
    match G::from_part(part) {
        Ok(part) => Some(part),
        Err(part) => {
            parts.let_go(part);
            None
        }
    }
}

/// A part in a box. Where memory is refused it sets `refused` and answers none.
pub fn boxed_part<T: Drop>(alloc: Global, refused: &mut bool, part: T) -> Option<Boxed<T>>
    ensures { Kept refused.old refused.new (result ≡ Some part) }
{
    match Boxed::new(alloc, part) {
        Ok(part) => Some(part),
        Err(_) => {
            *refused = true;
            None
        }
    }
}

/// A group of which trees hold parts in boxes.
pub trait BoxedGroup: Group<AnyPart> {
    /// The part in a box. Where memory is refused it sets `refused` and answers none.
    fn boxed(alloc: Global, refused: &mut bool, part: Self::Part) -> Option<Boxed<Self::Part>>
        ensures { Kept refused.old refused.new (result ≡ Some part) };
}

/// The same, where the type of the part stands in no signature.
pub fn in_box<G: BoxedGroup>(
    alloc: Global,
    refused: &mut bool,
    part: G::Part,
) -> Option<Boxed<G::Part>>
    ensures { Kept refused.old refused.new (result ≡ Some part) }
{
    G::boxed(alloc, refused, part)
}

/// A group whose parts have a number, a range and a kind.
pub trait KindGroup {
    ghost use Rattle.hir_base.specs.declared.node.NodeId.{NodeId};
    ghost use Rattle.hir_base.specs.declared.node.TextRange.{TextRange};

    type Kind;

    type Whole;

    /// The part.
    ghost made: { NodeId → TextRange → Self.Kind → Self.Whole };

    fn make(
        alloc: Global,
        refused: &mut bool,
        id: NodeId,
        range: TextRange,
        kind: Self::Kind,
    ) -> Option<Self::Whole>
        ensures { Kept refused.old refused.new (result ≡ Some (made id range kind)) };
}

/// A part of a kind.
///
/// A kind is handed on through a type parameter: a function whose signature names it is dear, and so is each that calls one.
pub fn whole<G: KindGroup, F: Fields>(
    node: &F,
    refused: &mut bool,
    kind: G::Kind,
) -> Option<G::Whole>
    ensures { Kept refused.old refused.new
        (result ≡ Some (G.made (F.here node.now).id (F.here node.now).range kind)) }
{
    G::make(node.alloc(), refused, node.id(), node.range(), kind)
}
