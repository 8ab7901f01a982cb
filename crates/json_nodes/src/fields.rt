//! A node as what reads its kind sees it: through a type parameter, so that none of the functions of kinds may drop a tree.

ghost use Rattle.std.specs.Prelude.{◌≡◌, [], ◌∷◌};
ghost use Rattle.serde_json.specs.View.{view};
ghost use Rattle.json_nodes.specs.Kept.{Kept};
ghost use Rattle.json_nodes.specs.Nodes.{here};
ghost use Rattle.json_nodes.specs.Parts.{list_if_there, list_in, list_with_nulls_in, part_in, text_at};

use crate::node::{Each, Node, OrNull};
use crate::param_parts::ParamPart;
use crate::part::{AnyPart, BoxedGroup, Group, ReadParts};
use hir_base::node::{NodeId, TextRange};
use hir_base::{Boxed, Seq, Text};
use hir_syntax::ast::Param;
use json_errors::members::Own;
use std::alloc::Global;
use std::marker::PhantomData;

/// What a field may hold.
pub trait Field {
    ghost use Rattle.std.specs.Prelude.{List, ℕ};
    ghost use Rattle.json_nodes.specs.Parts.{Here};

    type Held;

    /// What the field of that name says.
    ghost said: { Here → List ℕ → Self.Held };

    fn read<P: ReadParts>(node: &Node<'_, P>, refused: &mut bool, name: &str) -> Self::Held
        requires { P.can node.now.parts.now }
        ensures { Kept refused.old refused.new (result ≡ said (here P.parts node.now) name.now) };
}

/// One part.
pub struct One<G> {
    group: PhantomData<G>,
}

/// One part in a box.
pub struct InBox<G> {
    group: PhantomData<G>,
}

/// The parts of a list, none where it is absent.
pub struct All<G> {
    group: PhantomData<G>,
}

/// The parts of a list that may be absent.
pub struct AllIfThere<G> {
    group: PhantomData<G>,
}

/// The parts of a list, each of which may be null.
pub struct AllOrNulls<G> {
    group: PhantomData<G>,
}

/// A text.
pub struct Written;

impl<G: Group<AnyPart>> Field for One<G> {
    type Held = Option<G::Part>;

    ghost said = { λ h name. part_in h G.as_group name };

    fn read<P: ReadParts>(node: &Node<'_, P>, refused: &mut bool, name: &str) -> Option<G::Part> {
        node.part::<G>(refused, name)
    }
}

impl<G: BoxedGroup> Field for InBox<G> {
    type Held = Option<Boxed<G::Part>>;

    ghost said = { λ h name. part_in h G.as_group name };

    fn read<P: ReadParts>(
        node: &Node<'_, P>,
        refused: &mut bool,
        name: &str,
    ) -> Option<Boxed<G::Part>> {
        node.boxed::<G>(refused, name)
    }
}

impl<G: Group<AnyPart>> Field for All<G> {
    type Held = Seq<G::Part>;

    ghost said = { λ h name. list_in h G.as_group name };

    fn read<P: ReadParts>(node: &Node<'_, P>, refused: &mut bool, name: &str) -> Seq<G::Part> {
        node.list::<Each<G>>(refused, name)
    }
}

impl<G: Group<AnyPart>> Field for AllIfThere<G> {
    type Held = Option<Seq<G::Part>>;

    ghost said = { λ h name. list_if_there h G.as_group name };

    fn read<P: ReadParts>(
        node: &Node<'_, P>,
        refused: &mut bool,
        name: &str,
    ) -> Option<Seq<G::Part>> {
        node.list_if_there::<Each<G>>(refused, name)
    }
}

impl<G: Group<AnyPart>> Field for AllOrNulls<G> {
    type Held = Seq<Option<G::Part>>;

    ghost said = { λ h name. list_with_nulls_in h G.as_group name };

    fn read<P: ReadParts>(
        node: &Node<'_, P>,
        refused: &mut bool,
        name: &str,
    ) -> Seq<Option<G::Part>> {
        node.list::<OrNull<G>>(refused, name)
    }
}

impl Field for Written {
    type Held = Option<Text>;

    ghost said = { λ h name. text_at h name };

    fn read<P: ReadParts>(node: &Node<'_, P>, refused: &mut bool, name: &str) -> Option<Text> {
        node.text(refused, name)
    }
}

/// A node. Where memory is refused, what is read or put in a box sets `refused`.
pub trait Fields {
    ghost use Rattle.json_nodes.specs.Parts.{Here};

    /// It may be asked.
    ghost can: { Self → Type 0 };
    /// The node.
    ghost here: { Self → Here };

    fn alloc(&self) -> Global;

    fn id(&self) -> NodeId
        ensures { result ≡ (here self.now).id };

    fn range(&self) -> TextRange
        ensures { result ≡ (here self.now).range };

    fn value(&self) -> &Own<'_>
        ensures { view result.now.node.now ≡ (here self.now).value };

    fn field<A: Field>(&self, refused: &mut bool, name: &str) -> A::Held
        requires { can self.now }
        ensures { Kept refused.old refused.new (result ≡ A.said (here self.now) name.now) };

    /// A parameter as the only one of a list.
    fn only_param(&self, refused: &mut bool, param: Param) -> Seq<Param>
        ensures { Kept refused.old refused.new (result ≡ param ∷ []) };
}

impl<P: ReadParts> Fields for Node<'_, P> {
    ghost can = { λ node. P.can node.parts.now };

    ghost here = { λ node. here P.parts node };

    fn alloc(&self) -> Global {
        self.alloc
    }

    fn id(&self) -> NodeId {
        self.id
    }

    fn range(&self) -> TextRange {
        self.range
    }

    fn value(&self) -> &Own<'_> {
        &self.value
    }

    fn field<A: Field>(&self, refused: &mut bool, name: &str) -> A::Held {
        A::read(self, refused, name)
    }

    fn only_param(&self, refused: &mut bool, param: Param) -> Seq<Param> {
        let mut params = Vec::new(self.alloc);
        match params.reserve(1) {
            Ok(()) => params.push_reserved(param),
            Err(_) => {
                *refused = true;
                self.parts.let_go(AnyPart::Param(ParamPart::Param(param)));
            }
        }
        Seq::from_vec(params)
    }
}
