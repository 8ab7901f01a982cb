//! Names, lifetimes and labels.

ghost use Rattle.std.specs.Prelude.{◌≡◌, Some};
ghost use Rattle.json_nodes.specs.Groups.{is_quoted, label_of, lifetime_of, name_of, use_arg_of};
ghost use Rattle.json_nodes.specs.declared.name_parts.NamePart.TheVariants as name_part;

use crate::part::{SortGroup, Sorted};
use crate::sorts::NameSort;
use hir_base::Text;
use hir_base::node::{NodeId, TextRange};
use hir_syntax::ast::{Label, Lifetime, Name, UseArg};

/// A name, a lifetime or a label.
pub enum NamePart {
    Label(Label),
    Lifetime(Lifetime),
    Name(Name),
    /// A text in place of a lifetime or a name, with the number and the range of the node that holds it.
    Text(NodeId, TextRange, Text),
}

/// Labels.
pub struct Labels;

/// Lifetimes.
pub struct Lifetimes;

/// Names.
pub struct Names;

/// What a `use<..>` names.
pub struct UseArgs;

/// Whether a text begins with a quote, as a lifetime does.
fn is_quoted(text: &Text) -> bool
    ensures { result ≡ is_quoted text.now }
{
    match text.as_str().as_bytes() {
        [first, ..] => *first == 39,
        [] => false,
    }
}

/// A text as a lifetime or a name.
fn use_arg(id: NodeId, range: TextRange, t: Text) -> UseArg
    ensures { Some result ≡ use_arg_of (name_part.Text id range t) }
{
    if is_quoted(&t) {
        UseArg::Lifetime(Lifetime { id, range, t })
    } else {
        UseArg::Name(Name { id, range, t })
    }
}

impl Sorted for Labels {
    type Sort = NameSort;
}

impl SortGroup<NamePart> for Labels {
    type Part = Label;

    ghost of_sort = { label_of };

    fn from_sort(part: NamePart) -> Result<Label, NamePart> {
        match part {
            NamePart::Label(label) => Ok(label),
            other => Err(other),
        }
    }
}

impl Sorted for Lifetimes {
    type Sort = NameSort;
}

impl SortGroup<NamePart> for Lifetimes {
    type Part = Lifetime;

    ghost of_sort = { lifetime_of };

    fn from_sort(part: NamePart) -> Result<Lifetime, NamePart> {
        match part {
            NamePart::Lifetime(lifetime) => Ok(lifetime),
            NamePart::Text(id, range, t) => Ok(Lifetime { id, range, t }),
            other => Err(other),
        }
    }
}

impl Sorted for Names {
    type Sort = NameSort;
}

impl SortGroup<NamePart> for Names {
    type Part = Name;

    ghost of_sort = { name_of };

    fn from_sort(part: NamePart) -> Result<Name, NamePart> {
        match part {
            NamePart::Name(name) => Ok(name),
            NamePart::Text(id, range, t) => Ok(Name { id, range, t }),
            other => Err(other),
        }
    }
}

impl Sorted for UseArgs {
    type Sort = NameSort;
}

impl SortGroup<NamePart> for UseArgs {
    type Part = UseArg;

    ghost of_sort = { use_arg_of };

    fn from_sort(part: NamePart) -> Result<UseArg, NamePart> {
        match part {
            NamePart::Lifetime(lifetime) => Ok(UseArg::Lifetime(lifetime)),
            NamePart::Name(name) => Ok(UseArg::Name(name)),
            NamePart::Text(id, range, t) => Ok(use_arg(id, range, t)),
            other => Err(other),
        }
    }
}
