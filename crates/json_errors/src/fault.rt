//! What is wrong with a document.

use std::fmt::{self, Display, Formatter, Write};

/// A fault: of the whole, of a node, of a field of a node, or of an entry of a table of the environment.
#[derive(Debug, Clone, Copy, PartialEq, Eq)]
pub enum Fault {
    NotADocument,
    TooManyNodes,
    Root,
    NotAnObject { node: usize },
    Kind { node: usize },
    /// A wrong type, word or range of a number, or a part that does not serve there.
    Field { node: usize, field: &'static str },
    /// An index that is not past the node, or is past the list.
    Index { node: usize, field: &'static str },
    UsedTwice { node: usize, field: &'static str },
    Env { table: &'static str, entry: usize },
    Unused { node: usize },
    TooDeep { node: usize },
    NoTree,
}

impl Display for Fault {
    fn fmt<W: Write>(&self, f: &mut Formatter<W>) -> fmt::Result {
        match self {
            Fault::NotADocument => write!(f, "not a document"),
            Fault::TooManyNodes => write!(f, "too many nodes"),
            Fault::Root => write!(f, "root"),
            Fault::NotAnObject { node } => write!(f, "node {node}: not an object"),
            Fault::Kind { node } => write!(f, "node {node}: kind"),
            Fault::Field { node, field } => write!(f, "node {node}: field {field}"),
            Fault::Index { node, field } => write!(f, "node {node}: index {field}"),
            Fault::UsedTwice { node, field } => write!(f, "node {node}: used twice {field}"),
            Fault::Env { table, entry } => write!(f, "env {table} {entry}"),
            Fault::Unused { node } => write!(f, "node {node}: unused"),
            Fault::TooDeep { node } => write!(f, "node {node}: too deep"),
            Fault::NoTree => write!(f, "no tree"),
        }
    }
}
