//! What was asked, as a line of text, without the answer.

use crate::question::sort_of;
use hir_base::node::{InFile, NodeId};
use hir_env::expand::FragmentKind;
use hir_env::resolved::BuiltinShadowMode;
use hir_recorder::Asked;
use hir_store::ids::{DefWithBodyId, ItemContainerId};
use hir_store::name::Name;
use hir_store::path::{ModPath, PathKind};
use std::fmt::{self, Display, Formatter, Write};

/// A question of a log: its sort, and behind that what it is about, in the order in which the environment is asked, but names last.
#[derive(Drop)]
pub struct Line<'a>(pub &'a Asked);

/// A node: the numbers of its file and its own.
#[derive(Drop)]
struct Node(InFile<NodeId>);

/// What has a body: its sort and its number.
#[derive(Drop)]
struct Owner(DefWithBodyId);

/// What an item stands in: its sort and its number.
#[derive(Drop)]
struct Container(ItemContainerId);

/// A name; `?` for a missing one, and `#` in front of the number of one that lowering made up.
#[derive(Drop)]
struct Word<'a>(&'a Name);

/// Where a path begins, and its names with `::` in front of each but the first.
#[derive(Drop)]
struct Words<'a>(&'a ModPath);

impl Display for Node {
    fn fmt<W: Write>(&self, f: &mut Formatter<W>) -> fmt::Result {
        write!(f, "{} {}", self.0.file_id.0, self.0.value.0)
    }
}

impl Display for Owner {
    fn fmt<W: Write>(&self, f: &mut Formatter<W>) -> fmt::Result {
        match self.0 {
            DefWithBodyId::FunctionId(id) => write!(f, "fn {}", id.0),
            DefWithBodyId::StaticId(id) => write!(f, "static {}", id.0),
            DefWithBodyId::ConstId(id) => write!(f, "const {}", id.0),
            DefWithBodyId::VariantId(id) => write!(f, "variant {}", id.0),
        }
    }
}

impl Display for Container {
    fn fmt<W: Write>(&self, f: &mut Formatter<W>) -> fmt::Result {
        match self.0 {
            ItemContainerId::ExternBlockId(id) => write!(f, "extern {}", id.0),
            ItemContainerId::ModuleId(id) => write!(f, "module {}", id.0),
            ItemContainerId::ImplId(id) => write!(f, "impl {}", id.0),
            ItemContainerId::TraitId(id) => write!(f, "trait {}", id.0),
        }
    }
}

impl<'a> Display for Word<'a> {
    fn fmt<W: Write>(&self, f: &mut Formatter<W>) -> fmt::Result {
        match self.0 {
            Name::Text(text) => write!(f, "{}", text.as_str()),
            Name::Missing => write!(f, "?"),
            Name::Generated(number) => write!(f, "#{number}"),
        }
    }
}

impl<'a> Display for Words<'a> {
    fn fmt<W: Write>(&self, f: &mut Formatter<W>) -> fmt::Result {
        match self.0.kind {
            PathKind::Plain => write!(f, "plain ")?,
            PathKind::Super(modules) => write!(f, "super {modules} ")?,
            PathKind::Crate => write!(f, "crate ")?,
            PathKind::Abs => write!(f, "abs ")?,
            PathKind::DollarCrate(root) => write!(f, "dollar {} ", root.0)?,
        }
        let mut between = "";
        for name in self.0.segments.as_slice() {
            write!(f, "{between}{}", Word(name))?;
            between = "::";
        }
        Ok(())
    }
}

/// The word for what a call is to stand for.
fn kind_word(kind: FragmentKind) -> &'static str {
    match kind {
        FragmentKind::Expr => "expr",
        FragmentKind::Stmts => "stmts",
        FragmentKind::Pat => "pat",
        FragmentKind::Type_ => "type",
    }
}

/// The word for what hides a path's first name.
fn shadow_word(shadow: BuiltinShadowMode) -> &'static str {
    match shadow {
        BuiltinShadowMode::Module => "module",
        BuiltinShadowMode::Other => "other",
        BuiltinShadowMode::Local => "local",
    }
}

impl<'a> Display for Line<'a> {
    fn fmt<W: Write>(&self, f: &mut Formatter<W>) -> fmt::Result {
        write!(f, "{}", sort_of(self.0))?;
        match self.0 {
            Asked::Cfg(node, _) | Asked::Hygiene(node, _) | Asked::Context(node, _) => {
                write!(f, " {}", Node(*node))
            }
            Asked::CfgPred(Some(pred), _) => write!(f, " {}", pred.0),
            Asked::CfgPred(None, _) => write!(f, " -"),
            Asked::CrateRoot(context, _) => write!(f, " {}", context.0),
            Asked::ContextParent(context, _) => write!(f, " {}", context.0),
            Asked::Opaque(context, _) => write!(f, " {}", context.0),
            Asked::OuterMacro(context, _) => write!(f, " {}", context.0),
            Asked::Block(node, inside, _) => write!(f, " {} {}", Node(*node), inside.0),
            Asked::Skip(owner, _) => write!(f, " {}", Owner(*owner)),
            Asked::Container(owner, _) => write!(f, " {}", Owner(*owner)),
            Asked::ModuleOf(container, _) => write!(f, " {}", Container(*container)),
            Asked::Resolve(inside, path, shadow, _) => {
                write!(f, " {} {} {}", inside.0, shadow_word(*shadow), Words(path))
            }
            Asked::Alias(id, _) => write!(f, " {}", id.0),
            Asked::NewRange(inside, _) => write!(f, " {}", inside.0),
            Asked::Expand(node, inside, kind, _) => {
                write!(f, " {} {} {}", Node(*node), inside.0, kind_word(*kind))
            }
            Asked::MacroDef(inside, name, _) => write!(f, " {} {}", inside.0, Word(name)),
            Asked::LegacyMacro(inside, name, place, _) => {
                write!(f, " {} {place} {}", inside.0, Word(name))
            }
            Asked::LangItems(_) | Asked::ExpansionLimit(_) => Ok(()),
        }
    }
}
