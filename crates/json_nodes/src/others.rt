//! Blocks, statements, labels and names.

ghost use Rattle.std.specs.Prelude.{◌≡◌, codes, option_and_then};
ghost use Rattle.serde_json.specs.View.{view};
ghost use Rattle.json_nodes.specs.Kept.{Kept};
ghost use Rattle.json_nodes.specs.Fields.{text_in};
ghost use Rattle.json_nodes.specs.Others as spec;

use crate::code_parts::{CodePart, ExprPart, Exprs, LetElses, Stmts, block_in_box};
use crate::field::{flag, text};
use crate::fields::{All, Fields, InBox, One, Written};
use crate::name_parts::{Labels, Lifetimes, NamePart, Names};
use crate::param_parts::Pats;
use crate::type_parts::Types;
use hir_syntax::ast::{BlockExpr, BlockModifier, Label, Lifetime, Name, Stmt, StmtKind};
use json_errors::kind::{PartNode, StmtNode};
use json_errors::members::Own;

#[tactic(auto, unfolding(crate::specs::Others::statement))]
fn statement<F: Fields>(node: &F, refused: &mut bool, kind: StmtNode) -> StmtKind
    requires { F.can node.now }
    ensures { Kept refused.old refused.new (result ≡ spec.statement (F.here node.now) kind) }
{
    match kind {
        StmtNode::LetStmt => {
            let pat = node.field::<InBox<Pats>>(refused, "pat");
            let ty = node.field::<InBox<Types>>(refused, "ty");
            let init = node.field::<InBox<Exprs>>(refused, "init");
            let else_ = node.field::<One<LetElses>>(refused, "else");
            StmtKind::LetStmt {
                pat,
                ty,
                init,
                else_,
            }
        }
        StmtNode::ExprStmt => {
            let expr = node.field::<InBox<Exprs>>(refused, "expr");
            let semi = flag(node.value(), "semi");
            StmtKind::ExprStmt { expr, semi }
        }
        StmtNode::MacroRules => {
            let name = node.field::<One<Names>>(refused, "name");
            StmtKind::MacroRules { name }
        }
        StmtNode::MacroDef => {
            let name = node.field::<One<Names>>(refused, "name");
            StmtKind::MacroDef { name }
        }
        StmtNode::Item => StmtKind::Item,
    }
}

/// A statement.
pub fn of_stmt<F: Fields>(node: &F, refused: &mut bool, kind: StmtNode) -> Option<CodePart>
    requires { F.can node.now }
    ensures { Kept refused.old refused.new (result ≡ spec.of_stmt (F.here node.now) kind) }
{
    let kind = statement(node, refused, kind);
    Some(CodePart::Stmt(Stmt {
        id: node.id(),
        range: node.range(),
        kind,
    }))
}

fn modifier_with(word: &str) -> Option<BlockModifier>
    ensures { result ≡ spec.modifier_of word.now }
{
    match word {
        "unsafe" => Some(BlockModifier::Unsafe),
        "try" => Some(BlockModifier::Try),
        "const" => Some(BlockModifier::Const),
        "async" => Some(BlockModifier::Async),
        "gen" => Some(BlockModifier::Gen),
        "asyncgen" => Some(BlockModifier::AsyncGen),
        _ => None,
    }
}

fn modifier(node: &Own<'_>) -> Option<BlockModifier>
    ensures { result ≡ option_and_then spec.modifier_of (text_in (codes "mod") (view node.now.node.now)) }
{
    modifier_with(text(node, "mod")?)
}

/// A block.
#[tactic(auto, unfolding(crate::specs::Others::of_block))]
pub fn of_block<F: Fields>(node: &F, refused: &mut bool) -> Option<ExprPart>
    requires { F.can node.now }
    ensures { Kept refused.old refused.new (result ≡ spec.of_block (F.here node.now)) }
{
    let label = node.field::<One<Labels>>(refused, "label");
    let ty = node.field::<InBox<Types>>(refused, "ty");
    let stmts = node.field::<All<Stmts>>(refused, "stmts");
    let tail = node.field::<InBox<Exprs>>(refused, "tail");
    let block = BlockExpr {
        id: node.id(),
        range: node.range(),
        mod_: modifier(node.value()),
        label,
        ty,
        move_: flag(node.value(), "move"),
        stmts,
        tail,
    };
    let block = block_in_box(node.alloc(), refused, block)?;
    Some(ExprPart::Block(block))
}

#[tactic(auto, unfolding(crate::specs::Others::label))]
fn label<F: Fields>(node: &F, refused: &mut bool) -> Option<NamePart>
    requires { F.can node.now }
    ensures { Kept refused.old refused.new (result ≡ spec.label (F.here node.now)) }
{
    let lifetime = node.field::<One<Lifetimes>>(refused, "lifetime");
    Some(NamePart::Label(Label {
        id: node.id(),
        range: node.range(),
        lifetime,
    }))
}

fn lifetime<F: Fields>(node: &F, refused: &mut bool) -> Option<NamePart>
    requires { F.can node.now }
    ensures { Kept refused.old refused.new (result ≡ spec.lifetime (F.here node.now)) }
{
    match node.field::<Written>(refused, "t") {
        Some(t) => Some(NamePart::Lifetime(Lifetime {
            id: node.id(),
            range: node.range(),
            t,
        })),
        None => None,
    }
}

fn name<F: Fields>(node: &F, refused: &mut bool) -> Option<NamePart>
    requires { F.can node.now }
    ensures { Kept refused.old refused.new (result ≡ spec.name (F.here node.now)) }
{
    match node.field::<Written>(refused, "t") {
        Some(t) => Some(NamePart::Name(Name {
            id: node.id(),
            range: node.range(),
            t,
        })),
        None => None,
    }
}

/// Labels, lifetimes and names.
pub fn other<F: Fields>(node: &F, refused: &mut bool, kind: PartNode) -> Option<NamePart>
    requires { F.can node.now }
    ensures { Kept refused.old refused.new (result ≡ spec.other (F.here node.now) kind) }
{
    match kind {
        PartNode::Label => label(node, refused),
        PartNode::Lifetime => lifetime(node, refused),
        PartNode::Name => name(node, refused),
        _ => None,
    }
}
