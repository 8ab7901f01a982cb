//! What stands at a node, by its kind.

ghost use Rattle.std.specs.Prelude.{◌≡◌, option_map};
ghost use Rattle.json_nodes.specs.declared.part.AnyOf.TheVariants as part;
ghost use Rattle.json_nodes.specs.Exprs as exprs;
ghost use Rattle.json_nodes.specs.Kept.{Kept};
ghost use Rattle.json_nodes.specs.Others as others;
ghost use Rattle.json_nodes.specs.Pats as pats;
ghost use Rattle.json_nodes.specs.Types as types;
ghost use Rattle.lower_json.specs.Reading as spec;
ghost use Rattle.lower_json.specs.Reading.{of_kind};

use json_errors::kind::{ExprNode, Kind, PartNode, PatNode, PathNode, StmtNode, TypeNode};
use json_nodes::args::of_args;
use json_nodes::bounds::of_bound;
use json_nodes::branches::{branching, of_branch};
use json_nodes::code_parts::ExprPart;
use json_nodes::exprs::{flow, of_if, of_literal, plain};
use json_nodes::fields::Fields;
use json_nodes::leaving::leaving;
use json_nodes::macros::of_macro;
use json_nodes::members::member;
use json_nodes::operations::operation;
use json_nodes::others::{of_block, of_stmt, other};
use json_nodes::params::of_param;
use json_nodes::part::AnyPart;
use json_nodes::partless::partless;
use json_nodes::path_parts::PathPart;
use json_nodes::paths::of_path;
use json_nodes::pats::of_pat;
use json_nodes::typed::{of_pat_field, of_record, typed};
use json_nodes::types::{of_path_type, of_type};

/// An expression.
fn of_expr<F: Fields>(node: &F, refused: &mut bool, kind: ExprNode) -> Option<ExprPart>
    requires { F.can node.now }
    ensures { Kept refused.old refused.new (result ≡ spec.of_expr (F.here node.now) kind) }
{
    match kind {
        ExprNode::LoopExpr
        | ExprNode::WhileExpr
        | ExprNode::ForExpr
        | ExprNode::TryExpr
        | ExprNode::ContinueExpr
        | ExprNode::BreakExpr => flow(node, refused, kind),
        ExprNode::CallExpr
        | ExprNode::MacroExpr
        | ExprNode::PathExpr
        | ExprNode::ParenExpr
        | ExprNode::RangeExpr => plain(node, refused, kind),
        ExprNode::LetExpr | ExprNode::MatchExpr => branching(node, refused, kind),
        ExprNode::PrefixExpr | ExprNode::BinExpr | ExprNode::IndexExpr | ExprNode::RefExpr =>
            operation(node, refused, kind),
        ExprNode::MethodCallExpr
        | ExprNode::FieldExpr
        | ExprNode::TupleExpr
        | ExprNode::ArrayExpr => member(node, refused, kind),
        ExprNode::ReturnExpr
        | ExprNode::BecomeExpr
        | ExprNode::YieldExpr
        | ExprNode::YeetExpr
        | ExprNode::AwaitExpr => leaving(node, refused, kind),
        ExprNode::CastExpr
        | ExprNode::RecordExpr
        | ExprNode::OffsetOfExpr
        | ExprNode::ClosureExpr => typed(node, refused, kind),
        ExprNode::CfgPredExpr
        | ExprNode::UnderscoreExpr
        | ExprNode::IncludeBytesExpr
        | ExprNode::AsmExpr
        | ExprNode::FormatArgsExpr => partless(node, refused, kind),
    }
}

/// A path, or what stands beside a name.
fn of_path_part<F: Fields>(node: &F, refused: &mut bool, kind: PathNode) -> Option<PathPart>
    requires { F.can node.now }
    ensures { Kept refused.old refused.new (result ≡ spec.of_path_part (F.here node.now) kind) }
{
    match kind {
        PathNode::Path | PathNode::PathSegment => of_path(node, refused, kind),
        _ => of_args(node, refused, kind),
    }
}

/// A part of anything else. These share a frame, since most forms nest without it.
#[inline(never)]
fn of_part<F: Fields>(node: &F, refused: &mut bool, kind: PartNode) -> Option<AnyPart>
    requires { F.can node.now }
    ensures { Kept refused.old refused.new (result ≡ spec.of_part (F.here node.now) kind) }
{
    match kind {
        PartNode::TypeBound | PartNode::ForBinder | PartNode::RetType => Some(AnyPart::Type_(
            of_bound(node, refused, kind)?,
        )),
        PartNode::MatchArm | PartNode::Guard | PartNode::LetElse => Some(AnyPart::Code(of_branch(
            node, refused, kind,
        )?)),
        PartNode::RecordExprFieldList | PartNode::RecordExprField => Some(AnyPart::Code(of_record(
            node, refused, kind,
        )?)),
        PartNode::MacroCall | PartNode::MacroStmts => Some(AnyPart::Code(of_macro(
            node, refused, kind,
        )?)),
        PartNode::RecordPatField => Some(AnyPart::Pat(of_pat_field(node, refused, kind)?)),
        PartNode::Param | PartNode::SelfParam | PartNode::ParamList => Some(AnyPart::Param(of_param(
            node, refused, kind,
        )?)),
        PartNode::Label | PartNode::Lifetime | PartNode::Name => Some(AnyPart::Name(other(
            node, refused, kind,
        )?)),
    }
}

/// An `if`, as a part.
#[inline(never)]
fn if_part<F: Fields>(node: &F, refused: &mut bool) -> Option<AnyPart>
    requires { F.can node.now }
    ensures { Kept refused.old refused.new (result ≡ option_map part.Expr (exprs.of_if (F.here node.now))) }
{
    Some(AnyPart::Expr(of_if(node, refused)?))
}

/// A block, as a part.
#[inline(never)]
fn block_part<F: Fields>(node: &F, refused: &mut bool) -> Option<AnyPart>
    requires { F.can node.now }
    ensures { Kept refused.old refused.new (result ≡ option_map part.Expr (others.of_block (F.here node.now))) }
{
    Some(AnyPart::Expr(of_block(node, refused)?))
}

/// A literal, as a part.
#[inline(never)]
fn literal_part<F: Fields>(node: &F, refused: &mut bool) -> Option<AnyPart>
    ensures { Kept refused.old refused.new (result ≡ option_map part.Expr (exprs.of_literal (F.here node.now))) }
{
    Some(AnyPart::Expr(of_literal(node, refused)?))
}

/// A path as a type, as a part.
#[inline(never)]
fn path_type_part<F: Fields>(node: &F, refused: &mut bool) -> Option<AnyPart>
    requires { F.can node.now }
    ensures { Kept refused.old refused.new (result ≡ option_map part.Type_ (types.of_path_type (F.here node.now))) }
{
    Some(AnyPart::Type_(of_path_type(node, refused)?))
}

/// An expression, as a part.
#[inline(never)]
fn expr_part<F: Fields>(node: &F, refused: &mut bool, kind: ExprNode) -> Option<AnyPart>
    requires { F.can node.now }
    ensures { Kept refused.old refused.new (result ≡ option_map part.Expr (spec.of_expr (F.here node.now) kind)) }
{
    Some(AnyPart::Expr(of_expr(node, refused, kind)?))
}

/// A statement, as a part.
#[inline(never)]
fn stmt_part<F: Fields>(node: &F, refused: &mut bool, kind: StmtNode) -> Option<AnyPart>
    requires { F.can node.now }
    ensures { Kept refused.old refused.new (result ≡ option_map part.Code (others.of_stmt (F.here node.now) kind)) }
{
    Some(AnyPart::Code(of_stmt(node, refused, kind)?))
}

/// A pattern, as a part.
#[inline(never)]
fn pat_part<F: Fields>(node: &F, refused: &mut bool, kind: PatNode) -> Option<AnyPart>
    requires { F.can node.now }
    ensures { Kept refused.old refused.new (result ≡ option_map part.Pat (pats.of_pat (F.here node.now) kind)) }
{
    Some(AnyPart::Pat(of_pat(node, refused, kind)?))
}

/// A type, as a part.
#[inline(never)]
fn type_part<F: Fields>(node: &F, refused: &mut bool, kind: TypeNode) -> Option<AnyPart>
    requires { F.can node.now }
    ensures { Kept refused.old refused.new (result ≡ option_map part.Type_ (types.of_type (F.here node.now) kind)) }
{
    Some(AnyPart::Type_(of_type(node, refused, kind)?))
}

/// What stands in a path, as a part.
#[inline(never)]
fn path_part<F: Fields>(node: &F, refused: &mut bool, kind: PathNode) -> Option<AnyPart>
    requires { F.can node.now }
    ensures { Kept refused.old refused.new (result ≡ option_map part.Path (spec.of_path_part (F.here node.now) kind)) }
{
    Some(AnyPart::Path(of_path_part(node, refused, kind)?))
}

/// What stands at a node of a kind. Each sort but those of `of_part` has a frame of its own, so that a level takes no more than it needs;
/// this function has none, since each level goes through it.
#[inline(always)]
#[tactic(auto, unfolding(crate::specs::Reading::of_kind))]
pub fn of_kind<F: Fields>(node: &F, refused: &mut bool, kind: Kind) -> Option<AnyPart>
    requires { F.can node.now }
    ensures { Kept refused.old refused.new (result ≡ of_kind (F.here node.now) kind) }
{
    match kind {
        Kind::IfExpr => if_part(node, refused),
        Kind::BlockExpr => block_part(node, refused),
        Kind::Literal => literal_part(node, refused),
        Kind::PathType => path_type_part(node, refused),
        Kind::Expr(kind) => expr_part(node, refused, kind),
        Kind::Stmt(kind) => stmt_part(node, refused, kind),
        Kind::Pat(kind) => pat_part(node, refused, kind),
        Kind::Type_(kind) => type_part(node, refused, kind),
        Kind::Path(kind) => path_part(node, refused, kind),
        Kind::Item(_) => None,
        Kind::Part(kind) => of_part(node, refused, kind),
    }
}
