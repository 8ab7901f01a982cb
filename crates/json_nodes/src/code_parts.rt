//! Expressions, statements, and their parts. The implementation of each group is written out, since no macro can write a ghost member.

ghost use Rattle.json_nodes.specs.Groups.{arm_of, block_of, else_of, expr_of, guard_of, let_else_of, macro_call_of, macro_stmts_of};
ghost use Rattle.std.specs.Prelude.{◌≡◌, Some};
ghost use Rattle.json_nodes.specs.Kept.{Kept};
ghost use Rattle.json_nodes.specs.Exprs.{expr_at};
ghost use Rattle.json_nodes.specs.Groups.{pat_literal_of, record_field_of, record_list_of, stmt_of};

use crate::part::{BoxedGroup, KindGroup, SortGroup, Sorted, boxed_part, in_box};
use crate::sorts::{CodeSort, ExprSort};
use hir_base::Boxed;
use hir_base::node::{NodeId, TextRange};
use hir_syntax::ast::{
    BlockExpr, ElseBranch, Expr, ExprKind, Guard, LetElse, Literal, MacroCall, MacroStmts,
    MatchArm, PatLiteral, RecordExprField, RecordExprFieldList, Stmt,
};
use std::alloc::Global;

/// What serves as an expression.
pub enum ExprPart {
    Expr(Boxed<Expr>),
    /// One that may follow `else`.
    If(Boxed<Expr>),
    Block(Boxed<BlockExpr>),
    /// A literal with its number and its range, which may also stand in a pattern.
    Literal(NodeId, TextRange, Literal),
}

/// A part of expressions and statements, whichever types they have.
pub enum CodeOf<S, L, A, D, R, F, C, M> {
    Stmt(S),
    LetElse(L),
    Arm(A),
    Guard(D),
    RecordList(R),
    RecordField(F),
    MacroCall(C),
    /// What a call may be expanded to, which stands in no field.
    MacroStmts(M),
}

/// A part of expressions and statements.
pub type CodePart = CodeOf<
    Stmt,
    LetElse,
    MatchArm,
    Guard,
    RecordExprFieldList,
    RecordExprField,
    MacroCall,
    MacroStmts,
>;

/// Expressions.
pub struct Exprs;

/// What follows `else`.
pub struct Elses;

/// Blocks, each in a box.
pub struct Blocks;

/// Literals in patterns.
pub struct PatLiterals;

/// Statements.
pub struct Stmts;

/// What follows the `else` of a `let`.
pub struct LetElses;

/// Arms of a `match`.
pub struct Arms;

/// Conditions of arms.
pub struct Guards;

/// The fields of a record, as a whole.
pub struct RecordLists;

/// Fields of a record.
pub struct RecordFields;

/// Macro calls.
pub struct MacroCalls;

/// Statements with an expression behind them.
pub struct MacroStmtLists;

impl Sorted for Exprs {
    type Sort = ExprSort;
}

impl SortGroup<ExprPart> for Exprs {
    type Part = Expr;

    ghost of_sort = { expr_of };

    fn from_sort(part: ExprPart) -> Result<Expr, ExprPart> {
        match part {
            ExprPart::Expr(expr) => Ok(expr.into_inner()),
            ExprPart::If(expr) => Ok(expr.into_inner()),
            ExprPart::Block(block) => Ok(Expr {
                id: block.get().id,
                range: block.get().range,
                kind: ExprKind::BlockExpr(block),
            }),
            ExprPart::Literal(id, range, literal) => Ok(Expr {
                id,
                range,
                kind: ExprKind::Literal(literal),
            }),
        }
    }
}

impl BoxedGroup for Exprs {
    fn boxed(alloc: Global, refused: &mut bool, part: Expr) -> Option<Boxed<Expr>> {
        boxed_part(alloc, refused, part)
    }
}

impl Sorted for Elses {
    type Sort = ExprSort;
}

impl SortGroup<ExprPart> for Elses {
    type Part = ElseBranch;

    ghost of_sort = { else_of };

    fn from_sort(part: ExprPart) -> Result<ElseBranch, ExprPart> {
        match part {
            ExprPart::Block(block) => Ok(ElseBranch::ElseBlock(block)),
            ExprPart::If(expr) => Ok(ElseBranch::ElseIf(expr)),
            other => Err(other),
        }
    }
}

impl Sorted for Blocks {
    type Sort = ExprSort;
}

impl SortGroup<ExprPart> for Blocks {
    type Part = Boxed<BlockExpr>;

    ghost of_sort = { block_of };

    fn from_sort(part: ExprPart) -> Result<Boxed<BlockExpr>, ExprPart> {
        match part {
            ExprPart::Block(block) => Ok(block),
            other => Err(other),
        }
    }
}

impl Sorted for PatLiterals {
    type Sort = ExprSort;
}

impl SortGroup<ExprPart> for PatLiterals {
    type Part = PatLiteral;

    ghost of_sort = { pat_literal_of };

    fn from_sort(part: ExprPart) -> Result<PatLiteral, ExprPart> {
        match part {
            ExprPart::Literal(id, range, literal) => Ok(PatLiteral { id, range, literal }),
            other => Err(other),
        }
    }
}

impl Sorted for Stmts {
    type Sort = CodeSort;
}

impl<S, L, A, D, R, F, C, M> SortGroup<CodeOf<S, L, A, D, R, F, C, M>> for Stmts {
    type Part = S;

    ghost of_sort = { stmt_of };

    fn from_sort(
        part: CodeOf<S, L, A, D, R, F, C, M>,
    ) -> Result<S, CodeOf<S, L, A, D, R, F, C, M>> {
        match part {
            CodeOf::Stmt(stmt) => Ok(stmt),
            other => Err(other),
        }
    }
}

impl Sorted for LetElses {
    type Sort = CodeSort;
}

impl<S, L, A, D, R, F, C, M> SortGroup<CodeOf<S, L, A, D, R, F, C, M>> for LetElses {
    type Part = L;

    ghost of_sort = { let_else_of };

    fn from_sort(
        part: CodeOf<S, L, A, D, R, F, C, M>,
    ) -> Result<L, CodeOf<S, L, A, D, R, F, C, M>> {
        match part {
            CodeOf::LetElse(let_else) => Ok(let_else),
            other => Err(other),
        }
    }
}

impl Sorted for Arms {
    type Sort = CodeSort;
}

impl<S, L, A, D, R, F, C, M> SortGroup<CodeOf<S, L, A, D, R, F, C, M>> for Arms {
    type Part = A;

    ghost of_sort = { arm_of };

    fn from_sort(
        part: CodeOf<S, L, A, D, R, F, C, M>,
    ) -> Result<A, CodeOf<S, L, A, D, R, F, C, M>> {
        match part {
            CodeOf::Arm(arm) => Ok(arm),
            other => Err(other),
        }
    }
}

impl Sorted for Guards {
    type Sort = CodeSort;
}

impl<S, L, A, D, R, F, C, M> SortGroup<CodeOf<S, L, A, D, R, F, C, M>> for Guards {
    type Part = D;

    ghost of_sort = { guard_of };

    fn from_sort(
        part: CodeOf<S, L, A, D, R, F, C, M>,
    ) -> Result<D, CodeOf<S, L, A, D, R, F, C, M>> {
        match part {
            CodeOf::Guard(guard) => Ok(guard),
            other => Err(other),
        }
    }
}

impl Sorted for RecordLists {
    type Sort = CodeSort;
}

impl<S, L, A, D, R, F, C, M> SortGroup<CodeOf<S, L, A, D, R, F, C, M>> for RecordLists {
    type Part = R;

    ghost of_sort = { record_list_of };

    fn from_sort(
        part: CodeOf<S, L, A, D, R, F, C, M>,
    ) -> Result<R, CodeOf<S, L, A, D, R, F, C, M>> {
        match part {
            CodeOf::RecordList(list) => Ok(list),
            other => Err(other),
        }
    }
}

impl Sorted for RecordFields {
    type Sort = CodeSort;
}

impl<S, L, A, D, R, F, C, M> SortGroup<CodeOf<S, L, A, D, R, F, C, M>> for RecordFields {
    type Part = F;

    ghost of_sort = { record_field_of };

    fn from_sort(
        part: CodeOf<S, L, A, D, R, F, C, M>,
    ) -> Result<F, CodeOf<S, L, A, D, R, F, C, M>> {
        match part {
            CodeOf::RecordField(field) => Ok(field),
            other => Err(other),
        }
    }
}

impl Sorted for MacroCalls {
    type Sort = CodeSort;
}

impl<S, L, A, D, R, F, C, M> SortGroup<CodeOf<S, L, A, D, R, F, C, M>> for MacroCalls {
    type Part = C;

    ghost of_sort = { macro_call_of };

    fn from_sort(
        part: CodeOf<S, L, A, D, R, F, C, M>,
    ) -> Result<C, CodeOf<S, L, A, D, R, F, C, M>> {
        match part {
            CodeOf::MacroCall(call) => Ok(call),
            other => Err(other),
        }
    }
}

impl Sorted for MacroStmtLists {
    type Sort = CodeSort;
}

impl<S, L, A, D, R, F, C, M> SortGroup<CodeOf<S, L, A, D, R, F, C, M>> for MacroStmtLists {
    type Part = M;

    ghost of_sort = { macro_stmts_of };

    fn from_sort(
        part: CodeOf<S, L, A, D, R, F, C, M>,
    ) -> Result<M, CodeOf<S, L, A, D, R, F, C, M>> {
        match part {
            CodeOf::MacroStmts(stmts) => Ok(stmts),
            other => Err(other),
        }
    }
}

impl BoxedGroup for MacroStmtLists {
    fn boxed(alloc: Global, refused: &mut bool, part: MacroStmts) -> Option<Boxed<MacroStmts>> {
        boxed_part(alloc, refused, part)
    }
}

impl KindGroup for Exprs {
    type Kind = ExprKind;

    type Whole = ExprPart;

    ghost made = { expr_at };

    fn make(
        alloc: Global,
        refused: &mut bool,
        id: NodeId,
        range: TextRange,
        kind: ExprKind,
    ) -> Option<ExprPart> {
        let expr = in_box::<Exprs>(alloc, refused, Expr { id, range, kind })?;
        Some(ExprPart::Expr(expr))
    }
}

/// A block in a box. Where memory is refused it sets `refused` and answers none.
#[inline(never)]
pub fn block_in_box(alloc: Global, refused: &mut bool, block: BlockExpr) -> Option<Boxed<BlockExpr>>
    ensures { Kept refused.old refused.new (result ≡ Some block) }
{
    boxed_part(alloc, refused, block)
}
