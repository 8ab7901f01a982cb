//! Literals of patterns, and what may stand in front of them.

ghost use Rattle.std.specs.Prelude.{◌≡◌, IfOk};
ghost use Rattle.hir_env.specs.Pats.{minus_fits};
ghost use Rattle.hir_lower_builder.specs.Pats as spec;

use hir_lower_builder::names::literal;
use hir_store::hir::Literal;
use hir_syntax::ast::{self, LiteralKind};
use std::alloc::AllocError;

/// Whether what stands in front of the literal may stand there: a minus takes a number.
pub fn minus_fits(minus: bool, literal: &ast::Literal) -> bool
    ensures { result ≡ minus_fits minus literal.now.lit }
{
    match literal.lit {
        LiteralKind::Int | LiteralKind::Float => true,
        _ => !minus,
    }
}

/// The literal as it is written, with its minus.
pub fn signed(written: &ast::Literal, minus: bool) -> Result<Literal, AllocError>
    ensures { IfOk result (λ l. l ≡ spec.signed_literal (record { minus = minus; literal = written.now })) }
{
    let plain = literal(written)?;
    Ok(Literal {
        negative: minus,
        ..plain
    })
}
