//! Bodies of items.

ghost use Rattle.std.specs.Prelude.{option_copied};
ghost use Rattle.hir_lower.specs.Inputs.{BodyInput};
ghost use Rattle.thm_calls.specs.ByRules.{BodyAs};
ghost use Rattle.thm_calls.specs.Outside.{BodyLowered};
ghost use Rattle.thm_calls.specs.Promises.{BodyPromise};
ghost use Rattle.thm_calls.specs.Readings.{body_call, body_reading};

use hir_base::node::{AstPtr, HirFileId};
use hir_env::env::LowerEnv;
use hir_lower::{Body, BodySourceMap, LowerError};
use hir_store::ids::{DefWithBodyId, ModuleId};
use hir_syntax::ast;
use std::alloc::Global;

/// Calls `lower_body`. What that promises is promised of what the rules of reading allow of parameters and body, whatever that is (clause
/// `by_rules`), and they allow what is read, and nothing else (`calls_by_rules`). It is what the steps leave (clause `lowered`), so it
/// lasts as long as what is asked outside of what a condition disables is answered alike (`results_last_outside`).
pub fn lower_body<E: LowerEnv>(
    alloc: Global,
    db: &E,
    owner: DefWithBodyId,
    syntax_node: AstPtr,
    current_file_id: HirFileId,
    inside: ModuleId,
    params: Option<&ast::ParamList>,
    body: Option<&ast::Expr>,
    is_async_fn: bool,
    is_gen_fn: bool,
) -> Result<(Body, BodySourceMap), LowerError>
    ensures promise { let ps = option_copied params.entry in
        let c = body_call owner syntax_node current_file_id inside ps (option_copied body.entry) is_async_fn is_gen_fn in
        BodyPromise (body_reading c (E.answers db.now)) result }
    ensures by_rules { let ps = option_copied params.entry in
        let c = body_call owner syntax_node current_file_id inside ps (option_copied body.entry) is_async_fn is_gen_fn in
        (x : BodyInput) → BodyAs (E.answers db.now) c x → BodyPromise x result }
    ensures lowered { let ps = option_copied params.entry in
        let c = body_call owner syntax_node current_file_id inside ps (option_copied body.entry) is_async_fn is_gen_fn in
        BodyLowered c (E.answers db.now) result }
{
    hir_lower::lower_body(
        alloc,
        db,
        owner,
        syntax_node,
        current_file_id,
        inside,
        params,
        body,
        is_async_fn,
        is_gen_fn,
    )
}
