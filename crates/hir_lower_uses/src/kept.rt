//! Bodies that are kept as long as what was asked for them is answered alike.

ghost use Rattle.std.specs.Prelude.{IfOk, IsTrue, option_map};
ghost use Rattle.hir_recorder.specs.Kept.{AllAnsweredAs};
ghost use Rattle.hir_lower_uses.specs.Kept.{HoldsBy, IfKept, IsBodyOf, IsCovered, WasLowered, call_of};
ghost use Rattle.thm_calls.specs.Promises.{BodyPromise};
ghost use Rattle.thm_calls.specs.Readings.{body_reading};

use hir_base::node::{AstPtr, HirFileId};
use hir_env::env::LowerEnv;
use hir_lower::{Body, BodySourceMap, LowerError};
use hir_recorder::{Asked, Recorder, are_answered_alike, covered_alike};
use hir_store::ids::{DefWithBodyId, FunctionId, ModuleId};
use hir_syntax::items;
use std::alloc::Global;
use thm_calls::bodies::lower_body;
use thm_calls::results_last_by_list;

/// A lowered body of a function, with what was asked for it, if all of that can be asked again.
pub struct Kept {
    pub body: Body,
    pub source_map: BodySourceMap,
    pub asked: Option<Vec<Asked>>,
}

impl Drop for Kept {
    fn drop(self) {
        let Kept {
            body: _,
            source_map: _,
            asked: _,
        } = self;
    }
}

/// Whether what was kept of a function still holds, where its tree is the same.
pub fn still_holds<E: LowerEnv>(kept: &Kept, env: &E) -> bool
    ensures { IsTrue result → HoldsBy (E.answers env.now) kept.now }
{
    match &kept.asked {
        Some(asked) => are_answered_alike(asked.as_slice(), env),
        None => false,
    }
}

/// What was asked, if the environment answers it so when it is asked again. Exception: expansions, which can't be compared.
fn asked_again<E: LowerEnv>(asked: Option<Vec<Asked>>, env: &E) -> Option<Vec<Asked>>
    ensures { IfKept (AllAnsweredAs (E.answers env.now)) (option_map (λ asked. asked.items) result) }
{
    let asked = asked?;
    if are_answered_alike(asked.as_slice(), env) {
        Some(asked)
    } else {
        drop(asked);
        None
    }
}

/// The function's body, with all that `lower_body` promises of it.
fn body_of<E: LowerEnv>(
    alloc: Global,
    env: &E,
    item: &items::Fn,
) -> Result<(Body, BodySourceMap), LowerError>
    ensures { BodyPromise (body_reading (call_of item.now) (E.answers env.now)) result }
{
    let node = AstPtr {
        node: item.id,
        range: item.range,
    };
    let body = match &item.body {
        Some(body) => Some(body.get()),
        None => None,
    };
    lower_body(
        alloc,
        env,
        DefWithBodyId::FunctionId(FunctionId(0)),
        node,
        HirFileId(0),
        ModuleId(0),
        item.params.as_ref(),
        body,
        item.async_,
        item.gen_,
    )
}

/// The function's body, with what is asked for it.
pub fn lowered_and_kept<E: LowerEnv>(
    alloc: Global,
    env: &E,
    item: &items::Fn,
) -> Result<Kept, LowerError>
    ensures now { IfOk result (IsBodyOf (E.answers env.now) item.now) }
    ensures kept { IfOk result (WasLowered item.now) }
{
    let recorder = Recorder::new(alloc, env);
    let result = body_of(alloc, &recorder, item);
    let asked = asked_again(recorder.into_asked(), env);
    match result {
        Ok((body, source_map)) => Ok(Kept {
            body,
            source_map,
            asked,
        }),
        Err(error) => {
            drop(asked);
            Err(error)
        }
    }
}

/// What was kept of the function, if it still holds, and else its body, lowered anew. The tree has to be the one that was lowered. If all
/// that is listed for the body was kept, all is so of it by this environment that lowering it promises.
#[tactic(auto, using(crate::proofs::Keeps::valid))]
pub fn lowered_again<E: LowerEnv>(
    alloc: Global,
    env: &E,
    item: &items::Fn,
    kept: Kept,
) -> Result<Kept, LowerError>
    ensures now { (was : WasLowered item.now kept) → IsCovered was → IfOk result (IsBodyOf (E.answers env.now) item.now) }
    ensures kept { WasLowered item.now kept → IfOk result (WasLowered item.now) }
{
    if still_holds(&kept, env) {
        covered_alike();
        results_last_by_list();
        return Ok(kept);
    }
    drop(kept);
    lowered_and_kept(alloc, env, item)
}
