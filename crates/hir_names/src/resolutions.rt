//! Which binding each name means.

ghost use Rattle.std.specs.Prelude.{◌≡◌, ◌∷◌, [], IfOk, List, ℕ, Some, length, slice_get, slice_set};
ghost use Rattle.hir_names.specs.Reads.{Means, Reads};
ghost use Rattle.hir_names.specs.Walk.{IsInScope, Resolved};
ghost use Rattle.hir_scopes.specs.Parts.{joined};
ghost use Rattle.hir_store.specs.declared.ids.BindingId.{BindingId as Binding};
ghost use Rattle.hir_store.specs.declared.ids.ExprId.{ExprId as Expr};

use crate::mentions::{name_read, names_in_order};
use crate::places::move_to;
use crate::stacks::NameStacks;
use hir_base::Seq;
use hir_env::env::LowerEnv;
use hir_scopes::scope::{ExprScopes, ScopeId};
use hir_store::ids::{BindingId, ExprId};
use hir_store::store::ExpressionStore;
use hir_walks::path::expr_path_hygiene;
use std::alloc::{AllocError, Global};
use std::marker::Model;

/// For each expression of a store the binding that it means, if it is a name that means one.
pub struct Resolutions {
    by_expr: Seq<Option<BindingId>>,
}

impl Drop for Resolutions {
    fn drop(self) {
        let Resolutions { by_expr: _ } = self;
    }
}

impl Model for Resolutions {
    ghost use Rattle.std.specs.Prelude.{List, Option};
    ghost use Rattle.hir_store.specs.declared.ids.BindingId.{BindingId};

    ghost Value = { List (Option BindingId) };

    ghost view = { λ r. r.by_expr };
}

impl Resolutions {
    /// The binding that the expression means; none if it is no name, or its name means no binding.
    pub fn binding(&self, expr: ExprId) -> Option<BindingId>
        ensures { result ≡ joined (slice_get self.now expr.0) }
    {
        match self.by_expr.get(expr.0 as usize) {
            None => None,
            Some(binding) => *binding,
        }
    }
}

/// What a name means, and the scope where the walk stands then.
#[derive(Clone, Copy)]
struct Answer {
    binding: Option<BindingId>,
    scope: Option<ScopeId>,
}

/// What an expression means. The walk goes from this scope to that of the expression.
fn resolve_name<E: LowerEnv>(
    alloc: Global,
    env: &E,
    store: &ExpressionStore,
    scopes: &ExprScopes,
    stacks: &mut NameStacks,
    here: Option<ScopeId>,
    expr: ExprId,
) -> Result<Answer, AllocError>
    requires { IsInScope store.now scopes.now here stacks.old }
    ensures here { IfOk result (λ a. IsInScope store.now scopes.now a.scope stacks.new) }
    ensures means { IfOk result (λ a. Means store.now scopes.now (E.answers env.now).contexts expr a.binding) }
    ensures reads { IfOk result (λ a. (b : Binding) → a.binding ≡ Some b → Reads store.now scopes.now expr) }
{
    let Some(name) = name_read(store, expr) else {
        return Ok(Answer {
            binding: None,
            scope: here,
        });
    };
    let Some(scope) = scopes.scope_for(expr) else {
        return Ok(Answer {
            binding: None,
            scope: here,
        });
    };
    move_to(alloc, store, scopes, stacks, here, Some(scope))?;
    Ok(Answer {
        binding: stacks.find(env, name, expr_path_hygiene(store, expr)),
        scope: Some(scope),
    })
}

/// No answers yet, for so many expressions.
fn no_answers(alloc: Global, exprs: u32) -> Result<Seq<Option<BindingId>>, AllocError>
    ensures exprs { IfOk result (λ bs. length bs ≡ exprs) }
    ensures none { IfOk result (λ bs. (e : ℕ) (b : Binding) → slice_get bs e ≡ Some (Some b) → ⊥) }
{
    let mut answers = Seq::new(alloc);
    for _ in 0..exprs {
        answers.push(None)?;
    }
    Ok(answers)
}

/// Notes what an expression means.
fn set_answer(answers: &mut Seq<Option<BindingId>>, expr: ExprId, binding: Option<BindingId>)
    ensures { answers.new ≡ slice_set answers.old expr.0 binding }
{
    let index = expr.0 as usize;
    if index < answers.len() {
        answers.set(index, binding);
    }
}

/// Answers one name more. The walk goes from this scope to that of the name, which it returns.
fn resolve_next<E: LowerEnv>(
    alloc: Global,
    env: &E,
    store: &ExpressionStore,
    scopes: &ExprScopes,
    stacks: &mut NameStacks,
    here: Option<ScopeId>,
    one: (u32, ExprId),
    answers: &mut Seq<Option<BindingId>>,
) -> Result<Option<ScopeId>, AllocError>
    requires { IsInScope store.now scopes.now here stacks.old }
    ensures here { IfOk result (λ s. IsInScope store.now scopes.now s stacks.new) }
    ensures answers { IfOk result (λ _. (rest : List (ℕ × Expr))
        → Resolved store.now scopes.now (E.answers env.now).contexts answers.old (one ∷ rest)
        → Resolved store.now scopes.now (E.answers env.now).contexts answers.new rest) }
{
    let answer = resolve_name(alloc, env, store, scopes, stacks, here, one.1)?;
    set_answer(answers, one.1, answer.binding);
    Ok(answer.scope)
}

/// Answers all these names, in one walk.
fn resolve_each<E: LowerEnv>(
    alloc: Global,
    env: &E,
    store: &ExpressionStore,
    scopes: &ExprScopes,
    mut left: &[(u32, ExprId)],
    answers: &mut Seq<Option<BindingId>>,
) -> Result<(), AllocError>
    requires { Resolved store.now scopes.now (E.answers env.now).contexts answers.old left.now }
    ensures { IfOk result (λ _. Resolved store.now scopes.now (E.answers env.now).contexts answers.new []) }
{
    let mut stacks = NameStacks::new(alloc);
    let mut here = None;
    while let Some(split) = left.split_first() {
        here = resolve_next(
            alloc,
            env,
            store,
            scopes,
            &mut stacks,
            here,
            *split.0,
            answers,
        )?;
        left = split.1;
    }
    Ok(())
}

/// Resolves all names of a store in one walk over its scopes. A name means the binding that `ExprScopes::resolve_name_in_scope` finds
/// in its scope. Except for names that have a scope, no expression means a binding.
pub fn resolve_all<E: LowerEnv>(
    alloc: Global,
    env: &E,
    store: &ExpressionStore,
    scopes: &ExprScopes,
) -> Result<Resolutions, AllocError>
    ensures means { IfOk result (λ r. (e : Expr) → Means store.now scopes.now (E.answers env.now).contexts e (joined (slice_get r e.0))) }
    ensures reads { IfOk result (λ r. (e : Expr) (b : Binding) → joined (slice_get r e.0) ≡ Some b → Reads store.now scopes.now e) }
{
    let names = names_in_order(alloc, store, scopes)?;
    let mut by_expr = no_answers(alloc, store.exprs_len())?;
    resolve_each(alloc, env, store, scopes, names.as_slice(), &mut by_expr)?;
    Ok(Resolutions { by_expr })
}
