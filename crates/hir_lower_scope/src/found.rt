//! The label that a jump is for.

ghost use Rattle.std.specs.Prelude.{◌≡◌, ◌≤◌, ◌+◌, length, ℕ, IfSome};
ghost use Rattle.hir_lower_scope.specs.ScopeRibs.{sought_first, climbed, search};
ghost use Rattle.hir_lower_scope.specs.Ribs.{labels_of, macros_of};
ghost use Rattle.hir_lower_scope.specs.Labels.{answer};
ghost use Rattle.hir_lower_scope.specs.Walk.{Asked, EndsAfter, sought_of};

use crate::labels::NoTarget;
use crate::looks::ProbeCount;
use crate::stacks::LabelStacks;
use hir_env::env::LowerEnv;
use hir_store::ids::{CtxId, HygieneId, LabelId, MacroDefId};
use hir_store::name::Name;

/// The hygiene that a label is to have, the context that it is of, and the macro that this came from, which is asked once a context.
#[derive(Clone, Copy)]
struct Wanted {
    hygiene: HygieneId,
    context: Option<CtxId>,
    outer: Option<MacroDefId>,
}

/// The label that a jump is for that has this name and this hygiene; or why there is none. It looks at the definitions of the macros that
/// the contexts came from, one context after another, and at the label, and passes all else that is open without a look. All its looks are
/// counted in the one `ProbeCount` that it is lent: it makes no other. In front of each look, and once more where nothing is left, it looks
/// up the next depth, which isn't counted: the number of the name in an ordered map, and a depth in each of two ordered sets.
pub fn find_label<E: LowerEnv>(
    env: &E,
    stacks: &LabelStacks,
    name: &Name,
    hygiene: HygieneId,
    looks: &mut ProbeCount,
) -> Result<LabelId, NoTarget>
    requires { looks.old ≡ 0 }
    ensures found { result ≡ answer (search (E.answers env.now).contexts name.now (sought_first hygiene) stacks.now) }
    ensures bounded { looks.new ≤ length (labels_of name.now stacks.now) + length (macros_of stacks.now) }
    ensures chain { (k : ℕ) → EndsAfter (E.answers env.now).contexts k (sought_first hygiene).context → looks.new ≤ k + 1 }
{
    let barrier = stacks.barrier();
    let mut wanted = first_wanted(env, hygiene);
    let mut below = stacks.depth();
    while let Some(depth) = stacks.nearest(name, wanted.hygiene, wanted.outer, below) {
        if let Some(label) = stacks.look(depth, looks) {
            return if depth < barrier {
                Err(NoTarget::Unreachable)
            } else {
                Ok(label)
            };
        }
        wanted = past(env, wanted);
        below = depth;
    }
    Err(NoTarget::Undeclared)
}

impl LabelStacks {
    /// The label that a jump is for that has this name and this hygiene.
    pub fn find<E: LowerEnv>(
        &self,
        env: &E,
        name: &Name,
        hygiene: HygieneId,
    ) -> Result<LabelId, NoTarget>
        ensures { result ≡ answer (search (E.answers env.now).contexts name.now (sought_first hygiene) self.now) }
    {
        let mut looks = ProbeCount::new();
        find_label(env, self, name, hygiene, &mut looks)
    }
}

/// The macro that the context came from.
fn outer_of<E: LowerEnv>(env: &E, context: CtxId) -> Option<MacroDefId>
    ensures { result ≡ (E.answers env.now).contexts.outer_macro context }
{
    match env.outer_macro(context) {
        Some(outer) => Some(outer.def),
        None => None,
    }
}

fn first_wanted<E: LowerEnv>(env: &E, hygiene: HygieneId) -> Wanted
    ensures sought { sought_of result ≡ sought_first hygiene }
    ensures asked { Asked (E.answers env.now).contexts result }
{
    if hygiene == HygieneId::ROOT {
        return Wanted {
            hygiene,
            context: None,
            outer: None,
        };
    }
    let context = CtxId(hygiene.0);
    Wanted {
        hygiene,
        context: Some(context),
        outer: outer_of(env, context),
    }
}

/// What is sought behind the definition of the macro that the context came from.
fn past<E: LowerEnv>(env: &E, wanted: Wanted) -> Wanted
    requires { Asked (E.answers env.now).contexts wanted }
    ensures sought { IfSome wanted.context (λ c. sought_of result ≡ climbed (E.answers env.now).contexts c) }
    ensures asked { Asked (E.answers env.now).contexts result }
{
    let Some(context) = wanted.context else {
        return wanted;
    };
    let parent = env.context_parent(context);
    Wanted {
        hygiene: env.opaque(parent),
        context: Some(parent),
        outer: outer_of(env, parent),
    }
}
