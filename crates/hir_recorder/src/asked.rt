//! What was asked.

ghost use Rattle.std.specs.Prelude.{◌≡◌, IsTrue, option_copied};
ghost use Rattle.hir_env.specs.Paths.{flags_of};
ghost use Rattle.hir_recorder.specs.Kept.{AllAnsweredAs, AnsweredAs};

use hir_alias::signature::AliasSignature;
use hir_base::node::{HirFileId, InFile, NodeId, PredId};
use hir_env::env::LowerEnv;
use hir_env::expand::{FragmentKind, OuterMacro};
use hir_env::lang::LangItems;
use hir_env::resolved::{BuiltinShadowMode, Resolution, Resolved};
use hir_store::ids::{
    BlockId, CfgId, CrateId, CtxId, DefWithBodyId, HygieneId, ItemContainerId, LangItemId,
    MacroDefId, ModuleId, TypeAliasId,
};
use hir_store::name::Name;
use hir_store::path::ModPath;

/// A question, and behind it what was answered. Of an alias it is kept which of its lifetime parameters its type names, of an expansion its
/// file; none of a call that isn't resolved, and none of one without expansion.
#[derive(Drop)]
pub enum Asked {
    Cfg(InFile<NodeId>, Result<(), CfgId>),
    CfgPred(Option<PredId>, Option<bool>),
    Hygiene(InFile<NodeId>, HygieneId),
    Context(InFile<NodeId>, CtxId),
    CrateRoot(CtxId, Option<CrateId>),
    ContextParent(CtxId, CtxId),
    Opaque(CtxId, HygieneId),
    OuterMacro(CtxId, Option<OuterMacro>),
    Block(InFile<NodeId>, ModuleId, Option<(BlockId, ModuleId)>),
    Skip(DefWithBodyId, bool),
    Container(DefWithBodyId, ItemContainerId),
    ModuleOf(ItemContainerId, ModuleId),
    Resolve(ModuleId, ModPath, BuiltinShadowMode, Resolved),
    Alias(TypeAliasId, Vec<bool>),
    LangItems(LangItems),
    NewRange(ModuleId, bool),
    Expand(InFile<NodeId>, ModuleId, FragmentKind, Option<HirFileId>),
    MacroDef(ModuleId, Name, Option<MacroDefId>),
    LegacyMacro(ModuleId, Name, u32, Option<MacroDefId>),
    ExpansionLimit(u32),
}

fn same_found(one: Option<Resolution>, other: Option<Resolution>) -> bool
    ensures { IsTrue result → one ≡ other }
{
    one == other
}

fn same_resolved(one: Resolved, other: Resolved) -> bool
    ensures { IsTrue result → one ≡ other }
{
    same_found(one.types, other.types)
        && same_found(one.values, other.values)
        && one.rest == other.rest
}

fn same_item(one: Option<LangItemId>, other: Option<LangItemId>) -> bool
    ensures { IsTrue result → one ≡ other }
{
    one == other
}

fn same_ranges(one: &LangItems, other: &LangItems) -> bool
    ensures { IsTrue result →
        (one.now.range_full ≡ other.now.range_full) × (one.now.range_from ≡ other.now.range_from)
        × (one.now.range_from_copy ≡ other.now.range_from_copy) × (one.now.range_to ≡ other.now.range_to)
        × (one.now.range_copy ≡ other.now.range_copy) × (one.now.range ≡ other.now.range) }
{
    same_item(one.range_full, other.range_full)
        && same_item(one.range_from, other.range_from)
        && same_item(one.range_from_copy, other.range_from_copy)
        && same_item(one.range_to, other.range_to)
        && same_item(one.range_copy, other.range_copy)
        && same_item(one.range, other.range)
}

fn same_inclusive(one: &LangItems, other: &LangItems) -> bool
    ensures { IsTrue result →
        (one.now.range_to_inclusive_copy ≡ other.now.range_to_inclusive_copy)
        × (one.now.range_to_inclusive ≡ other.now.range_to_inclusive) × (one.now.range_inclusive_copy ≡ other.now.range_inclusive_copy)
        × (one.now.range_inclusive_new ≡ other.now.range_inclusive_new) }
{
    same_item(one.range_to_inclusive_copy, other.range_to_inclusive_copy)
        && same_item(one.range_to_inclusive, other.range_to_inclusive)
        && same_item(one.range_inclusive_copy, other.range_inclusive_copy)
        && same_item(one.range_inclusive_new, other.range_inclusive_new)
}

fn same_tries(one: &LangItems, other: &LangItems) -> bool
    ensures { IsTrue result →
        (one.now.try_trait_from_output ≡ other.now.try_trait_from_output) × (one.now.try_trait_branch ≡ other.now.try_trait_branch)
        × (one.now.control_flow_continue ≡ other.now.control_flow_continue)
        × (one.now.control_flow_break ≡ other.now.control_flow_break)
        × (one.now.residual_into_try_type ≡ other.now.residual_into_try_type)
        × (one.now.try_trait_from_residual ≡ other.now.try_trait_from_residual) }
{
    same_item(one.try_trait_from_output, other.try_trait_from_output)
        && same_item(one.try_trait_branch, other.try_trait_branch)
        && same_item(one.control_flow_continue, other.control_flow_continue)
        && same_item(one.control_flow_break, other.control_flow_break)
        && same_item(one.residual_into_try_type, other.residual_into_try_type)
        && same_item(one.try_trait_from_residual, other.try_trait_from_residual)
}

fn same_loops(one: &LangItems, other: &LangItems) -> bool
    ensures { IsTrue result →
        (one.now.into_iter_into_iter ≡ other.now.into_iter_into_iter) × (one.now.iterator_next ≡ other.now.iterator_next)
        × (one.now.option_some ≡ other.now.option_some) × (one.now.option_none ≡ other.now.option_none)
        × (one.now.range_min ≡ other.now.range_min) × (one.now.range_max ≡ other.now.range_max)
        × (one.now.range_sub ≡ other.now.range_sub) }
{
    same_item(one.into_iter_into_iter, other.into_iter_into_iter)
        && same_item(one.iterator_next, other.iterator_next)
        && same_item(one.option_some, other.option_some)
        && same_item(one.option_none, other.option_none)
        && same_item(one.range_min, other.range_min)
        && same_item(one.range_max, other.range_max)
        && same_item(one.range_sub, other.range_sub)
}

fn same_items(one: &LangItems, other: &LangItems) -> bool
    ensures { IsTrue result → one.now ≡ other.now }
{
    same_ranges(one, other)
        && same_inclusive(one, other)
        && same_tries(one, other)
        && same_loops(one, other)
}

fn same_macro(one: Option<OuterMacro>, other: Option<OuterMacro>) -> bool
    ensures { IsTrue result → one ≡ other }
{
    match (one, other) {
        (None, None) => true,
        (Some(one), Some(other)) => one.def == other.def && one.local_inner == other.local_inner,
        _ => false,
    }
}

fn same_bools(one: &[bool], other: &[bool]) -> bool
    ensures { IsTrue result → one.now ≡ other.now }
{
    match (one, other) {
        ([], []) => true,
        ([first, rest @ ..], [other_first, others @ ..]) => {
            *first == *other_first && same_bools(rest, others)
        }
        _ => false,
    }
}

fn same_flags(alias: Option<&AliasSignature>, flags: &[bool]) -> bool
    ensures { IsTrue result → flags_of (option_copied alias.entry) ≡ flags.now }
{
    match alias {
        Some(alias) => same_bools(alias.named(), flags),
        None => flags.is_empty(),
    }
}

impl Asked {
    /// Whether the environment answers a question about a node, a context or a predicate as it was answered.
    fn is_resolved_at_nodes<E: LowerEnv>(&self, env: &E) -> bool
        ensures { IsTrue result → AnsweredAs (E.answers env.now) self.now }
    {
        match self {
            Asked::Cfg(node, answer) => env.cfg(*node) == *answer,
            Asked::CfgPred(pred, answer) => env.cfg_pred(*pred) == *answer,
            Asked::Hygiene(node, answer) => env.hygiene(*node) == *answer,
            Asked::Context(node, answer) => env.context(*node) == *answer,
            Asked::CrateRoot(context, answer) => env.crate_root(*context) == *answer,
            Asked::ContextParent(context, answer) => env.context_parent(*context) == *answer,
            Asked::Opaque(context, answer) => env.opaque(*context) == *answer,
            Asked::OuterMacro(context, answer) => same_macro(env.outer_macro(*context), *answer),
            Asked::Block(node, inside, answer) => env.block(*node, *inside) == *answer,
            _ => false,
        }
    }

    /// Whether the environment answers it as it was answered. Of an expansion, which was lent, that isn't known, and it says no.
    /// Who answers a call by its node, and gives each expansion a file of its own, and another file to another tree or other calls
    /// expanded for it, may compare the file where there is one. Where there is none, it isn't told whether the call was unresolved,
    /// and by which path: lower anew.
    pub fn is_answered_alike<E: LowerEnv>(&self, env: &E) -> bool
        ensures { IsTrue result → AnsweredAs (E.answers env.now) self.now }
    {
        match self {
            Asked::Skip(owner, answer) => env.skip(*owner) == *answer,
            Asked::Container(owner, answer) => env.container(*owner) == *answer,
            Asked::ModuleOf(container, answer) => env.module_of(*container) == *answer,
            Asked::Resolve(inside, path, shadow, answer) => {
                same_resolved(env.resolve(*inside, path, *shadow), *answer)
            }
            Asked::Alias(id, flags) => same_flags(env.alias(*id), flags.as_slice()),
            Asked::LangItems(answer) => same_items(env.lang_items(), answer),
            Asked::NewRange(inside, answer) => env.new_range(*inside) == *answer,
            Asked::MacroDef(inside, name, answer) => env.macro_def(*inside, name) == *answer,
            Asked::LegacyMacro(inside, name, place, answer) => {
                env.legacy_macro(*inside, name, *place) == *answer
            }
            Asked::ExpansionLimit(answer) => env.expansion_limit() == *answer,
            _ => self.is_resolved_at_nodes(env),
        }
    }
}

/// Whether the environment answers all of these as they were answered.
pub fn are_answered_alike<E: LowerEnv>(asked: &[Asked], env: &E) -> bool
    ensures { IsTrue result → AllAnsweredAs (E.answers env.now) asked.now }
{
    match asked {
        [] => true,
        [first, rest @ ..] => first.is_answered_alike(env) && are_answered_alike(rest, env),
    }
}
