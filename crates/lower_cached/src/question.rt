//! Questions without their answers.

ghost use Rattle.std.specs.Prelude.{◌≡◌};
ghost use Rattle.std.specs.List.{list_any};
ghost use Rattle.lower_cached.specs.Questions.{about};

use hir_base::node::{InFile, NodeId, PredId};
use hir_env::expand::FragmentKind;
use hir_env::resolved::BuiltinShadowMode;
use hir_recorder::Asked;
use hir_store::ids::{CtxId, DefWithBodyId, ItemContainerId, ModuleId, TypeAliasId};
use hir_store::name::Name;
use hir_store::path::ModPath;

/// What an environment is asked.
#[derive(Clone, Copy)]
pub enum Question<'a> {
    Cfg(InFile<NodeId>),
    CfgPred(Option<PredId>),
    Hygiene(InFile<NodeId>),
    Context(InFile<NodeId>),
    CrateRoot(CtxId),
    ContextParent(CtxId),
    Opaque(CtxId),
    OuterMacro(CtxId),
    Block(InFile<NodeId>, ModuleId),
    Skip(DefWithBodyId),
    Container(DefWithBodyId),
    ModuleOf(ItemContainerId),
    Resolve(ModuleId, &'a ModPath, BuiltinShadowMode),
    Alias(TypeAliasId),
    LangItems,
    NewRange(ModuleId),
    Expand(InFile<NodeId>, ModuleId, FragmentKind),
    MacroDef(ModuleId, &'a Name),
    LegacyMacro(ModuleId, &'a Name, u32),
    ExpansionLimit,
}

/// The word for all questions of its sort.
pub fn sort_of(asked: &Asked) -> &'static str {
    match asked {
        Asked::Cfg(..) => "cfg",
        Asked::CfgPred(..) => "cfg_pred",
        Asked::Hygiene(..) => "hygiene",
        Asked::Context(..) => "context",
        Asked::CrateRoot(..) => "crate_root",
        Asked::ContextParent(..) => "context_parent",
        Asked::Opaque(..) => "opaque",
        Asked::OuterMacro(..) => "outer_macro",
        Asked::Block(..) => "block",
        Asked::Skip(..) => "skip",
        Asked::Container(..) => "container",
        Asked::ModuleOf(..) => "module_of",
        Asked::Resolve(..) => "resolve",
        Asked::Alias(..) => "alias",
        Asked::LangItems(..) => "lang_items",
        Asked::NewRange(..) => "new_range",
        Asked::Expand(..) => "expand",
        Asked::MacroDef(..) => "macro_def",
        Asked::LegacyMacro(..) => "legacy_macro",
        Asked::ExpansionLimit(..) => "expansion_limit",
    }
}

/// Whether this is what was asked.
pub fn is_about(question: Question<'_>, asked: &Asked) -> bool
    ensures { result ≡ about question.entry asked.now }
{
    match (question, asked) {
        (Question::Cfg(node), Asked::Cfg(of, _)) => node == *of,
        (Question::CfgPred(pred), Asked::CfgPred(of, _)) => pred == *of,
        (Question::Hygiene(node), Asked::Hygiene(of, _)) => node == *of,
        (Question::Context(node), Asked::Context(of, _)) => node == *of,
        (Question::CrateRoot(context), Asked::CrateRoot(of, _)) => context == *of,
        (Question::ContextParent(context), Asked::ContextParent(of, _)) => context == *of,
        (Question::Opaque(context), Asked::Opaque(of, _)) => context == *of,
        (Question::OuterMacro(context), Asked::OuterMacro(of, _)) => context == *of,
        (Question::Block(node, inside), Asked::Block(of, within, _)) => {
            node == *of && inside == *within
        }
        (Question::Skip(owner), Asked::Skip(of, _)) => owner == *of,
        (Question::Container(owner), Asked::Container(of, _)) => owner == *of,
        (Question::ModuleOf(container), Asked::ModuleOf(of, _)) => container == *of,
        (Question::Resolve(inside, path, shadow), Asked::Resolve(within, of, by, _)) => {
            inside == *within && *path == *of && shadow == *by
        }
        (Question::Alias(id), Asked::Alias(of, _)) => id == *of,
        (Question::LangItems, Asked::LangItems(_)) => true,
        (Question::NewRange(inside), Asked::NewRange(within, _)) => inside == *within,
        (Question::Expand(node, inside, kind), Asked::Expand(of, within, like, _)) => {
            node == *of && inside == *within && kind == *like
        }
        (Question::MacroDef(inside, name), Asked::MacroDef(within, of, _)) => {
            inside == *within && *name == *of
        }
        (Question::LegacyMacro(inside, name, place), Asked::LegacyMacro(within, of, at, _)) => {
            inside == *within && *name == *of && place == *at
        }
        (Question::ExpansionLimit, Asked::ExpansionLimit(_)) => true,
        _ => false,
    }
}

/// Whether this is among what was asked.
pub fn was_asked(log: &[Asked], question: Question<'_>) -> bool
    ensures { result ≡ list_any (about question.entry) log.now }
{
    match log {
        [] => false,
        [first, rest @ ..] => is_about(question, first) || was_asked(rest, question),
    }
}
