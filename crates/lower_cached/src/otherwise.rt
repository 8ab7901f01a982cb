//! An environment that answers what was asked before, and all else otherwise.

ghost use Rattle.std.specs.Prelude.{◌≡◌};
ghost use Rattle.std.specs.Option.{option_copied};
ghost use Rattle.lower_cached.specs.Otherwise as spec;
ghost use Rattle.lower_cached.specs.Otherwise.{keeps};
ghost use Rattle.lower_cached.specs.Questions.{about};

use crate::question::{Question, is_about, was_asked};
use hir_alias::signature::AliasSignature;
use hir_base::node::{HirFileId, InFile, NodeId, PredId};
use hir_env::env::LowerEnv;
use hir_env::expand::{Expansion, FragmentKind, OuterMacro};
use hir_env::lang::LangItems;
use hir_env::resolved::{BuiltinShadowMode, Resolution, Resolved};
use hir_recorder::Asked;
use hir_store::ids::{
    BlockId, CfgId, CrateId, CtxId, DefWithBodyId, HygieneId, ImplId, ItemContainerId, MacroDefId,
    ModuleId, TraitId, TypeAliasId,
};
use hir_store::name::Name;
use hir_store::path::ModPath;
use hir_syntax::ast;

/// Answers as the environment behind it does what stands in the log, and all else otherwise than that one, and so what `but` was about.
/// Where it answers otherwise, the lang items are `items`, and an alias without a signature has that of `spare`, if any.
pub struct Otherwise<'a, E> {
    pub behind: &'a E,
    pub log: &'a [Asked],
    pub but: Option<&'a Asked>,
    pub items: LangItems,
    pub spare: Option<&'a AliasSignature>,
}

impl<'a, E> Drop for Otherwise<'a, E> {
    fn drop(self) {
        let Otherwise {
            behind: _,
            log: _,
            but: _,
            items: _,
            spare: _,
        } = self;
    }
}

/// Another number.
fn other(number: u32) -> u32
    ensures { result ≡ spec.other number }
{
    if number == 0 { 1 } else { 0 }
}

fn other_container(container: ItemContainerId) -> ItemContainerId
    ensures { result ≡ spec.other_container container }
{
    match container {
        ItemContainerId::TraitId(_) => ItemContainerId::ImplId(ImplId(0)),
        _ => ItemContainerId::TraitId(TraitId(0)),
    }
}

fn other_resolved(resolved: Resolved) -> Resolved
    ensures { result ≡ spec.other_resolved resolved }
{
    let is_unsaid = resolved.types.is_none() && resolved.values.is_none();
    let found = if is_unsaid {
        Some(Resolution::Const)
    } else {
        None
    };
    Resolved {
        types: found,
        values: found,
        rest: None,
    }
}

fn other_definition(found: Option<MacroDefId>) -> Option<MacroDefId>
    ensures { result ≡ spec.other_definition found }
{
    match found {
        Some(_) => None,
        None => Some(MacroDefId(0)),
    }
}

impl<'a, E> Otherwise<'a, E> {
    /// Whether it answers this as the environment behind it does.
    fn keeps(&self, question: Question<'_>) -> bool
        ensures { result ≡ keeps self.now.log.now (option_copied self.now.but) (about question.entry) }
    {
        let is_left_out = match self.but {
            Some(asked) => is_about(question, asked),
            None => false,
        };
        was_asked(self.log, question) && !is_left_out
    }
}

impl<'a, E: LowerEnv> LowerEnv for Otherwise<'a, E> {
    ghost use Rattle.std.specs.Option.{option_copied};
    ghost use Rattle.lower_cached.specs.Otherwise.{keeps, otherwise};

    ghost answers = { λ env. otherwise
        (keeps env.log.now (option_copied env.but)) env.items (option_copied env.spare) (E.answers env.behind.now) };

    fn cfg(&self, node: InFile<NodeId>) -> Result<(), CfgId> {
        let answer = self.behind.cfg(node);
        if self.keeps(Question::Cfg(node)) {
            return answer;
        }
        match answer {
            Ok(()) => Err(CfgId(0)),
            Err(_) => Ok(()),
        }
    }

    fn cfg_pred(&self, pred: Option<PredId>) -> Option<bool> {
        let answer = self.behind.cfg_pred(pred);
        if self.keeps(Question::CfgPred(pred)) {
            return answer;
        }
        match answer {
            Some(holds) => Some(!holds),
            None => Some(true),
        }
    }

    fn hygiene(&self, node: InFile<NodeId>) -> HygieneId {
        let answer = self.behind.hygiene(node);
        if self.keeps(Question::Hygiene(node)) {
            return answer;
        }
        HygieneId(other(answer.0))
    }

    fn context(&self, node: InFile<NodeId>) -> CtxId {
        let answer = self.behind.context(node);
        if self.keeps(Question::Context(node)) {
            return answer;
        }
        CtxId(other(answer.0))
    }

    fn crate_root(&self, context: CtxId) -> Option<CrateId> {
        let answer = self.behind.crate_root(context);
        if self.keeps(Question::CrateRoot(context)) {
            return answer;
        }
        match answer {
            Some(_) => None,
            None => Some(CrateId(0)),
        }
    }

    fn context_parent(&self, context: CtxId) -> CtxId {
        let answer = self.behind.context_parent(context);
        if self.keeps(Question::ContextParent(context)) {
            return answer;
        }
        CtxId(other(answer.0))
    }

    fn opaque(&self, context: CtxId) -> HygieneId {
        let answer = self.behind.opaque(context);
        if self.keeps(Question::Opaque(context)) {
            return answer;
        }
        HygieneId(other(answer.0))
    }

    fn outer_macro(&self, context: CtxId) -> Option<OuterMacro> {
        let answer = self.behind.outer_macro(context);
        if self.keeps(Question::OuterMacro(context)) {
            return answer;
        }
        match answer {
            Some(_) => None,
            None => Some(OuterMacro {
                def: MacroDefId(0),
                local_inner: true,
            }),
        }
    }

    fn block(&self, node: InFile<NodeId>, inside: ModuleId) -> Option<(BlockId, ModuleId)> {
        let answer = self.behind.block(node, inside);
        if self.keeps(Question::Block(node, inside)) {
            return answer;
        }
        match answer {
            Some(_) => None,
            None => Some((BlockId(0), inside)),
        }
    }

    fn skip(&self, owner: DefWithBodyId) -> bool {
        let answer = self.behind.skip(owner);
        if self.keeps(Question::Skip(owner)) {
            return answer;
        }
        !answer
    }

    fn container(&self, owner: DefWithBodyId) -> ItemContainerId {
        let answer = self.behind.container(owner);
        if self.keeps(Question::Container(owner)) {
            return answer;
        }
        other_container(answer)
    }

    fn module_of(&self, container: ItemContainerId) -> ModuleId {
        let answer = self.behind.module_of(container);
        if self.keeps(Question::ModuleOf(container)) {
            return answer;
        }
        ModuleId(other(answer.0))
    }

    fn resolve(&self, inside: ModuleId, path: &ModPath, shadow: BuiltinShadowMode) -> Resolved {
        let answer = self.behind.resolve(inside, path, shadow);
        if self.keeps(Question::Resolve(inside, path, shadow)) {
            return answer;
        }
        other_resolved(answer)
    }

    fn alias(&self, id: TypeAliasId) -> Option<&AliasSignature> {
        let answer = self.behind.alias(id);
        if self.keeps(Question::Alias(id)) {
            return answer;
        }
        match answer {
            Some(_) => None,
            None => self.spare,
        }
    }

    fn lang_items(&self) -> &LangItems {
        if self.keeps(Question::LangItems) {
            return self.behind.lang_items();
        }
        &self.items
    }

    fn new_range(&self, inside: ModuleId) -> bool {
        let answer = self.behind.new_range(inside);
        if self.keeps(Question::NewRange(inside)) {
            return answer;
        }
        !answer
    }

    fn expand(
        &self,
        node: InFile<NodeId>,
        call: &ast::MacroCall,
        inside: ModuleId,
        kind: FragmentKind,
    ) -> Expansion<'_> {
        let answer = self.behind.expand(node, call, inside, kind);
        if self.keeps(Question::Expand(node, inside, kind)) {
            return answer;
        }
        match answer {
            Expansion::NoExpansion => Expansion::Expanded(HirFileId(0), None, &[]),
            _ => Expansion::NoExpansion,
        }
    }

    fn macro_def(&self, inside: ModuleId, name: &Name) -> Option<MacroDefId> {
        let answer = self.behind.macro_def(inside, name);
        if self.keeps(Question::MacroDef(inside, name)) {
            return answer;
        }
        other_definition(answer)
    }

    fn legacy_macro(&self, inside: ModuleId, name: &Name, place: u32) -> Option<MacroDefId> {
        let answer = self.behind.legacy_macro(inside, name, place);
        if self.keeps(Question::LegacyMacro(inside, name, place)) {
            return answer;
        }
        other_definition(answer)
    }

    fn expansion_limit(&self) -> u32 {
        let answer = self.behind.expansion_limit();
        if self.keeps(Question::ExpansionLimit) {
            return answer;
        }
        other(answer)
    }

    fn hash_key(&self) -> u128 {
        self.behind.hash_key() ^ 1
    }
}
