//! An environment of its own.

use hir_alias::signature::AliasSignature;
use hir_base::node::{InFile, NodeId, PredId};
use hir_env::env::LowerEnv;
use hir_env::expand::{Expansion, FragmentKind, OuterMacro};
use hir_env::lang::LangItems;
use hir_env::resolved::{BuiltinShadowMode, Resolved};
use hir_store::ids::{
    BlockId, CfgId, CrateId, CtxId, DefWithBodyId, HygieneId, ItemContainerId, MacroDefId,
    ModuleId, TypeAliasId,
};
use hir_store::name::Name;
use hir_store::path::ModPath;
use hir_syntax::ast;

/// All is enabled and nothing is decided; there is one module, one hygiene and no macro; no name stands for anything.
#[derive(Clone, Copy)]
pub struct Plain {
    pub items: LangItems,
}

impl LowerEnv for Plain {
    ghost use Rattle.hir_lower_uses.specs.Plain.{plain_answers};

    ghost answers = { λ env. plain_answers env.items };

    fn cfg(&self, _node: InFile<NodeId>) -> Result<(), CfgId> {
        Ok(())
    }

    fn cfg_pred(&self, _pred: Option<PredId>) -> Option<bool> {
        None
    }

    fn hygiene(&self, _node: InFile<NodeId>) -> HygieneId {
        HygieneId::ROOT
    }

    fn context(&self, _node: InFile<NodeId>) -> CtxId {
        CtxId(0)
    }

    fn crate_root(&self, _context: CtxId) -> Option<CrateId> {
        None
    }

    fn context_parent(&self, context: CtxId) -> CtxId {
        context
    }

    fn opaque(&self, _context: CtxId) -> HygieneId {
        HygieneId::ROOT
    }

    fn outer_macro(&self, _context: CtxId) -> Option<OuterMacro> {
        None
    }

    fn block(&self, _node: InFile<NodeId>, _inside: ModuleId) -> Option<(BlockId, ModuleId)> {
        None
    }

    fn skip(&self, _owner: DefWithBodyId) -> bool {
        false
    }

    fn container(&self, _owner: DefWithBodyId) -> ItemContainerId {
        ItemContainerId::ModuleId(ModuleId(0))
    }

    fn module_of(&self, _container: ItemContainerId) -> ModuleId {
        ModuleId(0)
    }

    fn resolve(&self, _inside: ModuleId, _path: &ModPath, _shadow: BuiltinShadowMode) -> Resolved {
        Resolved {
            types: None,
            values: None,
            rest: None,
        }
    }

    fn alias(&self, _id: TypeAliasId) -> Option<&AliasSignature> {
        None
    }

    fn lang_items(&self) -> &LangItems {
        &self.items
    }

    fn new_range(&self, _inside: ModuleId) -> bool {
        false
    }

    fn expand(
        &self,
        _node: InFile<NodeId>,
        _call: &ast::MacroCall,
        _inside: ModuleId,
        _kind: FragmentKind,
    ) -> Expansion<'_> {
        Expansion::NoExpansion
    }

    fn macro_def(&self, _inside: ModuleId, _name: &Name) -> Option<MacroDefId> {
        None
    }

    fn legacy_macro(&self, _inside: ModuleId, _name: &Name, _place: u32) -> Option<MacroDefId> {
        None
    }

    fn expansion_limit(&self) -> u32 {
        0
    }

    // All that is lowered by it is this program's own, so a key that can be foreseen does no harm.
    fn hash_key(&self) -> u128 {
        0
    }
}
