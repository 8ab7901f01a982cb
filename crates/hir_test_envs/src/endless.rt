//! An object by which each macro call is expanded to another one, in a file of its own, in every place where a call is entered.

ghost use Rattle.std.specs.Prelude.{◌≡◌};
ghost use Rattle.hir_test_envs.specs.Endless as spec;

use hir_alias::signature::AliasSignature;
use hir_base::node::{HirFileId, InFile, NodeId, PredId};
use hir_env::env::LowerEnv;
use hir_env::expand::{Expansion, FragmentKind, OuterMacro};
use hir_env::lang::LangItems;
use hir_env::resolved::{BuiltinShadowMode, Resolved};
use hir_store::ids::{
    BlockId, CfgId, CrateId, CtxId, DefWithBodyId, HygieneId, ItemContainerId, MacroDefId,
    ModuleId, TypeAliasId,
};
use hir_store::name::Name;
use hir_store::path::ModPath;
use hir_syntax::ast;

/// Each call is expanded to a tree of the kind that is wanted, by the number of the kind in file 9 of another environment.
#[derive(Clone, Copy)]
pub struct Endless<'a, E> {
    pub behind: &'a E,
}

fn tree_of(kind: FragmentKind) -> InFile<NodeId>
    ensures { result ≡ spec.tree_of kind }
{
    let number = match kind {
        FragmentKind::Expr => 0,
        FragmentKind::Stmts => 1,
        FragmentKind::Pat => 2,
        FragmentKind::Type_ => 3,
    };
    InFile {
        file_id: HirFileId(9),
        value: NodeId(number),
    }
}

fn file_behind(node: InFile<NodeId>) -> HirFileId
    ensures { result ≡ spec.file_behind node }
{
    HirFileId(node.file_id.0.saturating_add(node.value.0))
}

impl<'a, E: LowerEnv> LowerEnv for Endless<'a, E> {
    ghost use Rattle.hir_test_envs.specs.Endless.{endless_answers};

    ghost answers = { λ env. endless_answers (E.answers env.behind.now) };

    fn cfg(&self, node: InFile<NodeId>) -> Result<(), CfgId> {
        self.behind.cfg(node)
    }

    fn cfg_pred(&self, pred: Option<PredId>) -> Option<bool> {
        self.behind.cfg_pred(pred)
    }

    fn hygiene(&self, node: InFile<NodeId>) -> HygieneId {
        self.behind.hygiene(node)
    }

    fn context(&self, node: InFile<NodeId>) -> CtxId {
        self.behind.context(node)
    }

    fn crate_root(&self, context: CtxId) -> Option<CrateId> {
        self.behind.crate_root(context)
    }

    fn context_parent(&self, context: CtxId) -> CtxId {
        self.behind.context_parent(context)
    }

    fn opaque(&self, context: CtxId) -> HygieneId {
        self.behind.opaque(context)
    }

    fn outer_macro(&self, context: CtxId) -> Option<OuterMacro> {
        self.behind.outer_macro(context)
    }

    fn block(&self, node: InFile<NodeId>, inside: ModuleId) -> Option<(BlockId, ModuleId)> {
        self.behind.block(node, inside)
    }

    fn skip(&self, owner: DefWithBodyId) -> bool {
        self.behind.skip(owner)
    }

    fn container(&self, owner: DefWithBodyId) -> ItemContainerId {
        self.behind.container(owner)
    }

    fn module_of(&self, container: ItemContainerId) -> ModuleId {
        self.behind.module_of(container)
    }

    fn resolve(&self, inside: ModuleId, path: &ModPath, shadow: BuiltinShadowMode) -> Resolved {
        self.behind.resolve(inside, path, shadow)
    }

    fn alias(&self, id: TypeAliasId) -> Option<&AliasSignature> {
        self.behind.alias(id)
    }

    fn lang_items(&self) -> &LangItems {
        self.behind.lang_items()
    }

    fn new_range(&self, inside: ModuleId) -> bool {
        self.behind.new_range(inside)
    }

    fn expand(
        &self,
        node: InFile<NodeId>,
        call: &ast::MacroCall,
        inside: ModuleId,
        kind: FragmentKind,
    ) -> Expansion<'_> {
        match self.behind.expand(tree_of(kind), call, inside, kind) {
            Expansion::Expanded(_, root, eager) => {
                Expansion::Expanded(file_behind(node), root, eager)
            }
            Expansion::Unresolved(path) => Expansion::Unresolved(path),
            Expansion::NoExpansion => Expansion::NoExpansion,
        }
    }

    fn macro_def(&self, inside: ModuleId, name: &Name) -> Option<MacroDefId> {
        self.behind.macro_def(inside, name)
    }

    fn legacy_macro(&self, inside: ModuleId, name: &Name, place: u32) -> Option<MacroDefId> {
        self.behind.legacy_macro(inside, name, place)
    }

    fn expansion_limit(&self) -> u32 {
        self.behind.expansion_limit()
    }

    fn hash_key(&self) -> u128 {
        self.behind.hash_key()
    }
}
