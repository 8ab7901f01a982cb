//! An object by which other calls were expanded beforehand for each macro call.

ghost use Rattle.std.specs.Prelude.{◌≡◌};
ghost use Rattle.hir_test_envs.specs.Odd as spec;

use hir_alias::signature::AliasSignature;
use hir_base::node::{HirFileId, InFile, NodeId, PredId};
use hir_env::env::LowerEnv;
use hir_env::expand::{Expansion, FragmentKind, OuterMacro};
use hir_env::lang::LangItems;
use hir_env::resolved::{BuiltinShadowMode, Resolved};
use hir_store::ids::{
    BlockId, CfgId, CrateId, CtxId, DefWithBodyId, HygieneId, ItemContainerId, MacroDefId,
    ModuleId, TypeAliasId,
};
use hir_store::name::Name;
use hir_store::path::ModPath;
use hir_syntax::ast;

/// A call with the file that it was expanded to.
pub type Pair = (InFile<NodeId>, HirFileId);

/// What was expanded beforehand for each call that is expanded, by what that one has to stand for.
#[derive(Clone, Copy)]
pub struct Beforehand<'a, E> {
    pub behind: &'a E,
    pub exprs: &'a [Pair],
    pub stmts: &'a [Pair],
    pub pats: &'a [Pair],
    pub types: &'a [Pair],
}

impl<'a, E> Beforehand<'a, E> {
    fn of(&self, kind: FragmentKind) -> &'a [Pair]
        ensures { result.now ≡ spec.pairs_of self.now.exprs.now self.now.stmts.now self.now.pats.now self.now.types.now kind }
    {
        match kind {
            FragmentKind::Expr => self.exprs,
            FragmentKind::Stmts => self.stmts,
            FragmentKind::Pat => self.pats,
            FragmentKind::Type_ => self.types,
        }
    }
}

impl<'a, E: LowerEnv> LowerEnv for Beforehand<'a, E> {
    ghost use Rattle.hir_test_envs.specs.Odd.{beforehand_answers, pairs_of};

    ghost answers = { λ env. beforehand_answers
        (pairs_of env.exprs.now env.stmts.now env.pats.now env.types.now) (E.answers env.behind.now) };

    fn cfg(&self, node: InFile<NodeId>) -> Result<(), CfgId> {
        self.behind.cfg(node)
    }

    fn cfg_pred(&self, pred: Option<PredId>) -> Option<bool> {
        self.behind.cfg_pred(pred)
    }

    fn hygiene(&self, node: InFile<NodeId>) -> HygieneId {
        self.behind.hygiene(node)
    }

    fn context(&self, node: InFile<NodeId>) -> CtxId {
        self.behind.context(node)
    }

    fn crate_root(&self, context: CtxId) -> Option<CrateId> {
        self.behind.crate_root(context)
    }

    fn context_parent(&self, context: CtxId) -> CtxId {
        self.behind.context_parent(context)
    }

    fn opaque(&self, context: CtxId) -> HygieneId {
        self.behind.opaque(context)
    }

    fn outer_macro(&self, context: CtxId) -> Option<OuterMacro> {
        self.behind.outer_macro(context)
    }

    fn block(&self, node: InFile<NodeId>, inside: ModuleId) -> Option<(BlockId, ModuleId)> {
        self.behind.block(node, inside)
    }

    fn skip(&self, owner: DefWithBodyId) -> bool {
        self.behind.skip(owner)
    }

    fn container(&self, owner: DefWithBodyId) -> ItemContainerId {
        self.behind.container(owner)
    }

    fn module_of(&self, container: ItemContainerId) -> ModuleId {
        self.behind.module_of(container)
    }

    fn resolve(&self, inside: ModuleId, path: &ModPath, shadow: BuiltinShadowMode) -> Resolved {
        self.behind.resolve(inside, path, shadow)
    }

    fn alias(&self, id: TypeAliasId) -> Option<&AliasSignature> {
        self.behind.alias(id)
    }

    fn lang_items(&self) -> &LangItems {
        self.behind.lang_items()
    }

    fn new_range(&self, inside: ModuleId) -> bool {
        self.behind.new_range(inside)
    }

    fn expand(
        &self,
        node: InFile<NodeId>,
        call: &ast::MacroCall,
        inside: ModuleId,
        kind: FragmentKind,
    ) -> Expansion<'_> {
        match self.behind.expand(node, call, inside, kind) {
            Expansion::Expanded(file, root, _) => Expansion::Expanded(file, root, self.of(kind)),
            Expansion::Unresolved(path) => Expansion::Unresolved(path),
            Expansion::NoExpansion => Expansion::NoExpansion,
        }
    }

    fn macro_def(&self, inside: ModuleId, name: &Name) -> Option<MacroDefId> {
        self.behind.macro_def(inside, name)
    }

    fn legacy_macro(&self, inside: ModuleId, name: &Name, place: u32) -> Option<MacroDefId> {
        self.behind.legacy_macro(inside, name, place)
    }

    fn expansion_limit(&self) -> u32 {
        self.behind.expansion_limit()
    }

    fn hash_key(&self) -> u128 {
        self.behind.hash_key()
    }
}
