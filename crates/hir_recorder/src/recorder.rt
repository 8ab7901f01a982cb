//! The recorder.

ghost use Rattle.std.specs.Prelude.{◌≡◌};

use crate::asked::Asked;
use hir_alias::signature::AliasSignature;
use hir_base::node::{HirFileId, InFile, NodeId, PredId};
use hir_env::env::LowerEnv;
use hir_env::expand::{Expansion, FragmentKind, OuterMacro};
use hir_env::lang::LangItems;
use hir_env::resolved::{BuiltinShadowMode, Resolved};
use hir_store::ids::{
    BlockId, CfgId, CrateId, CtxId, DefWithBodyId, HygieneId, ItemContainerId, MacroDefId,
    ModuleId, TypeAliasId,
};
use hir_store::name::Name;
use hir_store::path::ModPath;
use hir_syntax::ast;
use std::alloc::{AllocError, Global};
use std::cell::{Cell, RefCell};

/// Answers as `inner`, and keeps each question in its order, with the answer. So whatever is lowered under it is lowered as under `inner`.
/// A question takes memory here; where that is refused, it is answered all the same, and the recorder has lost one.
pub struct Recorder<'a, E> {
    alloc: Global,
    inner: &'a E,
    log: RefCell<Vec<Asked>>,
    lost: Cell<bool>,
}

impl<'a, E> Recorder<'a, E> {
    /// One that was asked nothing.
    pub fn new(alloc: Global, inner: &'a E) -> Recorder<'a, E>
        ensures { result.inner.now ≡ inner.now }
    {
        Recorder {
            alloc,
            inner,
            log: RefCell::new(Vec::new(alloc)),
            lost: Cell::new(false),
        }
    }

    /// All that was asked, in its order; none where one of them was lost.
    pub fn into_asked(self) -> Option<Vec<Asked>> {
        let Recorder {
            alloc: _,
            inner: _,
            log,
            lost,
        } = self;
        let asked = log.into_inner();
        if lost.get() {
            drop(asked);
            None
        } else {
            Some(asked)
        }
    }

    fn track(&self, asked: Asked) {
        match self.log.try_borrow_mut() {
            Ok(mut log) => {
                if log.push(asked).is_err() {
                    self.lost.set(true);
                }
            }
            Err(_) => {
                drop(asked);
                self.lost.set(true);
            }
        }
    }

    fn track_if(&self, asked: Result<Asked, AllocError>) {
        match asked {
            Ok(asked) => self.track(asked),
            Err(_) => self.lost.set(true),
        }
    }
}

fn file_of(answer: Expansion<'_>) -> Option<HirFileId> {
    match answer {
        Expansion::Expanded(file, _, _) => Some(file),
        _ => None,
    }
}

/// The flags of an alias, one after another.
fn naming(
    alloc: Global,
    id: TypeAliasId,
    answer: Option<&AliasSignature>,
) -> Result<Asked, AllocError> {
    let mut flags = Vec::new(alloc);
    if let Some(alias) = answer {
        for named in alias.named() {
            flags.push(*named)?;
        }
    }
    Ok(Asked::Alias(id, flags))
}

fn resolving(
    inside: ModuleId,
    path: &ModPath,
    shadow: BuiltinShadowMode,
    answer: Resolved,
) -> Result<Asked, AllocError> {
    Ok(Asked::Resolve(inside, path.clone()?, shadow, answer))
}

fn defining(
    inside: ModuleId,
    name: &Name,
    answer: Option<MacroDefId>,
) -> Result<Asked, AllocError> {
    Ok(Asked::MacroDef(inside, name.clone()?, answer))
}

fn counting(
    inside: ModuleId,
    name: &Name,
    place: u32,
    answer: Option<MacroDefId>,
) -> Result<Asked, AllocError> {
    Ok(Asked::LegacyMacro(inside, name.clone()?, place, answer))
}

impl<'a, E: LowerEnv> LowerEnv for Recorder<'a, E> {
    ghost answers = { λ r. E.answers r.inner.now };

    fn cfg(&self, node: InFile<NodeId>) -> Result<(), CfgId> {
        let answer = self.inner.cfg(node);
        self.track(Asked::Cfg(node, answer));
        answer
    }

    fn cfg_pred(&self, pred: Option<PredId>) -> Option<bool> {
        let answer = self.inner.cfg_pred(pred);
        self.track(Asked::CfgPred(pred, answer));
        answer
    }

    fn hygiene(&self, node: InFile<NodeId>) -> HygieneId {
        let answer = self.inner.hygiene(node);
        self.track(Asked::Hygiene(node, answer));
        answer
    }

    fn context(&self, node: InFile<NodeId>) -> CtxId {
        let answer = self.inner.context(node);
        self.track(Asked::Context(node, answer));
        answer
    }

    fn crate_root(&self, context: CtxId) -> Option<CrateId> {
        let answer = self.inner.crate_root(context);
        self.track(Asked::CrateRoot(context, answer));
        answer
    }

    fn context_parent(&self, context: CtxId) -> CtxId {
        let answer = self.inner.context_parent(context);
        self.track(Asked::ContextParent(context, answer));
        answer
    }

    fn opaque(&self, context: CtxId) -> HygieneId {
        let answer = self.inner.opaque(context);
        self.track(Asked::Opaque(context, answer));
        answer
    }

    fn outer_macro(&self, context: CtxId) -> Option<OuterMacro> {
        let answer = self.inner.outer_macro(context);
        self.track(Asked::OuterMacro(context, answer));
        answer
    }

    fn block(&self, node: InFile<NodeId>, inside: ModuleId) -> Option<(BlockId, ModuleId)> {
        let answer = self.inner.block(node, inside);
        self.track(Asked::Block(node, inside, answer));
        answer
    }

    fn skip(&self, owner: DefWithBodyId) -> bool {
        let answer = self.inner.skip(owner);
        self.track(Asked::Skip(owner, answer));
        answer
    }

    fn container(&self, owner: DefWithBodyId) -> ItemContainerId {
        let answer = self.inner.container(owner);
        self.track(Asked::Container(owner, answer));
        answer
    }

    fn module_of(&self, container: ItemContainerId) -> ModuleId {
        let answer = self.inner.module_of(container);
        self.track(Asked::ModuleOf(container, answer));
        answer
    }

    fn resolve(&self, inside: ModuleId, path: &ModPath, shadow: BuiltinShadowMode) -> Resolved {
        let answer = self.inner.resolve(inside, path, shadow);
        self.track_if(resolving(inside, path, shadow, answer));
        answer
    }

    fn alias(&self, id: TypeAliasId) -> Option<&AliasSignature> {
        let answer = self.inner.alias(id);
        self.track_if(naming(self.alloc, id, answer));
        answer
    }

    fn lang_items(&self) -> &LangItems {
        let answer = self.inner.lang_items();
        self.track(Asked::LangItems(*answer));
        answer
    }

    fn new_range(&self, inside: ModuleId) -> bool {
        let answer = self.inner.new_range(inside);
        self.track(Asked::NewRange(inside, answer));
        answer
    }

    fn expand(
        &self,
        node: InFile<NodeId>,
        call: &ast::MacroCall,
        inside: ModuleId,
        kind: FragmentKind,
    ) -> Expansion<'_> {
        let answer = self.inner.expand(node, call, inside, kind);
        self.track(Asked::Expand(node, inside, kind, file_of(answer)));
        answer
    }

    fn macro_def(&self, inside: ModuleId, name: &Name) -> Option<MacroDefId> {
        let answer = self.inner.macro_def(inside, name);
        self.track_if(defining(inside, name, answer));
        answer
    }

    fn legacy_macro(&self, inside: ModuleId, name: &Name, place: u32) -> Option<MacroDefId> {
        let answer = self.inner.legacy_macro(inside, name, place);
        self.track_if(counting(inside, name, place, answer));
        answer
    }

    fn expansion_limit(&self) -> u32 {
        let answer = self.inner.expansion_limit();
        self.track(Asked::ExpansionLimit(answer));
        answer
    }

    fn hash_key(&self) -> u128 {
        self.inner.hash_key()
    }
}
