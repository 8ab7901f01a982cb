//! What lowers the parts of a form, of functions that are handed in.

ghost use Rattle.hir_lower_builder.proofs.Inside.{call_nests, pat_call_nests, target_call_nests, type_call_nests};
ghost use Rattle.hir_lower_builder.proofs.Runs.{splice_nests};
ghost use Rattle.hir_lower_pat.proofs.Nested.{pat_nests, target_is_place, target_nests};
ghost use Rattle.hir_lower_callbacks.specs.Nests.{Handled, HandlesExpr, HandlesPath, HandlesType};
ghost use Rattle.hir_lower_callbacks.specs.ResolveCtxs.{with_all_items, rctx_at};

use crate::aliases::alias_named;
use crate::constant::constant_form;
use crate::lower_callbacks::LowerCallbacks;
use hir_alias::signature::AliasSignature;
use hir_base::node::{InFile, NodeId, PredId};
use hir_env::ctx::{LowerCtx, inside_constant};
use hir_env::env::LowerEnv;
use hir_env::expand::{Expansion, FragmentKind};
use hir_env::lang::LangItems;
use hir_env::resolved::{BuiltinShadowMode, Resolved};
use hir_lower_builder::builder::StoredBody;
use hir_lower_builder::parts::BlockRole;
use hir_lower_builder::walk::{PathWalk, Reading};
use hir_lower_scope::labels::NoTarget;
use hir_lower_scope::stacks::LabelStacks;
use hir_store::error::StoreError;
use hir_store::ids::{CfgId, CrateId, ExprId, HygieneId, LabelId, MacroDefId, TypeRefId};
use hir_store::name::Name;
use hir_store::path::{GenericArgs, ModPath};
use hir_store::type_ref::ConstRef;
use hir_syntax::{Boxed, Seq, ast};
use std::alloc::Global;

/// The functions that lower the parts of a form, at one place.
#[derive_where(Clone, Copy; F, B, Q, T, G)]
pub struct Callbacks<'e, E, F, B, Q, T, G> {
    pub alloc: Global,
    pub env: &'e E,
    pub place: LowerCtx,
    pub expr: F,
    pub block: B,
    pub path: Q,
    pub type_ref: T,
    pub args: G,
}

impl<
    'e,
    E: LowerEnv,
    F: Copy
        + Fn(
            Global,
            &E,
            LowerCtx,
            &mut StoredBody,
            &ast::Expr,
        ) -> Result<Option<ExprId>, StoreError>,
    B: Copy
        + Fn(
            Global,
            &E,
            LowerCtx,
            &mut StoredBody,
            BlockRole,
            &ast::BlockExpr,
        ) -> Result<ExprId, StoreError>,
    Q: Copy
        + Fn(
            Global,
            &E,
            LowerCtx,
            &mut StoredBody,
            PathWalk,
            bool,
            &ast::Path,
        ) -> Result<Reading, StoreError>,
    T: Copy
        + Fn(
            Global,
            &E,
            LowerCtx,
            &mut StoredBody,
            &Option<Seq<Name>>,
            &ast::Type_,
        ) -> Result<TypeRefId, StoreError>,
    G: Copy
        + Fn(
            Global,
            &E,
            LowerCtx,
            &mut StoredBody,
            &ast::GenericArgList,
        ) -> Result<Option<GenericArgs>, StoreError>,
> LowerCallbacks for Callbacks<'e, E, F, B, Q, T, G> {
    ghost can = { λ it. Handled E.answers (F.pre it.expr) (F.post it.expr) (B.pre it.block) (B.post it.block)
        (Q.pre it.path) (Q.post it.path) (T.pre it.type_ref) (T.post it.type_ref) (G.pre it.args) (G.post it.args) it.env.now it.place };

    ghost pat_kids = { λ it. pat_nests (with_all_items (E.answers it.env.now))
        (HandlesPath E.answers (Q.pre it.path) (Q.post it.path) it.env.now) };

    ghost target_kids = { λ it. target_nests
        (Handled E.answers (F.pre it.expr) (F.post it.expr) (B.pre it.block) (B.post it.block)
        (Q.pre it.path) (Q.post it.path) (T.pre it.type_ref) (T.post it.type_ref) (G.pre it.args) (G.post it.args) it.env.now it.place)
        (with_all_items (E.answers it.env.now)) (HandlesExpr E.answers (F.pre it.expr) (F.post it.expr) it.env.now)
        (HandlesPath E.answers (Q.pre it.path) (Q.post it.path) it.env.now) };

    ghost target_place = { λ it. target_is_place (with_all_items (E.answers it.env.now))
        (HandlesExpr E.answers (F.pre it.expr) (F.post it.expr) it.env.now)
        (HandlesPath E.answers (Q.pre it.path) (Q.post it.path) it.env.now) it.place };

    ghost call_kids = { λ it. call_nests (with_all_items (E.answers it.env.now))
        (HandlesExpr E.answers (F.pre it.expr) (F.post it.expr) it.env.now) it.place };

    ghost pat_call_kids = { λ it. pat_call_nests (with_all_items (E.answers it.env.now))
        (HandlesPath E.answers (Q.pre it.path) (Q.post it.path) it.env.now) it.place };

    ghost target_call_kids = { λ it. target_call_nests (with_all_items (E.answers it.env.now))
        (HandlesExpr E.answers (F.pre it.expr) (F.post it.expr) it.env.now)
        (HandlesPath E.answers (Q.pre it.path) (Q.post it.path) it.env.now) it.place };

    ghost type_call_kids = { λ it. type_call_nests (with_all_items (E.answers it.env.now))
        (HandlesType E.answers (T.pre it.type_ref) (T.post it.type_ref) it.env.now) it.place };

    ghost splice_kids = { λ it. splice_nests (with_all_items (E.answers it.env.now))
        (Handled E.answers (F.pre it.expr) (F.post it.expr) (B.pre it.block) (B.post it.block)
        (Q.pre it.path) (Q.post it.path) (T.pre it.type_ref) (T.post it.type_ref) (G.pre it.args) (G.post it.args) it.env.now it.place)
        (λ p x paths. paths) (λ p e kids. kids) it.place };

    ghost rctx = { λ it. rctx_at (E.answers it.env.now) it.place };

    fn moved(&self, place: LowerCtx) -> Self {
        Callbacks { place, ..*self }
    }

    fn place(&self) -> LowerCtx {
        self.place
    }

    fn cfg(&self, node: InFile<NodeId>) -> Result<(), CfgId> {
        self.env.cfg(node)
    }

    fn cfg_pred(&self, pred: Option<PredId>) -> Option<bool> {
        self.env.cfg_pred(pred)
    }

    fn hygiene(&self, node: InFile<NodeId>) -> HygieneId {
        self.env.hygiene(node)
    }

    fn crate_root(&self, name: InFile<NodeId>) -> Option<CrateId> {
        self.env.crate_root(self.env.context(name))
    }

    fn local_root(&self, node: InFile<NodeId>) -> Option<Option<CrateId>> {
        let context = self.env.context(node);
        match self.env.outer_macro(context) {
            Some(outer) if outer.local_inner => Some(self.env.crate_root(context)),
            _ => None,
        }
    }

    fn resolve(&self, path: &ModPath, shadow: BuiltinShadowMode) -> Resolved {
        self.env.resolve(self.place.module_id, path, shadow)
    }

    fn alias(&self, place: LowerCtx, path: &ModPath) -> Option<Option<&AliasSignature>> {
        alias_named(self.env, place, path)
    }

    fn expand(
        &self,
        node: InFile<NodeId>,
        call: &ast::MacroCall,
        kind: FragmentKind,
    ) -> Expansion<'_> {
        self.env.expand(node, call, self.place.module_id, kind)
    }

    fn macro_def(&self, name: &Name) -> Option<MacroDefId> {
        self.env.macro_def(self.place.module_id, name)
    }

    fn legacy_macro(&self, name: &Name, before: u32) -> Option<MacroDefId> {
        self.env.legacy_macro(self.place.module_id, name, before)
    }

    fn lang_items(&self) -> &LangItems {
        self.env.lang_items()
    }

    fn new_range(&self) -> bool {
        self.env.new_range(self.place.module_id)
    }

    fn find_label(
        &self,
        scopes: &LabelStacks,
        name: &Name,
        hygiene: HygieneId,
    ) -> Result<LabelId, NoTarget> {
        scopes.find(self.env, name, hygiene)
    }

    fn maybe_collect_expr(
        &self,
        state: &mut StoredBody,
        node: &ast::Expr,
    ) -> Result<Option<ExprId>, StoreError> {
        (self.expr)(self.alloc, self.env, self.place, state, node)
    }

    fn maybe_collect_expr_inside(
        &self,
        state: &mut StoredBody,
        place: LowerCtx,
        node: &ast::Expr,
    ) -> Result<Option<ExprId>, StoreError> {
        (self.expr)(self.alloc, self.env, place, state, node)
    }

    fn collect_block_inside(
        &self,
        state: &mut StoredBody,
        place: LowerCtx,
        role: BlockRole,
        node: &ast::BlockExpr,
    ) -> Result<ExprId, StoreError> {
        (self.block)(self.alloc, self.env, place, state, role, node)
    }

    fn read_path(
        &self,
        state: &mut StoredBody,
        place: LowerCtx,
        walk: PathWalk,
        alone: bool,
        node: &ast::Path,
    ) -> Result<Reading, StoreError> {
        (self.path)(self.alloc, self.env, place, state, walk, alone, node)
    }

    fn lower_type(
        &self,
        state: &mut StoredBody,
        place: LowerCtx,
        binder: &Option<Seq<Name>>,
        node: &ast::Type_,
    ) -> Result<TypeRefId, StoreError> {
        (self.type_ref)(self.alloc, self.env, place, state, binder, node)
    }

    fn lower_args(
        &self,
        state: &mut StoredBody,
        place: LowerCtx,
        node: &ast::GenericArgList,
    ) -> Result<Option<GenericArgs>, StoreError> {
        (self.args)(self.alloc, self.env, place, state, node)
    }

    fn collect_constant(
        &self,
        state: &mut StoredBody,
        place: LowerCtx,
        expr: &Option<Boxed<ast::Expr>>,
    ) -> Result<ConstRef, StoreError> {
        constant_form(
            self.alloc,
            self.env,
            inside_constant(place),
            state,
            &self.expr,
            expr,
        )
    }
}
