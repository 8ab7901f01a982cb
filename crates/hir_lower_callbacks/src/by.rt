//! What lowers the parts of a form by what does all of it in one trait.

use crate::lower_callbacks::LowerCallbacks;
use hir_alias::signature::AliasSignature;
use hir_base::node::{InFile, NodeId, PredId};
use hir_env::ctx::LowerCtx;
use hir_env::expand::{Expansion, FragmentKind};
use hir_env::lang::LangItems;
use hir_env::resolved::{BuiltinShadowMode, Resolved};
use hir_lower_bind::targets::lower_target;
use hir_lower_bind::top::top_pat;
use hir_lower_builder::builder::StoredBody;
use hir_lower_builder::parts::{BlockRole, LowerAll, LowerExprs, LowerParts, Lowerer};
use hir_lower_builder::walk::{PathWalk, Reading};
use hir_lower_scope::labels::NoTarget;
use hir_lower_scope::stacks::LabelStacks;
use hir_store::builder::ExpressionStoreBuilder;
use hir_store::error::StoreError;
use hir_store::ids::{CfgId, CrateId, ExprId, HygieneId, LabelId, MacroDefId, PatId, TypeRefId};
use hir_store::name::Name;
use hir_store::path::{GenericArgs, ModPath};
use hir_store::type_ref::ConstRef;
use hir_syntax::{Boxed, Seq, ast};
use std::alloc::Global;

/// What lowers the parts of a form, by what handles them.
///
/// A form wants three traits of what it is handed, and each of these would owe by itself what the functions owe that handlers hold. Over
/// a type parameter nothing is owed.
#[derive(Clone, Copy)]
pub struct ViaCallbacks<H> {
    pub alloc: Global,
    pub by: H,
}

impl<H: LowerCallbacks> LowerParts for ViaCallbacks<H> {
    ghost can = { λ it. H.can it.by };

    ghost rctx = { λ it. H.rctx it.by };

    ghost pat_kids = { λ it. H.pat_kids it.by };

    ghost target_kids = { λ it. H.target_kids it.by };

    ghost target_place = { λ it. H.target_place it.by };

    ghost call_kids = { λ it. H.call_kids it.by };

    ghost pat_call_kids = { λ it. H.pat_call_kids it.by };

    ghost target_call_kids = { λ it. H.target_call_kids it.by };

    ghost type_call_kids = { λ it. H.type_call_kids it.by };

    ghost splice_kids = { λ it. H.splice_kids it.by };

    fn moved(&self, place: LowerCtx) -> Self {
        ViaCallbacks {
            alloc: self.alloc,
            by: self.by.moved(place),
        }
    }

    fn place(&self) -> LowerCtx {
        self.by.place()
    }

    fn cfg(&self, node: InFile<NodeId>) -> Result<(), CfgId> {
        self.by.cfg(node)
    }

    fn cfg_pred(&self, pred: Option<PredId>) -> Option<bool> {
        self.by.cfg_pred(pred)
    }

    fn hygiene(&self, node: InFile<NodeId>) -> HygieneId {
        self.by.hygiene(node)
    }

    fn crate_root(&self, name: InFile<NodeId>) -> Option<CrateId> {
        self.by.crate_root(name)
    }

    fn local_root(&self, node: InFile<NodeId>) -> Option<Option<CrateId>> {
        self.by.local_root(node)
    }

    fn resolve(&self, path: &ModPath, shadow: BuiltinShadowMode) -> Resolved {
        self.by.resolve(path, shadow)
    }

    fn alias(&self, place: LowerCtx, path: &ModPath) -> Option<Option<&AliasSignature>> {
        self.by.alias(place, path)
    }

    fn expand(
        &self,
        node: InFile<NodeId>,
        call: &ast::MacroCall,
        kind: FragmentKind,
    ) -> Expansion<'_> {
        self.by.expand(node, call, kind)
    }

    fn macro_def(&self, name: &Name) -> Option<MacroDefId> {
        self.by.macro_def(name)
    }

    fn legacy_macro(&self, name: &Name, before: u32) -> Option<MacroDefId> {
        self.by.legacy_macro(name, before)
    }

    fn lang_items(&self) -> &LangItems {
        self.by.lang_items()
    }

    fn new_range(&self) -> bool {
        self.by.new_range()
    }

    fn find_label(
        &self,
        scopes: &LabelStacks,
        name: &Name,
        hygiene: HygieneId,
    ) -> Result<LabelId, NoTarget> {
        self.by.find_label(scopes, name, hygiene)
    }
}

impl<H: LowerCallbacks> LowerExprs<ExpressionStoreBuilder> for ViaCallbacks<H> {
    fn maybe_collect_expr(
        &self,
        state: &mut StoredBody,
        node: &ast::Expr,
    ) -> Result<Option<ExprId>, StoreError> {
        self.by.maybe_collect_expr(state, node)
    }

    fn maybe_collect_expr_inside(
        &self,
        state: &mut StoredBody,
        place: LowerCtx,
        node: &ast::Expr,
    ) -> Result<Option<ExprId>, StoreError> {
        self.by.maybe_collect_expr_inside(state, place, node)
    }

    fn collect_block_inside(
        &self,
        state: &mut StoredBody,
        place: LowerCtx,
        role: BlockRole,
        node: &ast::BlockExpr,
    ) -> Result<ExprId, StoreError> {
        self.by.collect_block_inside(state, place, role, node)
    }

    fn read_path(
        &self,
        state: &mut StoredBody,
        place: LowerCtx,
        walk: PathWalk,
        alone: bool,
        node: &ast::Path,
    ) -> Result<Reading, StoreError> {
        self.by.read_path(state, place, walk, alone, node)
    }

    fn lower_type(
        &self,
        state: &mut StoredBody,
        place: LowerCtx,
        binder: &Option<Seq<Name>>,
        node: &ast::Type_,
    ) -> Result<TypeRefId, StoreError> {
        self.by.lower_type(state, place, binder, node)
    }

    fn lower_args(
        &self,
        state: &mut StoredBody,
        place: LowerCtx,
        node: &ast::GenericArgList,
    ) -> Result<Option<GenericArgs>, StoreError> {
        self.by.lower_args(state, place, node)
    }

    fn collect_constant(
        &self,
        state: &mut StoredBody,
        place: LowerCtx,
        expr: &Option<Boxed<ast::Expr>>,
    ) -> Result<ConstRef, StoreError> {
        self.by.collect_constant(state, place, expr)
    }
}

impl<H: LowerCallbacks> LowerAll<ExpressionStoreBuilder> for ViaCallbacks<H> {
    fn top_pat(
        &self,
        state: &mut StoredBody,
        part: &Option<Boxed<ast::Pat>>,
    ) -> Result<PatId, StoreError> {
        let lowerer = Lowerer {
            alloc: self.alloc,
            parts: ViaCallbacks {
                alloc: self.alloc,
                by: self.by,
            },
        };
        top_pat(&lowerer, state, part)
    }

    fn lower_target(
        &self,
        state: &mut StoredBody,
        part: &Option<Boxed<ast::Expr>>,
    ) -> Result<PatId, StoreError> {
        let lowerer = Lowerer {
            alloc: self.alloc,
            parts: ViaCallbacks {
                alloc: self.alloc,
                by: self.by,
            },
        };
        lower_target(&lowerer, state, part)
    }
}
