//! What a form needs: the questions, and what lowers its parts. Both are parameters, so that each form is proved by
//! itself.

ghost use Rattle.std.specs.Prelude.{◌≡◌, option_copied, option_map};
ghost use Rattle.hir_env.specs.ResolvedTree as tree;
ghost use Rattle.hir_env.specs.Lent.{expanding_of};
ghost use Rattle.hir_env.specs.LocalPaths.{local_root};
ghost use Rattle.hir_env.specs.Paths.{alias_named, flags_of};
ghost use Rattle.hir_env.specs.ResolveCtx.{ResolveCtx, in_file, ptr, site_of};
ghost use Rattle.hir_env.specs.Whole.{resolved_expr, resolved_arg_list, resolved_path_as, resolved_plain, resolved_type};
ghost use Rattle.hir_env.specs.Whole.{block_part, expr_part, pat_part, pointer_at, target_part};
ghost use Rattle.hir_lower_scope.specs.ScopeRibs.{search, sought_first};
ghost use Rattle.hir_lower_scope.specs.Labels.{answer};
ghost use Rattle.hir_lower_builder.specs.Nests.{CallsNest, Claims, IfPresent, Moved, PatCallsNest, PatsNest, SplicesNest, TargetsArePlaces};
ghost use Rattle.hir_lower_builder.specs.Nests.{TargetCallsNest, TargetsNest, TypeCallsNest};
ghost use Rattle.hir_lower_builder.specs.Methods.{HasRole, LowersBlock, LowersBlockOpt, LowersExpr, LowersExprOpt, LowersIfPresent};
ghost use Rattle.hir_lower_builder.specs.Methods.{LowersInside, LowersTarget, LowersTop, MaybeLowersExpr, MaybeLowersExprOpt};
ghost use Rattle.hir_lower_builder.specs.Methods.{HasWalk, LowersArgs, LowersConstant, LowersType, ReadsPath, at_place, constant_at};

use crate::builder::BodyBuilder;
use crate::store_sink::StoreSink;
use crate::walk::{PathWalk, Reading};
use hir_alias::signature::AliasSignature;
use hir_base::node::{AstPtr, InFile, NodeId, PredId, TextRange};
use hir_env::ctx::LowerCtx;
use hir_env::expand::{Expansion, FragmentKind};
use hir_env::lang::LangItems;
use hir_env::resolved::{BuiltinShadowMode, Resolved};
use hir_lower_scope::labels::NoTarget;
use hir_lower_scope::stacks::LabelStacks;
use hir_store::error::StoreError;
use hir_store::hir::CoroutineKind;
use hir_store::ids::{
    CfgId, CrateId, ExprId, HygieneId, LabelId, LangItemId, MacroDefId, PatId, TypeRefId,
};
use hir_store::name::Name;
use hir_store::path::{GenericArgs, ModPath};
use hir_store::type_ref::ConstRef;
use hir_syntax::{Boxed, Seq, ast};
use std::alloc::Global;

/// What a block is lowered as. It has no label of its own any more: that is open already, except for the one that a `try` gets.
#[derive(Clone, Copy)]
pub enum BlockRole {
    /// A block that is unsafe or isn't, inside the label of this number.
    Plain {
        is_unsafe: bool,
        label: Option<LabelId>,
    },
    /// The block of a `try`, whose value goes through the item, and whose type is written or isn't.
    Try {
        item: Option<LangItemId>,
        typed: bool,
    },
    /// The block of a coroutine, behind which `move` stands or doesn't.
    Coroutine {
        kind: CoroutineKind,
        moves: bool,
    },
}

/// Which parts of a form may be lowered at one place, and what is answered there.
pub trait LowerParts: Copy {
    /// The nodes that may be handed in.
    ghost can: { Self → Claims };
    /// Where the parts are read.
    ghost rctx: { Self → ResolveCtx };

    /// The same, at this place.
    fn moved(&self, place: LowerCtx) -> Self
        ensures rctx { rctx result ≡ at_place (rctx self.now) place }
        ensures can { Moved (can self.now) (can result) place };

    /// Where the parts are read.
    fn place(&self) -> LowerCtx
        ensures { result ≡ (rctx self.now).place };

    /// Whether the node is enabled, or else the condition that disables it.
    fn cfg(&self, node: InFile<NodeId>) -> Result<(), CfgId>
        ensures { result ≡ (rctx self.now).answers.cfg node };

    /// Whether the predicate holds, where that is decided.
    fn cfg_pred(&self, pred: Option<PredId>) -> Option<bool>
        ensures { result ≡ (rctx self.now).answers.cfg_pred pred };

    /// The hygiene of the name at the node.
    fn hygiene(&self, node: InFile<NodeId>) -> HygieneId
        ensures { result ≡ (rctx self.now).answers.hygiene node };

    /// The root of the crate that `$crate` at the name stands for.
    fn crate_root(&self, name: InFile<NodeId>) -> Option<CrateId>
        ensures { let answers = (rctx self.now).answers in result ≡ answers.crate_root (answers.context name) };

    /// The root of the crate at the node, where the macro that the node came from is local to its crate.
    fn local_root(&self, node: InFile<NodeId>) -> Option<Option<CrateId>>
        ensures { let answers = (rctx self.now).answers in result ≡ local_root answers (answers.context node) };

    /// What the path stands for.
    fn resolve(&self, path: &ModPath, shadow: BuiltinShadowMode) -> Resolved
        ensures { let at = rctx self.now in result ≡ at.answers.resolve at.place.module_id path.now shadow };

    /// The alias that a path of these names stands for at this place, where that is in an argument; none of it where it isn't known.
    fn alias(&self, place: LowerCtx, path: &ModPath) -> Option<Option<&AliasSignature>>
        ensures { option_map (λ alias. flags_of (option_copied alias)) result ≡ alias_named (rctx self.now).answers place path.now };

    /// What the macro call at the node is expanded to, as a fragment of this kind.
    fn expand(
        &self,
        node: InFile<NodeId>,
        call: &ast::MacroCall,
        kind: FragmentKind,
    ) -> Expansion<'_>
        ensures { let at = rctx self.now in expanding_of result ≡ at.answers.expand node call.now at.place.module_id kind };

    /// The definition of the macro of this name, which isn't by `macro_rules`.
    fn macro_def(&self, name: &Name) -> Option<MacroDefId>
        ensures { let at = rctx self.now in result ≡ at.answers.macro_def at.place.module_id name.now };

    /// The definition by `macro_rules` that so many of its name stand before in a block.
    fn legacy_macro(&self, name: &Name, before: u32) -> Option<MacroDefId>
        ensures { let at = rctx self.now in result ≡ at.answers.legacy_macro at.place.module_id name.now before };

    /// The items that the language itself names.
    fn lang_items(&self) -> &LangItems
        ensures { result.now ≡ (rctx self.now).answers.lang_items };

    /// Whether ranges are made as the newer items.
    fn new_range(&self) -> bool
        ensures { let at = rctx self.now in result ≡ at.answers.new_range at.place.module_id };

    /// The label that a jump of this name and this hygiene is for. It asks about contexts.
    fn find_label(
        &self,
        scopes: &LabelStacks,
        name: &Name,
        hygiene: HygieneId,
    ) -> Result<LabelId, NoTarget>
        ensures { result ≡ answer (search (rctx self.now).answers.contexts name.now (sought_first hygiene) scopes.now) };

    /// What is in a pattern that may be handed in may be handed in, too.
    ghost pat_kids: { PatsNest can };

    /// The same of the assignee expression, which may be handed in as an expression, too.
    ghost target_kids: { TargetsNest can };

    ghost target_place: { TargetsArePlaces can rctx };

    /// What a call that may be entered stands for may be handed in where it is entered.
    ghost call_kids: { CallsNest can rctx };

    ghost pat_call_kids: { PatCallsNest can rctx };

    ghost target_call_kids: { TargetCallsNest can rctx };

    ghost type_call_kids: { TypeCallsNest can rctx };

    ghost splice_kids: { SplicesNest can rctx };
}

/// What lowers the parts of a form into a store.
pub trait LowerExprs<I: StoreSink>: LowerParts {
    /// The expression, none where a condition disables it.
    fn maybe_collect_expr(
        &self,
        state: &mut BodyBuilder<I>,
        node: &ast::Expr,
    ) -> Result<Option<ExprId>, StoreError>
        requires { (Self.can self.now).expr node.now }
        ensures { MaybeLowersExpr (resolved_expr (Self.rctx self.now) node.now) state.old result state.new };

    /// The same, read at this place.
    fn maybe_collect_expr_inside(
        &self,
        state: &mut BodyBuilder<I>,
        place: LowerCtx,
        node: &ast::Expr,
    ) -> Result<Option<ExprId>, StoreError>
        requires { (Self.can self.now).inner place node.now }
        ensures { MaybeLowersExpr (resolved_expr (at_place (Self.rctx self.now) place) node.now) state.old result state.new };

    /// The block, read at this place, as one of this role.
    fn collect_block_inside(
        &self,
        state: &mut BodyBuilder<I>,
        place: LowerCtx,
        role: BlockRole,
        node: &ast::BlockExpr,
    ) -> Result<ExprId, StoreError>
        requires part { (Self.can self.now).block place node.now }
        requires role { HasRole state.old.stored role }
        ensures { LowersInside role (resolved_plain (at_place (Self.rctx self.now) place) node.now) state.old result state.new };

    /// Goes on with the segments of the path, at this place, and then with those of the use tree around it. It is read alone, or is
    /// itself the use tree around another path.
    fn read_path(
        &self,
        state: &mut BodyBuilder<I>,
        place: LowerCtx,
        walk: PathWalk,
        alone: bool,
        node: &ast::Path,
    ) -> Result<Reading, StoreError>
        requires part { (Self.can self.now).path place node.now }
        requires walk { HasWalk state.old.stored walk }
        ensures { ReadsPath (resolved_path_as alone (at_place (Self.rctx self.now) place) node.now) walk state.old result state.new };

    /// The type, read at this place, with the lifetimes of the `for<..>` directly around it, where one stands there.
    fn lower_type(
        &self,
        state: &mut BodyBuilder<I>,
        place: LowerCtx,
        binder: &Option<Seq<Name>>,
        node: &ast::Type_,
    ) -> Result<TypeRefId, StoreError>
        requires { (Self.can self.now).type_ place node.now }
        ensures { LowersType binder.now (resolved_type (at_place (Self.rctx self.now) place) node.now) state.old result state.new };

    /// The arguments, read at this place, or none where the list yields nothing.
    fn lower_args(
        &self,
        state: &mut BodyBuilder<I>,
        place: LowerCtx,
        node: &ast::GenericArgList,
    ) -> Result<Option<GenericArgs>, StoreError>
        requires { (Self.can self.now).args place node.now }
        ensures { LowersArgs (tree.some_arg_list (resolved_arg_list (at_place (Self.rctx self.now) place) node.now))
            state.old result state.new };

    /// The constant with this expression, written at this place. A disabled or absent expression is missing.
    fn collect_constant(
        &self,
        state: &mut BodyBuilder<I>,
        place: LowerCtx,
        expr: &Option<Boxed<ast::Expr>>,
    ) -> Result<ConstRef, StoreError>
        requires { (Self.can self.now).constant place expr.now }
        ensures { LowersConstant (constant_at (at_place (Self.rctx self.now) place) expr.now) state.old result state.new };
}

/// What lowers all parts of an expression into a store.
pub trait LowerAll<I: StoreSink>: LowerExprs<I> {
    /// A whole pattern, missing where it is absent. Each name of it gets one binding, and this the problem that it shows.
    fn top_pat(
        &self,
        state: &mut BodyBuilder<I>,
        part: &Option<Boxed<ast::Pat>>,
    ) -> Result<PatId, StoreError>
        requires { IfPresent ((Self.can self.now).pat (Self.rctx self.now).place) part.now }
        ensures { LowersTop (pat_part (Self.rctx self.now) part.now) state.old result state.new };

    /// The assignee expression, missing where it is absent.
    fn lower_target(
        &self,
        state: &mut BodyBuilder<I>,
        part: &Option<Boxed<ast::Expr>>,
    ) -> Result<PatId, StoreError>
        requires { IfPresent ((Self.can self.now).target (Self.rctx self.now).place) part.now }
        ensures { LowersTarget (target_part (Self.rctx self.now) part.now) state.old result state.new };
}

/// The node that a pointer leads to, as it is asked about.
pub fn site(pointer: InFile<AstPtr>) -> InFile<NodeId>
    ensures { result ≡ site_of pointer }
{
    InFile {
        file_id: pointer.file_id,
        value: pointer.value.node,
    }
}

/// A node of the file of a place.
pub fn pointer_in(place: LowerCtx, node: NodeId, range: TextRange) -> InFile<AstPtr>
    ensures { result ≡ in_file place (ptr node range) }
{
    InFile {
        file_id: place.file_id,
        value: AstPtr { node, range },
    }
}

/// What each form is handed: the allocator, and what lowers its parts.
#[derive(Clone, Copy)]
pub struct Lowerer<P> {
    pub alloc: Global,
    pub parts: P,
}

impl<P: LowerParts> Lowerer<P> {
    /// The same, whose parts are read at this place.
    pub fn moved(&self, place: LowerCtx) -> Lowerer<P>
        ensures rctx { P.rctx result.parts ≡ at_place (P.rctx self.now.parts) place }
        ensures can { Moved (P.can self.now.parts) (P.can result.parts) place }
    {
        Lowerer {
            alloc: self.alloc,
            parts: self.parts.moved(place),
        }
    }

    /// A node of the file that the parts are read in.
    pub fn pointer(&self, node: NodeId, range: TextRange) -> InFile<AstPtr>
        ensures { result ≡ pointer_at (P.rctx self.now.parts) node range }
    {
        pointer_in(self.parts.place(), node, range)
    }

    /// The expression, missing where a condition disables it.
    #[tactic(auto, using(crate::proofs::Kept::lower_on))]
    pub fn collect_expr<I: StoreSink>(
        &self,
        state: &mut BodyBuilder<I>,
        node: &ast::Expr,
    ) -> Result<ExprId, StoreError>
    where
        P: LowerExprs<I>,
        requires { (P.can self.now.parts).expr node.now }
        ensures { LowersExpr (resolved_expr (P.rctx self.now.parts) node.now) state.old result state.new }
    {
        match self.parts.maybe_collect_expr(state, node)? {
            Some(id) => Ok(id),
            None => state.missing_expr(),
        }
    }

    /// The expression, missing where it is absent or a condition disables it.
    pub fn collect_expr_opt<I: StoreSink>(
        &self,
        state: &mut BodyBuilder<I>,
        part: &Option<Boxed<ast::Expr>>,
    ) -> Result<ExprId, StoreError>
    where
        P: LowerExprs<I>,
        requires { IfPresent (P.can self.now.parts).expr part.now }
        ensures { LowersExprOpt (expr_part (P.rctx self.now.parts) part.now) state.old result state.new }
    {
        match part {
            None => state.missing_expr(),
            Some(part) => self.collect_expr(state, part.get()),
        }
    }

    /// The expression, read at this place, missing where a condition disables it.
    #[tactic(auto, using(crate::proofs::Kept::lower_on))]
    fn collect_expr_inside<I: StoreSink>(
        &self,
        state: &mut BodyBuilder<I>,
        place: LowerCtx,
        node: &ast::Expr,
    ) -> Result<ExprId, StoreError>
    where
        P: LowerExprs<I>,
        requires { (P.can self.now.parts).inner place node.now }
        ensures { LowersExpr (resolved_expr (at_place (P.rctx self.now.parts) place) node.now) state.old result state.new }
    {
        match self.parts.maybe_collect_expr_inside(state, place, node)? {
            Some(id) => Ok(id),
            None => state.missing_expr(),
        }
    }

    /// The expression, read at this place, missing where it is absent or a condition disables it.
    pub fn collect_expr_opt_inside<I: StoreSink>(
        &self,
        state: &mut BodyBuilder<I>,
        place: LowerCtx,
        part: &Option<Boxed<ast::Expr>>,
    ) -> Result<ExprId, StoreError>
    where
        P: LowerExprs<I>,
        requires { IfPresent ((P.can self.now.parts).inner place) part.now }
        ensures { LowersExprOpt (expr_part (at_place (P.rctx self.now.parts) place) part.now) state.old result state.new }
    {
        match part {
            None => state.missing_expr(),
            Some(part) => self.collect_expr_inside(state, place, part.get()),
        }
    }

    /// The expression, none where it is absent, and missing where a condition disables it.
    pub fn collect_expr_if_present<I: StoreSink>(
        &self,
        state: &mut BodyBuilder<I>,
        part: &Option<Boxed<ast::Expr>>,
    ) -> Result<Option<ExprId>, StoreError>
    where
        P: LowerExprs<I>,
        requires { IfPresent (P.can self.now.parts).expr part.now }
        ensures { LowersIfPresent (expr_part (P.rctx self.now.parts) part.now) state.old result state.new }
    {
        match part {
            None => Ok(None),
            Some(part) => Ok(Some(self.collect_expr(state, part.get())?)),
        }
    }

    /// The expression, none where it is absent or a condition disables it.
    pub fn maybe_collect_expr_opt<I: StoreSink>(
        &self,
        state: &mut BodyBuilder<I>,
        part: &Option<Boxed<ast::Expr>>,
    ) -> Result<Option<ExprId>, StoreError>
    where
        P: LowerExprs<I>,
        requires { IfPresent (P.can self.now.parts).expr part.now }
        ensures { MaybeLowersExprOpt (expr_part (P.rctx self.now.parts) part.now) state.old result state.new }
    {
        match part {
            None => Ok(None),
            Some(part) => self.parts.maybe_collect_expr(state, part.get()),
        }
    }

    /// A block in a place where only a block may stand, so that neither a label nor a modifier of its own counts.
    pub fn collect_block<I: StoreSink>(
        &self,
        state: &mut BodyBuilder<I>,
        node: &ast::BlockExpr,
    ) -> Result<ExprId, StoreError>
    where
        P: LowerExprs<I>,
        requires { (P.can self.now.parts).block (P.rctx self.now.parts).place node.now }
        ensures { LowersBlock (resolved_plain (P.rctx self.now.parts) node.now) state.old result state.new }
    {
        let role = BlockRole::Plain {
            is_unsafe: false,
            label: None,
        };
        self.parts
            .collect_block_inside(state, self.parts.place(), role, node)
    }

    /// Such a block, missing where it is absent.
    pub fn collect_block_opt<I: StoreSink>(
        &self,
        state: &mut BodyBuilder<I>,
        part: &Option<Boxed<ast::BlockExpr>>,
    ) -> Result<ExprId, StoreError>
    where
        P: LowerExprs<I>,
        requires { IfPresent ((P.can self.now.parts).block (P.rctx self.now.parts).place) part.now }
        ensures { LowersBlockOpt (block_part (P.rctx self.now.parts) part.now) state.old result state.new }
    {
        match part {
            None => state.missing_expr(),
            Some(part) => self.collect_block(state, part.get()),
        }
    }
}
