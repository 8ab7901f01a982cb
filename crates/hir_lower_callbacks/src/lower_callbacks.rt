//! What lowers the parts of a form, in one trait.

ghost use Rattle.std.specs.Prelude.{◌≡◌, option_copied, option_map};
ghost use Rattle.hir_env.specs.ResolvedTree as tree;
ghost use Rattle.hir_env.specs.Lent.{expanding_of};
ghost use Rattle.hir_env.specs.LocalPaths.{local_root};
ghost use Rattle.hir_env.specs.Paths.{alias_named, flags_of};
ghost use Rattle.hir_env.specs.ResolveCtx.{ResolveCtx};
ghost use Rattle.hir_env.specs.Whole.{resolved_expr, resolved_arg_list, resolved_path_as, resolved_plain, resolved_type};
ghost use Rattle.hir_lower_scope.specs.ScopeRibs.{search, sought_first};
ghost use Rattle.hir_lower_scope.specs.Labels.{answer};
ghost use Rattle.hir_lower_builder.specs.Nests.{CallsNest, Claims, Moved, PatCallsNest, PatsNest, SplicesNest, TargetsArePlaces};
ghost use Rattle.hir_lower_builder.specs.Nests.{TargetCallsNest, TargetsNest, TypeCallsNest};
ghost use Rattle.hir_lower_builder.specs.Methods.{HasRole, HasWalk, LowersArgs, LowersConstant, LowersInside, LowersType, MaybeLowersExpr};
ghost use Rattle.hir_lower_builder.specs.Methods.{ReadsPath, at_place, constant_at};

use hir_alias::signature::AliasSignature;
use hir_base::node::{InFile, NodeId, PredId};
use hir_env::ctx::LowerCtx;
use hir_env::expand::{Expansion, FragmentKind};
use hir_env::lang::LangItems;
use hir_env::resolved::{BuiltinShadowMode, Resolved};
use hir_lower_builder::builder::StoredBody;
use hir_lower_builder::parts::BlockRole;
use hir_lower_builder::walk::{PathWalk, Reading};
use hir_lower_scope::labels::NoTarget;
use hir_lower_scope::stacks::LabelStacks;
use hir_store::error::StoreError;
use hir_store::ids::{CfgId, CrateId, ExprId, HygieneId, LabelId, MacroDefId, TypeRefId};
use hir_store::name::Name;
use hir_store::path::{GenericArgs, ModPath};
use hir_store::type_ref::ConstRef;
use hir_syntax::{Boxed, Seq, ast};

/// What lowers the parts of a form at one place into the store that there is, and answers its questions there: all that `ViaCallbacks`
/// needs of it.
///
/// It is one trait so that what hands on functions owes what these owe once. It says of each of its methods what `LowerParts` and
/// `LowerExprs` say of it.
pub trait LowerCallbacks: Copy {
    /// The nodes that may be handed in.
    ghost can: { Self → Claims };
    /// Where the parts are read.
    ghost rctx: { Self → ResolveCtx };

    /// The same, at this place.
    fn moved(&self, place: LowerCtx) -> Self
        ensures rctx { rctx result ≡ at_place (rctx self.now) place }
        ensures can { Moved (can self.now) (can result) place };

    /// Where the parts are read.
    fn place(&self) -> LowerCtx
        ensures { result ≡ (rctx self.now).place };

    /// Whether the node is enabled, or else the condition that disables it.
    fn cfg(&self, node: InFile<NodeId>) -> Result<(), CfgId>
        ensures { result ≡ (rctx self.now).answers.cfg node };

    /// Whether the predicate holds, where that is decided.
    fn cfg_pred(&self, pred: Option<PredId>) -> Option<bool>
        ensures { result ≡ (rctx self.now).answers.cfg_pred pred };

    /// The hygiene of the name at the node.
    fn hygiene(&self, node: InFile<NodeId>) -> HygieneId
        ensures { result ≡ (rctx self.now).answers.hygiene node };

    /// The root of the crate that `$crate` at the name stands for.
    fn crate_root(&self, name: InFile<NodeId>) -> Option<CrateId>
        ensures { let answers = (rctx self.now).answers in result ≡ answers.crate_root (answers.context name) };

    /// The root of the crate at the node, where the macro that the node came from is local to its crate.
    fn local_root(&self, node: InFile<NodeId>) -> Option<Option<CrateId>>
        ensures { let answers = (rctx self.now).answers in result ≡ local_root answers (answers.context node) };

    /// What the path stands for.
    fn resolve(&self, path: &ModPath, shadow: BuiltinShadowMode) -> Resolved
        ensures { let at = rctx self.now in result ≡ at.answers.resolve at.place.module_id path.now shadow };

    /// The alias that a path of these names stands for at this place, where that is in an argument; none of it where it isn't known.
    fn alias(&self, place: LowerCtx, path: &ModPath) -> Option<Option<&AliasSignature>>
        ensures { option_map (λ alias. flags_of (option_copied alias)) result ≡ alias_named (rctx self.now).answers place path.now };

    /// What the macro call at the node is expanded to, as a fragment of this kind.
    fn expand(
        &self,
        node: InFile<NodeId>,
        call: &ast::MacroCall,
        kind: FragmentKind,
    ) -> Expansion<'_>
        ensures { let at = rctx self.now in expanding_of result ≡ at.answers.expand node call.now at.place.module_id kind };

    /// The definition of the macro of this name, which isn't by `macro_rules`.
    fn macro_def(&self, name: &Name) -> Option<MacroDefId>
        ensures { let at = rctx self.now in result ≡ at.answers.macro_def at.place.module_id name.now };

    /// The definition by `macro_rules` that so many of its name stand before in a block.
    fn legacy_macro(&self, name: &Name, before: u32) -> Option<MacroDefId>
        ensures { let at = rctx self.now in result ≡ at.answers.legacy_macro at.place.module_id name.now before };

    /// The items that the language itself names.
    fn lang_items(&self) -> &LangItems
        ensures { result.now ≡ (rctx self.now).answers.lang_items };

    /// Whether ranges are made as the newer items.
    fn new_range(&self) -> bool
        ensures { let at = rctx self.now in result ≡ at.answers.new_range at.place.module_id };

    /// The label that a jump of this name and this hygiene is for. It asks about contexts.
    fn find_label(
        &self,
        scopes: &LabelStacks,
        name: &Name,
        hygiene: HygieneId,
    ) -> Result<LabelId, NoTarget>
        ensures { result ≡ answer (search (rctx self.now).answers.contexts name.now (sought_first hygiene) scopes.now) };

    /// The expression, none where a condition disables it.
    fn maybe_collect_expr(
        &self,
        state: &mut StoredBody,
        node: &ast::Expr,
    ) -> Result<Option<ExprId>, StoreError>
        requires { (can self.now).expr node.now }
        ensures { MaybeLowersExpr (resolved_expr (rctx self.now) node.now) state.old result state.new };

    /// The same, read at this place.
    fn maybe_collect_expr_inside(
        &self,
        state: &mut StoredBody,
        place: LowerCtx,
        node: &ast::Expr,
    ) -> Result<Option<ExprId>, StoreError>
        requires { (can self.now).inner place node.now }
        ensures { MaybeLowersExpr (resolved_expr (at_place (rctx self.now) place) node.now) state.old result state.new };

    /// The block, read at this place, as one of this role.
    fn collect_block_inside(
        &self,
        state: &mut StoredBody,
        place: LowerCtx,
        role: BlockRole,
        node: &ast::BlockExpr,
    ) -> Result<ExprId, StoreError>
        requires part { (can self.now).block place node.now }
        requires role { HasRole state.old.stored role }
        ensures { LowersInside role (resolved_plain (at_place (rctx self.now) place) node.now) state.old result state.new };

    /// Goes on with the segments of the path, at this place, and then with those of the use tree around it. It is read alone, or is
    /// itself the use tree around another path.
    fn read_path(
        &self,
        state: &mut StoredBody,
        place: LowerCtx,
        walk: PathWalk,
        alone: bool,
        node: &ast::Path,
    ) -> Result<Reading, StoreError>
        requires part { (can self.now).path place node.now }
        requires walk { HasWalk state.old.stored walk }
        ensures { ReadsPath (resolved_path_as alone (at_place (rctx self.now) place) node.now) walk state.old result state.new };

    /// The type, read at this place, with the lifetimes of the `for<..>` directly around it, where one stands there.
    fn lower_type(
        &self,
        state: &mut StoredBody,
        place: LowerCtx,
        binder: &Option<Seq<Name>>,
        node: &ast::Type_,
    ) -> Result<TypeRefId, StoreError>
        requires { (can self.now).type_ place node.now }
        ensures { LowersType binder.now (resolved_type (at_place (rctx self.now) place) node.now) state.old result state.new };

    /// The arguments, read at this place, or none where the list yields nothing.
    fn lower_args(
        &self,
        state: &mut StoredBody,
        place: LowerCtx,
        node: &ast::GenericArgList,
    ) -> Result<Option<GenericArgs>, StoreError>
        requires { (can self.now).args place node.now }
        ensures { LowersArgs (tree.some_arg_list (resolved_arg_list (at_place (rctx self.now) place) node.now))
            state.old result state.new };

    /// The constant with this expression, written at this place. A disabled or absent expression is missing.
    fn collect_constant(
        &self,
        state: &mut StoredBody,
        place: LowerCtx,
        expr: &Option<Boxed<ast::Expr>>,
    ) -> Result<ConstRef, StoreError>
        requires { (can self.now).constant place expr.now }
        ensures { LowersConstant (constant_at (at_place (rctx self.now) place) expr.now) state.old result state.new };

    /// What is in a pattern that may be handed in may be handed in, too.
    ghost pat_kids: { PatsNest can };

    /// The same of the assignee expression, which may be handed in as an expression, too.
    ghost target_kids: { TargetsNest can };

    ghost target_place: { TargetsArePlaces can rctx };

    /// What a call that may be entered stands for may be handed in where it is entered.
    ghost call_kids: { CallsNest can rctx };

    ghost pat_call_kids: { PatCallsNest can rctx };

    ghost target_call_kids: { TargetCallsNest can rctx };

    ghost type_call_kids: { TypeCallsNest can rctx };

    ghost splice_kids: { SplicesNest can rctx };
}
