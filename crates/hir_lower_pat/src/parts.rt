//! What a form of patterns or of targets needs: the questions, and what lowers the patterns, targets and paths inside of it. It is a
//! parameter, so that each form is proved by itself.

ghost use Rattle.std.specs.Prelude.{◌≡◌, None, is_some};
ghost use Rattle.hir_syntax.specs.declared.ast.Expr.{Expr as AstExpr};
ghost use Rattle.hir_syntax.specs.declared.ast.Path.{Path as AstPath};
ghost use Rattle.hir_syntax.specs.declared.pats.Pat.{Pat as AstPat};
ghost use Rattle.hir_store.specs.Range.{HasPathOption};
ghost use Rattle.hir_env.specs.ResolveCtx.{ResolveCtx};
ghost use Rattle.hir_env.specs.Targets as of;
ghost use Rattle.hir_env.specs.Whole.{resolved_expr, resolved_pat, pointer_at};
ghost use Rattle.hir_lower_builder.specs.Lowering.{Lowers};
ghost use Rattle.hir_lower_builder.specs.Methods.{LowersPath};
ghost use Rattle.hir_lower_pat.specs.Assignees.{Assignees, AssigneesElement, HandlesTarget, HandlesTargetElement, HasAssignee};
ghost use Rattle.hir_lower_pat.specs.Assignees.{place_assignee};
ghost use Rattle.hir_lower_pat.specs.Bindings.{HasNames};
ghost use Rattle.hir_lower_pat.specs.Callbacks.{HandlesElement, HandlesPat};
ghost use Rattle.hir_lower_pat.specs.Methods.{LowersElement, LowersPat};
ghost use Rattle.hir_lower_pat.specs.TargetLists.{callee_steps};

use crate::assignees::Assignee;
use crate::bindings::Bindings;
use crate::callees::{callee, is_path};
use crate::paths::PathPart;
use hir_base::node::{AstPtr, InFile, NodeId, PredId, TextRange};
use hir_env::resolved::{BuiltinShadowMode, Resolved};
use hir_lower_builder::builder::{BodyBuilder, StoredBody};
use hir_lower_builder::parts::{LowerExprs, LowerParts, Lowerer};
use hir_lower_builder::store_sink::StoreSink;
use hir_store::builder::ExpressionStoreBuilder;
use hir_store::error::StoreError;
use hir_store::ids::{CfgId, HygieneId, PatId};
use hir_store::path::{ModPath, Path};
use hir_syntax::ast;
use std::alloc::Global;

/// The questions of a form at one place, and the paths there.
pub trait Here {
    /// The paths that may be handed in.
    ghost can_path: { Self → AstPath → Type 0 };
    /// Where the parts are read.
    ghost rctx: { Self → ResolveCtx };

    fn alloc(&self) -> Global;

    fn pointer(&self, node: NodeId, range: TextRange) -> InFile<AstPtr>
        ensures { result ≡ pointer_at (rctx self.now) node range };

    /// Whether the node is enabled, or else the condition that disables it.
    fn cfg(&self, node: InFile<NodeId>) -> Result<(), CfgId>
        ensures { result ≡ (rctx self.now).answers.cfg node };

    /// Whether the predicate holds, where that is decided.
    fn cfg_pred(&self, pred: Option<PredId>) -> Option<bool>
        ensures { result ≡ (rctx self.now).answers.cfg_pred pred };

    /// The hygiene of the name at the node.
    fn hygiene(&self, node: InFile<NodeId>) -> HygieneId
        ensures { result ≡ (rctx self.now).answers.hygiene node };

    /// What the path stands for.
    fn resolve(&self, path: &ModPath, shadow: BuiltinShadowMode) -> Resolved
        ensures { let at = rctx self.now in result ≡ at.answers.resolve at.place.module_id path.now shadow };
}

/// The same, where paths are lowered.
pub trait HerePaths<I: StoreSink>: Here {
    /// The path, or none where it is absent or refused.
    fn path<W: PathPart>(
        &self,
        state: &mut BodyBuilder<I>,
        part: &W,
    ) -> Result<Option<Path>, StoreError>
        requires { W.can (Self.can_path self.now) part.now }
        ensures { LowersPath (W.read (Self.rctx self.now) part.now) state.old result state.new };
}

/// What lowers the parts of a pattern at one place.
pub trait PatParts<I: StoreSink>: HerePaths<I> {
    /// The patterns that may be handed in.
    ghost can_pat: { Self → AstPat → Type 0 };

    /// The pattern, with the names of its top pattern that were used before.
    fn lower_pat(
        &self,
        state: &mut BodyBuilder<I>,
        bindings: &mut Bindings,
        node: &ast::Pat,
    ) -> Result<PatId, StoreError>
        requires part { can_pat self.now node.now }
        requires names { HasNames state.old.stored bindings.old }
        ensures { LowersPat (resolved_pat (Self.rctx self.now) node.now) bindings.old state.old result bindings.new state.new };

    /// The pattern as an element of a tuple or a call, none where it is two dots, be it through calls.
    fn lower_element(
        &self,
        state: &mut BodyBuilder<I>,
        bindings: &mut Bindings,
        node: &ast::Pat,
    ) -> Result<Option<PatId>, StoreError>
        requires part { can_pat self.now node.now }
        requires names { HasNames state.old.stored bindings.old }
        ensures { LowersElement (resolved_pat (Self.rctx self.now) node.now) bindings.old state.old result bindings.new state.new };
}

/// What lowers the parts of the assignee expression at one place.
pub trait TargetParts<I: StoreSink>: HerePaths<I> {
    /// What may be handed in as a target, as a place, and as a callee.
    ghost can_target: { Self → AstExpr → Type 0 };

    ghost can_place: { Self → AstExpr → Type 0 };

    ghost can_callee: { Self → AstExpr → Type 0 };

    /// The expression as it stands, of which nothing may be left.
    fn place(&self, state: &mut BodyBuilder<I>, node: &ast::Expr) -> Result<Assignee, StoreError>
        requires { can_place self.now node.now }
        ensures { Lowers HasAssignee (place_assignee (resolved_expr (Self.rctx self.now) node.now)) state.old result state.new };

    /// What comes of an expression, in whatever parentheses it stands, with the outermost call, where it is an element that comes out
    /// of calls.
    fn assignee(
        &self,
        state: &mut BodyBuilder<I>,
        call: Option<InFile<AstPtr>>,
        node: &ast::Expr,
    ) -> Result<Assignee, StoreError>
        requires { can_target self.now node.now }
        ensures { Assignees (Self.rctx self.now) call (resolved_expr (Self.rctx self.now) node.now) state.old result state.new };

    /// The pattern of an element, none where it comes to two dots.
    fn element(
        &self,
        state: &mut BodyBuilder<I>,
        node: &ast::Expr,
    ) -> Result<Option<PatId>, StoreError>
        requires { can_target self.now node.now }
        ensures { AssigneesElement (Self.rctx self.now) None (resolved_expr (Self.rctx self.now) node.now) state.old result state.new };

    /// Whether a callee is a path, be it through calls.
    fn is_path(&self, node: &ast::Expr) -> bool
        ensures { result ≡ is_some (of.callee_path (resolved_expr (Self.rctx self.now) node.now)) };

    /// The path of such a callee, or none where it is absent or refused.
    fn callee(
        &self,
        state: &mut BodyBuilder<I>,
        node: &ast::Expr,
    ) -> Result<Option<Path>, StoreError>
        requires { can_callee self.now node.now }
        ensures { Lowers HasPathOption (callee_steps (resolved_expr (Self.rctx self.now) node.now)) state.old result state.new };
}

/// The parts of a pattern or of a target are lowered by a function.
#[derive_where(Clone, Copy; F)]
pub struct Inside<'l, P, F> {
    pub lowerer: &'l Lowerer<P>,
    pub by: F,
}

impl<'l, P: LowerParts, F> Here for Inside<'l, P, F> {
    ghost can_path = { λ it. (P.can it.lowerer.now.parts).path (P.rctx it.lowerer.now.parts).place };

    ghost rctx = { λ it. P.rctx it.lowerer.now.parts };

    fn alloc(&self) -> Global {
        self.lowerer.alloc
    }

    fn pointer(&self, node: NodeId, range: TextRange) -> InFile<AstPtr> {
        self.lowerer.pointer(node, range)
    }

    fn cfg(&self, node: InFile<NodeId>) -> Result<(), CfgId> {
        self.lowerer.parts.cfg(node)
    }

    fn cfg_pred(&self, pred: Option<PredId>) -> Option<bool> {
        self.lowerer.parts.cfg_pred(pred)
    }

    fn hygiene(&self, node: InFile<NodeId>) -> HygieneId {
        self.lowerer.parts.hygiene(node)
    }

    fn resolve(&self, path: &ModPath, shadow: BuiltinShadowMode) -> Resolved {
        self.lowerer.parts.resolve(path, shadow)
    }
}

impl<'l, I: StoreSink, P: LowerExprs<I>, F> HerePaths<I> for Inside<'l, P, F> {
    fn path<W: PathPart>(
        &self,
        state: &mut BodyBuilder<I>,
        part: &W,
    ) -> Result<Option<Path>, StoreError> {
        part.lower(self.lowerer, state, self.lowerer.parts.place())
    }
}

/// The functions that lower a pattern as such, and as an element.
#[derive(Clone, Copy)]
pub struct PatBy<F, G> {
    pub pat: F,
    pub element: G,
}

impl<
    'l,
    P: LowerExprs<ExpressionStoreBuilder>,
    F: Fn(&Lowerer<P>, &mut StoredBody, &mut Bindings, &ast::Pat) -> Result<PatId, StoreError>,
    G: Fn(
        &Lowerer<P>,
        &mut StoredBody,
        &mut Bindings,
        &ast::Pat,
    ) -> Result<Option<PatId>, StoreError>,
> PatParts<ExpressionStoreBuilder> for Inside<'l, P, PatBy<F, G>> {
    ghost can_pat = { λ it p. HandlesPat P.rctx (F.pre it.by.pat) (F.post it.by.pat) it.lowerer.now p
        × HandlesElement P.rctx (G.pre it.by.element) (G.post it.by.element) it.lowerer.now p };

    fn lower_pat(
        &self,
        state: &mut StoredBody,
        bindings: &mut Bindings,
        node: &ast::Pat,
    ) -> Result<PatId, StoreError> {
        (self.by.pat)(self.lowerer, state, bindings, node)
    }

    fn lower_element(
        &self,
        state: &mut StoredBody,
        bindings: &mut Bindings,
        node: &ast::Pat,
    ) -> Result<Option<PatId>, StoreError> {
        (self.by.element)(self.lowerer, state, bindings, node)
    }
}

/// The functions that aim at an expression as such, and that lower it as an element.
#[derive(Clone, Copy)]
pub struct TargetBy<F, G> {
    pub assignee: F,
    pub element: G,
}

impl<
    'l,
    P: LowerExprs<ExpressionStoreBuilder>,
    F: Fn(
        &Lowerer<P>,
        &mut StoredBody,
        Option<InFile<AstPtr>>,
        &ast::Expr,
    ) -> Result<Assignee, StoreError>,
    G: Fn(
        &Lowerer<P>,
        &mut StoredBody,
        Option<InFile<AstPtr>>,
        &ast::Expr,
    ) -> Result<Option<PatId>, StoreError>,
> TargetParts<ExpressionStoreBuilder> for Inside<'l, P, TargetBy<F, G>> {
    ghost can_target = { λ it e. HandlesTarget P.rctx (F.pre it.by.assignee) (F.post it.by.assignee) it.lowerer.now e
        × HandlesTargetElement P.rctx (G.pre it.by.element) (G.post it.by.element) it.lowerer.now e };

    ghost can_place = { λ it. (P.can it.lowerer.now.parts).expr };

    ghost can_callee = { λ it. (P.can it.lowerer.now.parts).target (P.rctx it.lowerer.now.parts).place };

    fn place(&self, state: &mut StoredBody, node: &ast::Expr) -> Result<Assignee, StoreError> {
        place(self.lowerer, state, node)
    }

    fn assignee(
        &self,
        state: &mut StoredBody,
        call: Option<InFile<AstPtr>>,
        node: &ast::Expr,
    ) -> Result<Assignee, StoreError> {
        (self.by.assignee)(self.lowerer, state, call, node)
    }

    fn element(
        &self,
        state: &mut StoredBody,
        node: &ast::Expr,
    ) -> Result<Option<PatId>, StoreError> {
        (self.by.element)(self.lowerer, state, None, node)
    }

    fn is_path(&self, node: &ast::Expr) -> bool {
        is_path(self.lowerer, node)
    }

    fn callee(&self, state: &mut StoredBody, node: &ast::Expr) -> Result<Option<Path>, StoreError> {
        callee(self.lowerer, state, node)
    }
}

/// An expression as a place, of which nothing may be left.
pub fn place<I: StoreSink, P: LowerExprs<I>>(
    lowerer: &Lowerer<P>,
    state: &mut BodyBuilder<I>,
    node: &ast::Expr,
) -> Result<Assignee, StoreError>
    requires { (P.can lowerer.now.parts).expr node.now }
    ensures { Lowers HasAssignee (place_assignee (resolved_expr (P.rctx lowerer.now.parts) node.now)) state.old result state.new }
{
    match lowerer.parts.maybe_collect_expr(state, node)? {
        None => Ok(Assignee::Gone),
        Some(id) => Ok(Assignee::Place(id)),
    }
}
