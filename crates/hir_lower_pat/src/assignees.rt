//! What comes of an expression that is assigned to: a pattern, or a place. It is decided before anything of the expression but its
//! path is lowered, so that nothing is lowered twice.

ghost use Rattle.std.specs.Prelude.{◌≡◌, None};
ghost use Rattle.hir_syntax.specs.declared.ast.Expr.{Expr as AstExpr};
ghost use Rattle.hir_store.specs.Range.{HasExpr, HasPat, HasPatParts, HasPath};
ghost use Rattle.hir_env.specs.ResolvedTree as tree;
ghost use Rattle.hir_env.specs.ResolvedTree.{Expr as ResolvedExpr};
ghost use Rattle.hir_env.specs.ResolveCtx.{ResolveCtx, site_of};
ghost use Rattle.hir_env.specs.Targets as of;
ghost use Rattle.hir_env.specs.Whole.{resolved_expr, own_pointer};
ghost use Rattle.hir_lower_builder.specs.Forms.{path_hygiene};
ghost use Rattle.hir_lower_builder.specs.Lowering.{Lowers};
ghost use Rattle.hir_lower_builder.specs.Methods.{LowersTarget};
ghost use Rattle.hir_lower_builder.specs.Targets as steps;
ghost use Rattle.hir_syntax.specs.declared.ast.ExprKind.{out-ExprKind};
ghost use Rattle.hir_lower_pat.specs.Assignees.{Assignees, AssigneesElement, HasAssignee, called_assignee, dots_kind, found_at, gone_place};
ghost use Rattle.hir_lower_pat.specs.Assignees.{is_no_place, pat_of_assignee};
ghost use Rattle.hir_lower_pat.specs.Assignees.{assignee_pat, led, no_ends, path_aimed, path_steps, place_pat, through, through_place};
ghost use Rattle.hir_lower_pat.specs.Assignees.{uncalled_assignee};

use crate::parts::{Here, HerePaths, TargetParts};
use crate::paths::PathPart;
use hir_base::node::{AstPtr, InFile};
use hir_env::resolved::{BuiltinShadowMode, Resolution, Resolved};
use hir_lower_builder::builder::BodyBuilder;
use hir_lower_builder::names::path_expr;
use hir_lower_builder::parts::site;
use hir_lower_builder::store_sink::StoreSink;
use hir_lower_builder::targets::Origin;
use hir_store::error::StoreError;
use hir_store::hir::{Expr, Pat};
use hir_store::ids::{ExprId, HygieneId, PatId};
use hir_store::path::Path;
use hir_syntax::{Boxed, ast};

/// What came of an expression that is assigned to: a pattern, or the expression of a place, of which nothing may be left.
#[derive(Clone, Copy)]
pub enum Assignee {
    Pat(PatId),
    Place(ExprId),
    Gone,
}

/// The outermost of some calls, the inner of which stands here.
pub fn outermost(call: Option<InFile<AstPtr>>, at: InFile<AstPtr>) -> InFile<AstPtr>
    ensures { result ≡ of.outermost call at }
{
    match call {
        None => at,
        Some(call) => call,
    }
}

/// Stores a pattern, to which its node leads, and which comes from the outermost call, where it is an element that comes out of calls.
pub fn alloc_target<I: StoreSink>(
    state: &mut BodyBuilder<I>,
    at: InFile<AstPtr>,
    call: Option<InFile<AstPtr>>,
    pat: Pat,
) -> Result<PatId, StoreError>
    requires { HasPatParts state.old.stored pat }
    ensures { Lowers HasPat (steps.alloc_target pat (of.origin call at)) state.old result state.new }
{
    state.alloc_target(pat, Origin { node: at, call })
}

/// What is missing, from no node but the outermost call, where it is an element that comes out of calls.
pub fn missing_target<I: StoreSink>(
    state: &mut BodyBuilder<I>,
    call: Option<InFile<AstPtr>>,
) -> Result<PatId, StoreError>
    ensures { Lowers HasPat (steps.missing_target call) state.old result state.new }
{
    state.alloc_desugared_pat(Pat::Missing, call)
}

/// What a path stands for that is found in full and is no place.
fn is_pattern(values: Option<Resolution>) -> bool
    ensures { result ≡ of.is_pattern values }
{
    matches!(
        values,
        Some(
            Resolution::Const
                | Resolution::Variant
                | Resolution::Struct
                | Resolution::Union
                | Resolution::Enum
        )
    )
}

/// One that is found in part may stand for an item of the type that is found.
fn is_target(resolved: Resolved) -> bool
    ensures { result ≡ of.is_target resolved }
{
    if resolved.rest.is_some() {
        resolved.types.is_some()
    } else {
        is_pattern(resolved.values)
    }
}

/// Whether a path is no place. A type in front of it doesn't count.
fn is_found<H: Here>(parts: &H, path: &Path) -> bool
    ensures { result ≡ is_no_place (H.rctx parts.now) path.now }
{
    match path {
        Path::BarePath(names) => is_target(parts.resolve(names, BuiltinShadowMode::Local)),
        Path::Normal(path) => is_target(parts.resolve(&path.mod_path, BuiltinShadowMode::Local)),
        Path::LangItem(_) => false,
    }
}

/// The hygiene of a path whose node has this one.
fn hygiene_of(path: &Path, hygiene: HygieneId) -> HygieneId
    ensures { result ≡ path_hygiene path.now hygiene }
{
    match path {
        Path::BarePath(names) => {
            if names.segments.len() <= 1 {
                hygiene
            } else {
                HygieneId::ROOT
            }
        }
        Path::Normal(_) | Path::LangItem(_) => HygieneId::ROOT,
    }
}

/// The path, as a pattern or as a place.
#[inline(never)]
fn path_form<I: StoreSink, H: HerePaths<I>>(
    parts: &H,
    state: &mut BodyBuilder<I>,
    at: InFile<AstPtr>,
    call: Option<InFile<AstPtr>>,
    hygiene: HygieneId,
    path: Path,
) -> Result<Assignee, StoreError>
    requires { HasPath state.old.stored path }
    ensures { let found = is_no_place (H.rctx parts.now) path in
        Lowers HasAssignee (path_aimed found (of.origin call at) hygiene path) state.old result state.new }
{
    if is_found(parts, &path) {
        let hygiene = hygiene_of(&path, hygiene);
        let id = alloc_target(state, at, call, Pat::Path { path, hygiene })?;
        Ok(Assignee::Pat(id))
    } else {
        let id = state.alloc_expr(path_expr(Some(path), hygiene), Some(at))?;
        Ok(Assignee::Place(id))
    }
}

/// A path that is absent or refused is a place.
fn read_path<I: StoreSink, H: HerePaths<I>, W: PathPart>(
    parts: &H,
    state: &mut BodyBuilder<I>,
    at: InFile<AstPtr>,
    call: Option<InFile<AstPtr>>,
    hygiene: HygieneId,
    path: &W,
) -> Result<Assignee, StoreError>
    requires { W.can (H.can_path parts.now) path.now }
    ensures { let rctx = H.rctx parts.now in
        Lowers HasAssignee (path_steps rctx (of.origin call at) hygiene (W.read rctx path.now)) state.old result state.new }
{
    match parts.path(state, path)? {
        None => {
            let id = state.alloc_expr(Expr::Missing, Some(at))?;
            Ok(Assignee::Place(id))
        }
        Some(path) => path_form(parts, state, at, call, hygiene, path),
    }
}

/// A path, by what it stands for.
pub fn path_assignee<I: StoreSink, H: HerePaths<I>, W: PathPart>(
    parts: &H,
    state: &mut BodyBuilder<I>,
    at: InFile<AstPtr>,
    call: Option<InFile<AstPtr>>,
    path: &W,
) -> Result<Assignee, StoreError>
    requires { W.can (H.can_path parts.now) path.now }
    ensures { let rctx = H.rctx parts.now in
        Assignees rctx call (tree.path_expr at (W.read rctx path.now) (rctx.answers.hygiene (site_of at))) state.old result state.new }
{
    let hygiene = parts.hygiene(site(at));
    read_path(parts, state, at, call, hygiene, path)
}

/// Parentheses lead to the expression of a place.
fn through_place<I: StoreSink>(
    state: &mut BodyBuilder<I>,
    at: InFile<AstPtr>,
    id: ExprId,
) -> Result<Assignee, StoreError>
    requires { HasExpr state.old.stored id }
    ensures { Lowers HasAssignee (through_place at id) state.old result state.new }
{
    state.point(at, id)?;
    Ok(Assignee::Place(id))
}

/// Parentheses lead to the expression of a place, which is missing where nothing is left of it.
pub fn parens<I: StoreSink>(
    state: &mut BodyBuilder<I>,
    at: InFile<AstPtr>,
    inner: Assignee,
) -> Result<Assignee, StoreError>
    requires { HasAssignee state.old.stored inner }
    ensures { Lowers HasAssignee (through at inner) state.old result state.new }
{
    match inner {
        Assignee::Pat(id) => Ok(Assignee::Pat(id)),
        Assignee::Place(id) => through_place(state, at, id),
        Assignee::Gone => {
            let id = state.missing_expr()?;
            through_place(state, at, id)
        }
    }
}

/// The pattern of a place.
fn place_pat<I: StoreSink>(
    state: &mut BodyBuilder<I>,
    at: InFile<AstPtr>,
    id: ExprId,
) -> Result<PatId, StoreError>
    requires { HasExpr state.old.stored id }
    ensures { Lowers HasPat (place_pat at id) state.old result state.new }
{
    state.alloc_desugared_pat(Pat::Expr(id), Some(at))
}

/// The same of a place of which nothing is left.
fn gone_place<I: StoreSink>(
    state: &mut BodyBuilder<I>,
    at: InFile<AstPtr>,
) -> Result<PatId, StoreError>
    ensures { Lowers HasPat (gone_place at) state.old result state.new }
{
    let id = state.missing_expr()?;
    place_pat(state, at, id)
}

/// The pattern, which a place becomes with the node of its outermost parentheses.
pub fn land<I: StoreSink>(
    state: &mut BodyBuilder<I>,
    at: InFile<AstPtr>,
    assignee: Assignee,
) -> Result<PatId, StoreError>
    requires { HasAssignee state.old.stored assignee }
    ensures { Lowers HasPat (pat_of_assignee at assignee) state.old result state.new }
{
    match assignee {
        Assignee::Pat(id) => Ok(id),
        Assignee::Place(id) => place_pat(state, at, id),
        Assignee::Gone => gone_place(state, at),
    }
}

/// The node of a call leads to the pattern of what it stands for.
fn led<I: StoreSink>(
    state: &mut BodyBuilder<I>,
    at: InFile<AstPtr>,
    id: PatId,
) -> Result<Assignee, StoreError>
    requires { HasPat state.old.stored id }
    ensures { Lowers HasAssignee (led at id) state.old result state.new }
{
    state.point_target(at, id)?;
    Ok(Assignee::Pat(id))
}

/// What comes of a call, by what comes of what it stands for, which as a place comes from the other node, also where nothing is left
/// of that.
pub fn called_assignee<I: StoreSink>(
    state: &mut BodyBuilder<I>,
    at: InFile<AstPtr>,
    source: InFile<AstPtr>,
    inner: Assignee,
) -> Result<Assignee, StoreError>
    requires { HasAssignee state.old.stored inner }
    ensures { Lowers HasAssignee (called_assignee at source inner) state.old result state.new }
{
    let id = land(state, source, inner)?;
    led(state, at, id)
}

/// What comes of a call that stands for no expression.
pub fn uncalled_assignee<I: StoreSink>(
    state: &mut BodyBuilder<I>,
    at: InFile<AstPtr>,
    call: Option<InFile<AstPtr>>,
) -> Result<Assignee, StoreError>
    ensures { Lowers HasAssignee (uncalled_assignee call at) state.old result state.new }
{
    let id = missing_target(state, call)?;
    led(state, at, id)
}

/// The node of an expression, which of a block is the block's.
pub fn pointer_of<H: Here>(parts: &H, node: &ast::Expr) -> InFile<AstPtr>
    ensures { result ≡ own_pointer (H.rctx parts.now) node.now }
{
    match &node.kind {
        ast::ExprKind::BlockExpr(block) => {
            let block = block.get();
            parts.pointer(block.id, block.range)
        }
        _ => parts.pointer(node.id, node.range),
    }
}

/// Whether a range stands between nothing.
fn has_no_ends(start: &Option<Boxed<ast::Expr>>, end: &Option<Boxed<ast::Expr>>) -> bool
    ensures { result ≡ no_ends start.now end.now }
{
    match start {
        None => end.is_none(),
        Some(_) => false,
    }
}

/// Whether it is `..` as it stands.
pub fn is_dots_kind(node: &ast::Expr) -> bool
    ensures { result ≡ dots_kind (out-ExprKind node.now.kind) }
{
    match &node.kind {
        ast::ExprKind::RangeExpr { op: _, start, end } => has_no_ends(start, end),
        _ => false,
    }
}

/// An expression that is assigned to. A form that hands one on has it as a type parameter, so that no tree is among the form's
/// types.
pub trait TargetNode {
    ghost can: { (AstExpr → Type 0) → Self → Type 0 };

    ghost read: { ResolveCtx → Self → ResolvedExpr };

    /// Whether it is `..`, whatever disables it.
    fn is_dots<H: Here>(&self, parts: &H) -> bool
        ensures { result ≡ of.is_dots (read (H.rctx parts.now) self.now) };

    /// The node of the expression, whatever disables it.
    fn pointer<H: Here>(&self, parts: &H) -> InFile<AstPtr>
        ensures { result ≡ of.pointer_of (read (H.rctx parts.now) self.now) };

    /// What comes of the expression, in whatever parentheses it stands, with the outermost call, where it is an element that comes
    /// out of calls.
    fn assignee<I: StoreSink, T: TargetParts<I>>(
        &self,
        parts: &T,
        state: &mut BodyBuilder<I>,
        call: Option<InFile<AstPtr>>,
    ) -> Result<Assignee, StoreError>
        requires { can (T.can_target parts.now) self.now }
        ensures { Assignees (T.rctx parts.now) call (read (T.rctx parts.now) self.now) state.old result state.new };

    /// The pattern of an element, none where it comes to two dots.
    fn element<I: StoreSink, T: TargetParts<I>>(
        &self,
        parts: &T,
        state: &mut BodyBuilder<I>,
    ) -> Result<Option<PatId>, StoreError>
        requires { can (T.can_target parts.now) self.now }
        ensures { AssigneesElement (T.rctx parts.now) None (read (T.rctx parts.now) self.now) state.old result state.new };
}

impl TargetNode for ast::Expr {
    ghost can = { λ target e. target e };

    ghost read = { resolved_expr };

    fn is_dots<H: Here>(&self, parts: &H) -> bool {
        let _ = parts;
        is_dots_kind(self)
    }

    fn pointer<H: Here>(&self, parts: &H) -> InFile<AstPtr> {
        pointer_of(parts, self)
    }

    fn assignee<I: StoreSink, T: TargetParts<I>>(
        &self,
        parts: &T,
        state: &mut BodyBuilder<I>,
        call: Option<InFile<AstPtr>>,
    ) -> Result<Assignee, StoreError> {
        parts.assignee(state, call, self)
    }

    fn element<I: StoreSink, T: TargetParts<I>>(
        &self,
        parts: &T,
        state: &mut BodyBuilder<I>,
    ) -> Result<Option<PatId>, StoreError> {
        parts.element(state, self)
    }
}

/// The pattern of an expression, which as a place has its node.
fn landed_target<I: StoreSink, T: TargetParts<I>, N: TargetNode>(
    parts: &T,
    state: &mut BodyBuilder<I>,
    node: &N,
) -> Result<PatId, StoreError>
    requires { N.can (T.can_target parts.now) node.now }
    ensures { let rctx = T.rctx parts.now in
        let read = N.read rctx node.now in
        Lowers HasPat (assignee_pat (found_at rctx) None (of.pointer_of read) read) state.old result state.new }
{
    let assignee = node.assignee(parts, state, None)?;
    land(state, node.pointer(parts), assignee)
}

/// The pattern of an expression, around which nothing else stands.
pub fn target<I: StoreSink, T: TargetParts<I>, N: TargetNode>(
    parts: &T,
    state: &mut BodyBuilder<I>,
    node: &N,
) -> Result<PatId, StoreError>
    requires { N.can (T.can_target parts.now) node.now }
    ensures { let rctx = T.rctx parts.now in
        LowersTarget (of.target_of (found_at rctx) (tree.some_expr (N.read rctx node.now))) state.old result state.new }
{
    landed_target(parts, state, node)
}
