//! Bodies of items.

ghost use Rattle.std.specs.Prelude.{◌≡◌, ◌≢◌, Bool, false, is_some, IfOk, IsErrOf, option_copied, option_map, slice_get};
ghost use Rattle.hir_store.specs.Range.{InRange};
ghost use Rattle.hir_store.specs.Stored.{map_of, store_of};
ghost use Rattle.hir_env.specs.ResolvedTree as tree;
ghost use Rattle.hir_env.specs.Answering.{coroutine_kind};
ghost use Rattle.hir_env.specs.Formals.{resolved_formals};
ghost use Rattle.hir_env.specs.Whole.{expr_part};
ghost use Rattle.hir_lower_builder.specs.Lowering.{Lowers};
ghost use Rattle.thm_body_result.specs.Formals.{lower_body, plain_body};
ghost use Rattle.hir_lower_callbacks.specs.ResolveCtxs.{rctx_at};
ghost use Rattle.hir_lower.specs.Clauses.{BodyExceeds, BodyFits, HasBodyParams, HasExpansions, HasSameMeaning, HasSelfSource};
ghost use Rattle.hir_lower.specs.Clauses.{HasStoredData, IsOneResult};
ghost use Rattle.hir_lower.specs.Formals.{are_read, item_formals, outside_the_body, self_source};
ghost use Rattle.hir_lower.specs.Inputs.{body_input};
ghost use Rattle.hir_lower.specs.Means.{MadeOnce, required_body};
ghost use Rattle.hir_lower.specs.Roots.{GivenFromNothing, HasGivenBody, RefusedAtEnd, StoresFromNothing, await_location, behind, body_of};
ghost use Rattle.hir_lower.specs.Roots.{FromSteps, body_rctx, both, both_if_present, formals_of, item_location, item_of};

use crate::collector::collect_expr_opt;
use crate::coroutine_functions::{around, coroutine_form};
use crate::error::LowerError;
use crate::formals::{Given, formals_form, must_be_bare, self_node};
use hir_base::Seq;
use hir_base::node::{AstPtr, HirFileId, InFile};
use hir_env::ctx::{ImplTrait, LifetimeScope, LowerCtx, LoweringMode};
use hir_env::env::LowerEnv;
use hir_lower_builder::builder::StoredBody;
use hir_store::diagnostics::{AwaitLocation, ExpressionStoreDiagnostics, MissingBodyItemKind};
use hir_store::error::StoreError;
use hir_store::hir::CoroutineKind;
use hir_store::ids::{BindingId, DefWithBodyId, ExprId, ItemContainerId, ModuleId, PatId};
use hir_store::param::Param;
use hir_store::source_map::ExpressionStoreSourceMap;
use hir_store::store::ExpressionStore;
use hir_syntax::ast;
use std::alloc::{AllocError, Global};

/// A lowered body. Its one recorded root is the body's expression. The binding of `self` stands apart from the patterns of the
/// other parameters that no condition disables.
pub struct Body {
    pub store: ExpressionStore,
    pub params: Seq<Param<PatId>>,
    pub self_param: Option<Param<BindingId>>,
}

impl Drop for Body {
    fn drop(self) {
        let Body {
            store: _,
            params: _,
            self_param: _,
        } = self;
    }
}

impl Body {
    /// The expression that the body is (upstream's function of this name): its first root. A body that `lower_body` answers has one.
    pub fn root_expr(&self) -> Option<ExprId>
        ensures { result ≡ option_map (λ r. r.root) (slice_get self.now.store.roots 0) }
    {
        Some(self.store.expr_roots().first()?.root)
    }
}

/// From the written body to the lowered one, and back, with the node of `self`.
pub struct BodySourceMap {
    pub self_param: Option<InFile<AstPtr>>,
    pub store: ExpressionStoreSourceMap,
}

impl Drop for BodySourceMap {
    fn drop(self) {
        let BodySourceMap {
            self_param: _,
            store: _,
        } = self;
    }
}

/// The kind of the fault that an item without a body owes.
fn required_body_kind(
    owner: DefWithBodyId,
    container: ItemContainerId,
) -> Option<MissingBodyItemKind>
    ensures { result ≡ required_body owner container }
{
    match (owner, container) {
        (DefWithBodyId::StaticId(_), ItemContainerId::ModuleId(_)) => Some(
            MissingBodyItemKind::Static,
        ),
        (DefWithBodyId::ConstId(_), ItemContainerId::ModuleId(_)) => Some(
            MissingBodyItemKind::Const,
        ),
        (DefWithBodyId::ConstId(_), ItemContainerId::ImplId(_)) => Some(
            MissingBodyItemKind::AssocConst,
        ),
        _ => None,
    }
}

/// What an `await` in the body of the item stands in, where it isn't async.
fn item_location_of(owner: DefWithBodyId) -> AwaitLocation
    ensures { result ≡ item_location owner }
{
    match owner {
        DefWithBodyId::FunctionId(_) => AwaitLocation::NonAsyncFunction,
        DefWithBodyId::StaticId(_) => AwaitLocation::Static,
        DefWithBodyId::ConstId(_) => AwaitLocation::Constant,
        DefWithBodyId::VariantId(_) => AwaitLocation::EnumVariant,
    }
}

/// What an `await` in the body of the item stands in, none where it may stand there.
fn await_location_of(owner: DefWithBodyId, is_async: bool) -> Option<AwaitLocation>
    ensures { result ≡ await_location is_async owner }
{
    if is_async {
        None
    } else {
        Some(item_location_of(owner))
    }
}

/// The kind of the coroutine that a body with these words is, where it is one.
fn coroutine_kind_of(is_async: bool, is_gen: bool) -> Option<CoroutineKind>
    ensures { result ≡ coroutine_kind is_async is_gen }
{
    match (is_async, is_gen) {
        (false, false) => None,
        (true, false) => Some(CoroutineKind::Async),
        (false, true) => Some(CoroutineKind::Gen),
        (true, true) => Some(CoroutineKind::AsyncGen),
    }
}

/// Whether the parameters of the item are read, where its body isn't skipped.
fn is_function(owner: DefWithBodyId) -> bool
    ensures { result ≡ are_read false owner }
{
    match owner {
        DefWithBodyId::FunctionId(_) => true,
        DefWithBodyId::StaticId(_) | DefWithBodyId::ConstId(_) | DefWithBodyId::VariantId(_) => {
            false
        }
    }
}

/// The same patterns again.
fn copied(mut left: &[PatId], alloc: Global) -> Result<Seq<PatId>, AllocError>
    ensures { IfOk result (λ ps. ps ≡ left.entry.now) }
{
    let mut pats = Seq::new(alloc);
    while let [one, rest @ ..] = left {
        pats.push(*one)?;
        left = rest;
    }
    Ok(pats)
}

/// Lowers parameters, and behind them a body that is no coroutine.
#[tactic(auto, unfolding(thm_body_result::specs::Formals::plain_body))]
fn plain_form<E: LowerEnv>(
    alloc: Global,
    env: &E,
    place: LowerCtx,
    state: &mut StoredBody,
    skipped: bool,
    bare: bool,
    params: Option<&ast::ParamList>,
    body: Option<&ast::Expr>,
) -> Result<(Given, ExprId), StoreError>
    ensures { let at = rctx_at (E.answers env.now) place in
        let formals = resolved_formals (outside_the_body at) bare (option_copied params.entry) in
        let read = expr_part at (option_copied body.entry) in
        Lowers HasGivenBody (plain_body skipped formals read) state.old result state.new }
{
    let (receiver, pats) = formals_form(alloc, env, around(place), state, skipped, bare, params)?;
    let root = collect_expr_opt(alloc, env, place, state, body)?;
    let copies = copied(pats.as_slice(), alloc)?;
    Ok((((receiver, copies), (receiver, pats)), root))
}

/// The item's body, behind its parameters.
fn body_form<E: LowerEnv>(
    alloc: Global,
    env: &E,
    place: LowerCtx,
    state: &mut StoredBody,
    kind: Option<CoroutineKind>,
    skipped: bool,
    bare: bool,
    params: Option<&ast::ParamList>,
    body: Option<&ast::Expr>,
) -> Result<(Given, ExprId), StoreError>
    ensures { let at = rctx_at (E.answers env.now) place in
        let formals = resolved_formals (outside_the_body at) bare (option_copied params.entry) in
        let read = expr_part at (option_copied body.entry) in
        Lowers HasGivenBody (lower_body kind skipped formals read) state.old result state.new }
{
    match kind {
        None => plain_form(alloc, env, place, state, skipped, bare, params, body),
        Some(kind) => {
            coroutine_form(alloc, env, place, state, kind, skipped, bare, params, body)
        }
    }
}

/// The same as a root, in which no label around it is open.
#[tactic(auto, unfolding(crate::specs::Roots::behind))]
fn behind_formals<E: LowerEnv>(
    alloc: Global,
    env: &E,
    place: LowerCtx,
    state: &mut StoredBody,
    kind: Option<CoroutineKind>,
    skipped: bool,
    bare: bool,
    params: Option<&ast::ParamList>,
    body: Option<&ast::Expr>,
) -> Result<(Given, ExprId), StoreError>
    ensures { let at = rctx_at (E.answers env.now) place in
        let formals = resolved_formals (outside_the_body at) bare (option_copied params.entry) in
        let read = expr_part at (option_copied body.entry) in
        Lowers HasGivenBody (behind (lower_body kind skipped formals read)) state.old result state.new }
{
    state.close_labels(alloc);
    let _ = state.enter_root();
    let lowered = body_form(alloc, env, place, state, kind, skipped, bare, params, body)?;
    state.record_root(lowered.1)?;
    state.outside_root();
    Ok(lowered)
}

/// Lowers the parameters of an item without a body, which is missing where it must be there.
#[tactic(auto, unfolding(crate::specs::Roots::body_of, crate::specs::Roots::report_missing))]
fn missing_item<E: LowerEnv>(
    alloc: Global,
    env: &E,
    place: LowerCtx,
    state: &mut StoredBody,
    kind: Option<CoroutineKind>,
    bare: bool,
    node: InFile<AstPtr>,
    required: Option<MissingBodyItemKind>,
    params: Option<&ast::ParamList>,
) -> Result<(Given, ExprId), StoreError>
    ensures { let at = rctx_at (E.answers env.now) place in
        let formals = resolved_formals (outside_the_body at) bare (option_copied params.entry) in
        Lowers HasGivenBody (body_of kind false node required formals tree.no_expr) state.old result state.new }
{
    if let Some(kind) = required {
        state.report(ExpressionStoreDiagnostics::MissingBody { node, kind })?;
    }
    behind_formals(alloc, env, place, state, kind, false, bare, params, None)
}

/// Lowers the parameters and the body of an item that isn't skipped.
#[tactic(auto, unfolding(crate::specs::Roots::body_of, crate::specs::Roots::report_missing))]
fn kept_item<E: LowerEnv>(
    alloc: Global,
    env: &E,
    place: LowerCtx,
    state: &mut StoredBody,
    kind: Option<CoroutineKind>,
    bare: bool,
    node: InFile<AstPtr>,
    required: Option<MissingBodyItemKind>,
    params: Option<&ast::ParamList>,
    body: Option<&ast::Expr>,
) -> Result<(Given, ExprId), StoreError>
    ensures { let at = rctx_at (E.answers env.now) place in
        let formals = resolved_formals (outside_the_body at) bare (option_copied params.entry) in
        let read = expr_part at (option_copied body.entry) in
        Lowers HasGivenBody (body_of kind false node required formals read) state.old result state.new }
{
    match body {
        None => missing_item(alloc, env, place, state, kind, bare, node, required, params),
        Some(_) => behind_formals(alloc, env, place, state, kind, false, bare, params, body),
    }
}

/// Lowers the parameters and the body of an item. Where the item is skipped, its body is absent, it is no coroutine, and no pattern is
/// read.
#[tactic(auto, unfolding(crate::specs::Roots::body_of))]
fn lower_item<E: LowerEnv>(
    alloc: Global,
    env: &E,
    place: LowerCtx,
    state: &mut StoredBody,
    kind: Option<CoroutineKind>,
    owner: DefWithBodyId,
    node: AstPtr,
    params: Option<&ast::ParamList>,
    body: Option<&ast::Expr>,
) -> Result<(Given, ExprId), StoreError>
    ensures { let at = rctx_at (E.answers env.now) place in
        let item = item_of kind at owner node (option_copied params.entry) (option_copied body.entry) in
        Lowers HasGivenBody item state.old result state.new }
{
    let container = env.container(owner);
    let bare = must_be_bare(container, body.is_some());
    if env.skip(owner) {
        return behind_formals(alloc, env, place, state, None, true, bare, params, None);
    }
    let required = required_body_kind(owner, container);
    let node = InFile {
        file_id: place.file_id,
        value: node,
    };
    let params = if is_function(owner) { params } else { None };
    kept_item(
        alloc, env, place, state, kind, bare, node, required, params, body,
    )
}

/// The node of the `self` that the item's body has.
fn item_self<E: LowerEnv>(
    env: &E,
    place: LowerCtx,
    owner: DefWithBodyId,
    params: Option<&ast::ParamList>,
) -> Option<InFile<AstPtr>>
    ensures { (has_body : Bool) → let at = rctx_at (E.answers env.now) place in
        result ≡ self_source (item_formals at owner (option_copied params.entry) has_body).receiver }
{
    if env.skip(owner) || is_function(owner) {
        self_node(env, place, params)
    } else {
        None
    }
}

/// Each parameter, by what the outside hands its argument to and by what was written.
fn params_of(
    mut formals: &[PatId],
    mut written: &[PatId],
    alloc: Global,
) -> Result<Seq<Param<PatId>>, AllocError>
    ensures { IfOk result (λ ps. ps ≡ both formals.entry.now written.entry.now) }
{
    let mut params = Seq::new(alloc);
    while let [formal, other_formals @ ..] = formals {
        let [user_written, others @ ..] = written else {
            return Ok(params);
        };
        params.push(Param {
            formal: *formal,
            user_written: *user_written,
        })?;
        formals = other_formals;
        written = others;
    }
    Ok(params)
}

fn self_param_of(formal: Option<BindingId>, written: Option<BindingId>) -> Option<Param<BindingId>>
    ensures { result ≡ both_if_present formal written }
{
    match (formal, written) {
        (Some(formal), Some(user_written)) => Some(Param {
            formal,
            user_written,
        }),
        _ => None,
    }
}

/// The body of what is stored by then, with the node of `self`.
fn finished(
    alloc: Global,
    state: StoredBody,
    given: Given,
    self_param: Option<InFile<AstPtr>>,
) -> Result<(Body, BodySourceMap), AllocError>
    ensures store { IfOk result (λ r. r.0.store ≡ store_of state.stored) }
    ensures source_map { IfOk result (λ r. r.1.store ≡ map_of state.stored) }
    ensures params { IfOk result (λ r. r.0.params ≡ both given.0.1 given.1.1) }
    ensures receiver { IfOk result (λ r. r.0.self_param ≡ both_if_present given.0.0 given.1.0) }
    ensures self_param { IfOk result (λ r. r.1.self_param ≡ self_param) }
    ensures in_range { IfOk result (λ r. InRange r.0.store r.1.store) }
{
    let (formals, written) = given;
    match params_of(formals.1.as_slice(), written.1.as_slice(), alloc) {
        Ok(params) => {
            let (store, source_map) = state.into_store().finish();
            let body = Body {
                store,
                params,
                self_param: self_param_of(formals.0, written.0),
            };
            let map = BodySourceMap {
                self_param,
                store: source_map,
            };
            Ok((body, map))
        }
        Err(refused) => {
            drop(state);
            Err(refused)
        }
    }
}

/// The steps of `lower_body`, with what they store.
fn body_steps<E: LowerEnv>(
    alloc: Global,
    db: &E,
    owner: DefWithBodyId,
    syntax_node: AstPtr,
    current_file_id: HirFileId,
    inside: ModuleId,
    params: Option<&ast::ParamList>,
    body: Option<&ast::Expr>,
    is_async_fn: bool,
    is_gen_fn: bool,
) -> Result<(Body, BodySourceMap), LowerError>
    ensures stores { let at = body_rctx (E.answers db.now) owner current_file_id inside is_async_fn in
        let kind = coroutine_kind is_async_fn is_gen_fn in
        let item = item_of kind at owner syntax_node (option_copied params.entry) (option_copied body.entry) in
        IfOk result (λ r. StoresFromNothing item 4294967295 r.0.store r.1.store) }
    ensures given { let at = body_rctx (E.answers db.now) owner current_file_id inside is_async_fn in
        let kind = coroutine_kind is_async_fn is_gen_fn in
        let item = item_of kind at owner syntax_node (option_copied params.entry) (option_copied body.entry) in
        IfOk result (λ r. GivenFromNothing item 4294967295 r.0) }
    ensures self_source { let at = body_rctx (E.answers db.now) owner current_file_id inside is_async_fn in
        let formals = item_formals at owner (option_copied params.entry) (is_some (option_copied body.entry)) in
        IfOk result (λ r. r.1.self_param ≡ self_source formals.receiver) }
    ensures in_range { IfOk result (λ r. InRange r.0.store r.1.store) }
    ensures full { let at = body_rctx (E.answers db.now) owner current_file_id inside is_async_fn in
        let kind = coroutine_kind is_async_fn is_gen_fn in
        let item = item_of kind at owner syntax_node (option_copied params.entry) (option_copied body.entry) in
        IsErrOf result LowerError.Full → RefusedAtEnd item 4294967295 }
    ensures own { result ≢ Err LowerError.Failed }
{
    let place = LowerCtx {
        file_id: current_file_id,
        module_id: inside,
        mode: LoweringMode::Analysis,
        await_location: await_location_of(owner, is_async_fn),
        impl_trait: ImplTrait::Error,
        in_impl: false,
        lifetimes: LifetimeScope::Nowhere,
        left: db.expansion_limit(),
    };
    let kind = coroutine_kind_of(is_async_fn, is_gen_fn);
    let mut state = StoredBody::new(alloc, u32::MAX, db.hash_key());
    match lower_item(
        alloc,
        db,
        place,
        &mut state,
        kind,
        owner,
        syntax_node,
        params,
        body,
    ) {
        Ok((given, _root)) => {
            let self_param = item_self(db, place, owner, params);
            match finished(alloc, state, given, self_param) {
                Ok(lowered) => Ok(lowered),
                Err(_) => Err(LowerError::Memory),
            }
        }
        Err(fault) => {
            drop(state);
            Err(LowerError::from(fault))
        }
    }
}

/// Lowers the body of an item and its parameters (upstream's function of this name).
///
/// - `Ok`: the root is trace-equivalent to the written body (`same_meaning`). Store, source map and diagnostics are those that the
///   arguments require (`one_result`), and all of it fits (`fits`). `specs/Clauses.antt` has the words of all clauses.
/// - `Full`: the arguments require more entries than an arena holds, or overflow a counter of 32 bits (`too_large`).
/// - `Memory`: an allocation was refused.
/// - `Failed`: never (`own`).
/// - Each outcome but `Memory` is what the steps of the description leave, from nothing (`steps`).
///
/// What is lowered:
///
/// - With `is_async_fn` or `is_gen_fn` the body is a coroutine, whose prelude binds the parameters.
/// - Parameters are lowered only if the owner is a function or is skipped: `self` first, then those that no `cfg` disables.
/// - In an extern block, and in a trait if the function has no body, a parameter must be a plain name or `_`, also as the expansion of a
///   macro call. Any other one is missing and requires a diagnostic.
/// - A skipped body is a missing expression, is no coroutine, and requires no diagnostic of its own. Each of its parameters is missing.
pub fn lower_body<E: LowerEnv>(
    alloc: Global,
    db: &E,
    owner: DefWithBodyId,
    syntax_node: AstPtr,
    current_file_id: HirFileId,
    inside: ModuleId,
    params: Option<&ast::ParamList>,
    body: Option<&ast::Expr>,
    is_async_fn: bool,
    is_gen_fn: bool,
) -> Result<(Body, BodySourceMap), LowerError>
    ensures same_meaning { let x = body_input (E.answers db.now) owner syntax_node current_file_id inside
        (option_copied params.entry) (option_copied body.entry) is_async_fn is_gen_fn in IfOk result (λ r. HasSameMeaning x r.0 r.1) }
    ensures one_result { let x = body_input (E.answers db.now) owner syntax_node current_file_id inside
        (option_copied params.entry) (option_copied body.entry) is_async_fn is_gen_fn in IfOk result (λ r. IsOneResult x r.0 r.1) }
    ensures expanded { let x = body_input (E.answers db.now) owner syntax_node current_file_id inside
        (option_copied params.entry) (option_copied body.entry) is_async_fn is_gen_fn in IfOk result (λ r. HasExpansions x r.1) }
    ensures stored { let x = body_input (E.answers db.now) owner syntax_node current_file_id inside
        (option_copied params.entry) (option_copied body.entry) is_async_fn is_gen_fn in IfOk result (λ r. HasStoredData x r.0 r.1) }
    ensures params { let x = body_input (E.answers db.now) owner syntax_node current_file_id inside
        (option_copied params.entry) (option_copied body.entry) is_async_fn is_gen_fn in IfOk result (λ r. HasBodyParams x r.0 r.1) }
    ensures self_source { let x = body_input (E.answers db.now) owner syntax_node current_file_id inside
        (option_copied params.entry) (option_copied body.entry) is_async_fn is_gen_fn in IfOk result (λ r. HasSelfSource x r.1) }
    ensures made_once { IfOk result (λ r. MadeOnce r.0.store (formals_of r.0).1) }
    ensures in_range { IfOk result (λ r. InRange r.0.store r.1.store) }
    ensures too_large { let x = body_input (E.answers db.now) owner syntax_node current_file_id inside
        (option_copied params.entry) (option_copied body.entry) is_async_fn is_gen_fn in IsErrOf result LowerError.Full → BodyExceeds x }
    ensures fits { let x = body_input (E.answers db.now) owner syntax_node current_file_id inside
        (option_copied params.entry) (option_copied body.entry) is_async_fn is_gen_fn in IfOk result (λ r. BodyFits x) }
    ensures steps { let at = body_rctx (E.answers db.now) owner current_file_id inside is_async_fn in
        let kind = coroutine_kind is_async_fn is_gen_fn in
        let item = item_of kind at owner syntax_node (option_copied params.entry) (option_copied body.entry) in
        FromSteps item 4294967295 result }
    ensures own { result ≢ Err LowerError.Failed }
{
    body_steps(
        alloc,
        db,
        owner,
        syntax_node,
        current_file_id,
        inside,
        params,
        body,
        is_async_fn,
        is_gen_fn,
    )
}
