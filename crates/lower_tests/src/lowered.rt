//! Documents of items, lowered, and what is asked of their bodies.

use crate::documents::{AskOfDocument, Said, said_by_error, said_of};
use crate::macros::{FOR_EXPRS, FOR_PATS, FOR_STMTS, FOR_TYPES};
use hir_base::node::{AstPtr, HirFileId};
use hir_env::env::LowerEnv;
use hir_env::lang::LangItems;
use hir_env::resolved::BuiltinShadowMode;
use hir_lower::{Body, BodySourceMap, LowerError, lower_body};
use hir_store::ids::{LangItemId, MacroDefId, ModuleId};
use hir_tables::table::TableEnv;
use hir_test_envs::beforehand::Beforehand;
use hir_test_envs::cyclic::Cyclic;
use hir_test_envs::endless::Endless;
use hir_test_envs::lacking::Lacking;
use hir_test_envs::one_module::OneModule;
use hir_test_envs::one_shadow::OneShadow;
use lower_json::document::{Document, Root, Tree};
use std::alloc::Global;

/// What answers where a body is lowered: the tables of its document, or an object.
#[derive(Clone, Copy)]
pub enum EnvironmentKind {
    Tables,
    /// The tables, as an object.
    Object,
    /// Each macro call is expanded to another one.
    Endless,
    /// Each context was made in itself.
    Circles,
    /// What is known in this module alone.
    Module(ModuleId),
    /// Names that are asked about with another shadow stand for nothing.
    Shadow(BuiltinShadowMode),
    /// Other calls were expanded beforehand for each call, others for each kind of what it stands for.
    Beforehand,
    /// This item of the language isn't there.
    Without(LangItemId),
    /// The item of newer ranges with an included end is that of those with an excluded one.
    EqualItems,
}

/// A lowered body with its source map, or why there is none.
pub type Lowered = Result<(Body, BodySourceMap), LowerError>;

/// What is lowered. Whatever hands it on knows nothing of trees, which are dear to prove anything about.
pub trait Item {
    fn lowered<E: LowerEnv>(&self, alloc: Global, env: &E) -> Lowered;
}

impl Item for Document {
    fn lowered<E: LowerEnv>(&self, alloc: Global, env: &E) -> Lowered {
        let Tree::Fn(item) = &self.tree else {
            return Err(LowerError::Failed);
        };
        let body = match &item.body {
            Some(body) => Some(body.get()),
            None => None,
        };
        lower_body(
            alloc,
            env,
            self.owner,
            AstPtr {
                node: item.id,
                range: item.range,
            },
            HirFileId(0),
            ModuleId(0),
            item.params.as_ref(),
            body,
            item.async_,
            item.gen_,
        )
    }
}

pub fn lowered_by_object<I: Item>(alloc: Global, object: &dyn LowerEnv, item: &I) -> Lowered {
    item.lowered(alloc, &object)
}

/// These are the lang items.
fn lowered_with<'a, I: Item>(
    alloc: Global,
    behind: &'a TableEnv,
    items: &'a LangItems,
    item: &I,
) -> Lowered {
    lowered_by_object(alloc, &Lacking { behind, items }, item)
}

fn other_than(absent: LangItemId, item: Option<LangItemId>) -> Option<LangItemId> {
    if item == Some(absent) { None } else { item }
}

/// All lang items except for one.
fn items_without(absent: LangItemId) -> LangItems {
    let all = LangItems::numbered();
    LangItems {
        range_full: other_than(absent, all.range_full),
        range_from: other_than(absent, all.range_from),
        range_from_copy: other_than(absent, all.range_from_copy),
        range_to: other_than(absent, all.range_to),
        range_copy: other_than(absent, all.range_copy),
        range: other_than(absent, all.range),
        range_to_inclusive_copy: other_than(absent, all.range_to_inclusive_copy),
        range_to_inclusive: other_than(absent, all.range_to_inclusive),
        range_inclusive_copy: other_than(absent, all.range_inclusive_copy),
        range_inclusive_new: other_than(absent, all.range_inclusive_new),
        try_trait_from_output: other_than(absent, all.try_trait_from_output),
        try_trait_branch: other_than(absent, all.try_trait_branch),
        control_flow_continue: other_than(absent, all.control_flow_continue),
        control_flow_break: other_than(absent, all.control_flow_break),
        residual_into_try_type: other_than(absent, all.residual_into_try_type),
        try_trait_from_residual: other_than(absent, all.try_trait_from_residual),
        into_iter_into_iter: other_than(absent, all.into_iter_into_iter),
        iterator_next: other_than(absent, all.iterator_next),
        option_some: other_than(absent, all.option_some),
        option_none: other_than(absent, all.option_none),
        range_min: other_than(absent, all.range_min),
        range_max: other_than(absent, all.range_max),
        range_sub: other_than(absent, all.range_sub),
    }
}

/// Other calls were expanded beforehand.
fn lowered_with_pairs<I: Item>(alloc: Global, behind: &TableEnv, item: &I) -> Lowered {
    let beforehand = Beforehand {
        behind,
        exprs: &FOR_EXPRS,
        stmts: &FOR_STMTS,
        pats: &FOR_PATS,
        types: &FOR_TYPES,
    };
    lowered_by_object(alloc, &beforehand, item)
}

/// Each call is expanded to another one.
fn lowered_without_end<I: Item>(alloc: Global, behind: &TableEnv, item: &I) -> Lowered {
    lowered_by_object(alloc, &Endless { behind }, item)
}

/// Each context was made in itself.
fn lowered_in_circles<I: Item>(alloc: Global, behind: &TableEnv, item: &I) -> Lowered {
    let outer = MacroDefId(9);
    lowered_by_object(alloc, &Cyclic { behind, outer }, item)
}

/// What is known in this module alone is known.
fn lowered_in_module<I: Item>(
    alloc: Global,
    behind: &TableEnv,
    module: ModuleId,
    item: &I,
) -> Lowered {
    lowered_by_object(alloc, &OneModule { behind, module }, item)
}

/// Names that are asked about with another shadow stand for nothing.
fn lowered_by_shadow<I: Item>(
    alloc: Global,
    behind: &TableEnv,
    shadow: BuiltinShadowMode,
    item: &I,
) -> Lowered {
    lowered_by_object(alloc, &OneShadow { behind, shadow }, item)
}

/// This item of the language isn't there.
fn lowered_without<I: Item>(
    alloc: Global,
    behind: &TableEnv,
    absent: LangItemId,
    item: &I,
) -> Lowered {
    lowered_with(alloc, behind, &items_without(absent), item)
}

/// The newer ranges with an included end are made by the item of those with an excluded one.
fn equal_items() -> LangItems {
    let numbered = LangItems::numbered();
    LangItems {
        range_inclusive_copy: numbered.range_copy,
        ..numbered
    }
}

fn lowered_with_equal_items<I: Item>(alloc: Global, behind: &TableEnv, item: &I) -> Lowered {
    lowered_with(alloc, behind, &equal_items(), item)
}

fn lowered_by<I: Item>(alloc: Global, by: EnvironmentKind, behind: &TableEnv, item: &I) -> Lowered {
    match by {
        EnvironmentKind::Tables => item.lowered(alloc, behind),
        EnvironmentKind::Object => lowered_by_object(alloc, behind, item),
        EnvironmentKind::Endless => lowered_without_end(alloc, behind, item),
        EnvironmentKind::Circles => lowered_in_circles(alloc, behind, item),
        EnvironmentKind::Module(module) => lowered_in_module(alloc, behind, module, item),
        EnvironmentKind::Shadow(shadow) => lowered_by_shadow(alloc, behind, shadow, item),
        EnvironmentKind::Beforehand => lowered_with_pairs(alloc, behind, item),
        EnvironmentKind::Without(absent) => lowered_without(alloc, behind, absent, item),
        EnvironmentKind::EqualItems => lowered_with_equal_items(alloc, behind, item),
    }
}

/// A question to a body, with the answer that it has to have.
pub trait AskOfBody {
    fn said(&self, alloc: Global, body: &Body, source_map: &BodySourceMap) -> Said;
}

/// The question to the body that the item in a document is lowered to.
struct OfBody<'a, Q> {
    by: EnvironmentKind,
    own: &'a Q,
}

impl<Q> Drop for OfBody<'_, Q> {
    fn drop(self) {
        let OfBody { by: _, own: _ } = self;
    }
}

impl<Q: AskOfBody> AskOfDocument for OfBody<'_, Q> {
    /// No other function owns a body.
    fn said(&self, alloc: Global, document: &mut Document) -> Said {
        match lowered_by(alloc, self.by, &document.env, &*document) {
            Ok((body, source_map)) => {
                let said = self.own.said(alloc, &body, &source_map);
                drop(body);
                drop(source_map);
                said
            }
            Err(error) => said_by_error(error),
        }
    }
}

/// How the body answers that the item in the document of a text is lowered to.
pub fn said_of_body<Q: AskOfBody>(alloc: Global, text: &str, by: EnvironmentKind, own: &Q) -> Said {
    said_of(alloc, Root::Fn, text, &OfBody { by, own })
}
