//! What is listed of a document.

ghost use Rattle.std.specs.Prelude.{◌≡◌, ◌⊎◌, IfErr};

use crate::line::Line;
use crate::otherwise::Otherwise;
use crate::question::sort_of;
use hir_alias::signature::AliasSignature;
use hir_env::env::LowerEnv;
use hir_env::lang::LangItems;
use hir_recorder::{Asked, Recorder};
use hir_store::ids::LangItemId;
use lower_json::document::Document;
use lower_run::disposal::Disposal;
use lower_run::failure::Failure;
use lower_run::mode::Mode;
use lower_run::run::{Lists, tree_listing};
use std::alloc::{AllocError, Global};

/// What its tree is lowered to where all that isn't asked for it is answered otherwise.
#[derive(Clone, Copy)]
pub struct Again;

/// A line for each answer: its sort, and whether the tree is lowered to something else where that alone is answered otherwise.
#[derive(Clone, Copy)]
pub struct Each;

/// A line for each question that is asked for its tree, in order.
#[derive(Clone, Copy)]
pub struct Log;

fn other_item(item: Option<LangItemId>) -> Option<LangItemId> {
    match item {
        Some(_) => None,
        None => Some(LangItemId(0)),
    }
}

/// Of these items those that are lacking, and no other.
fn other_items(items: &LangItems) -> LangItems {
    LangItems {
        range_full: other_item(items.range_full),
        range_from: other_item(items.range_from),
        range_from_copy: other_item(items.range_from_copy),
        range_to: other_item(items.range_to),
        range_copy: other_item(items.range_copy),
        range: other_item(items.range),
        range_to_inclusive_copy: other_item(items.range_to_inclusive_copy),
        range_to_inclusive: other_item(items.range_to_inclusive),
        range_inclusive_copy: other_item(items.range_inclusive_copy),
        range_inclusive_new: other_item(items.range_inclusive_new),
        try_trait_from_output: other_item(items.try_trait_from_output),
        try_trait_branch: other_item(items.try_trait_branch),
        control_flow_continue: other_item(items.control_flow_continue),
        control_flow_break: other_item(items.control_flow_break),
        residual_into_try_type: other_item(items.residual_into_try_type),
        try_trait_from_residual: other_item(items.try_trait_from_residual),
        into_iter_into_iter: other_item(items.into_iter_into_iter),
        iterator_next: other_item(items.iterator_next),
        option_some: other_item(items.option_some),
        option_none: other_item(items.option_none),
        range_min: other_item(items.range_min),
        range_max: other_item(items.range_max),
        range_sub: other_item(items.range_sub),
    }
}

/// The signature of the first alias, where there is one.
fn first_signature(document: &Document) -> Option<&AliasSignature> {
    document.env.alias(document.aliases.as_slice().first()?.id)
}

/// The listing of a document's tree where an object answers, so that lowering is built once.
fn by_object(
    alloc: Global,
    mode: Mode,
    document: &Document,
    env: &dyn LowerEnv,
) -> Result<String, Failure>
    ensures { IfErr result (λ e. (e ≡ Failure.Memory) ⊎ (e ≡ Failure.Full)) }
{
    tree_listing(alloc, Disposal::Forget, mode, document, &env)
}

/// The listing of a document's tree, with what is asked for it.
fn recorded(alloc: Global, mode: Mode, document: &Document) -> Result<(String, Vec<Asked>), Failure>
    ensures { IfErr result (λ e. (e ≡ Failure.Memory) ⊎ (e ≡ Failure.Full)) }
{
    let recorder = Recorder::new(alloc, &document.env);
    let listed = by_object(alloc, mode, document, &recorder);
    let asked = recorder.into_asked();
    let text = listed?;
    match asked {
        Some(asked) => Ok((text, asked)),
        None => Err(Failure::Memory),
    }
}

/// The listing of a document's tree where what wasn't asked is answered otherwise, and what `but` was about.
fn listed_otherwise(
    alloc: Global,
    mode: Mode,
    document: &Document,
    log: &[Asked],
    but: Option<&Asked>,
) -> Result<String, Failure>
    ensures { IfErr result (λ e. (e ≡ Failure.Memory) ⊎ (e ≡ Failure.Full)) }
{
    let env = Otherwise {
        behind: &document.env,
        log,
        but,
        items: other_items(document.env.lang_items()),
        spare: first_signature(document),
    };
    by_object(alloc, mode, document, &env)
}

impl Lists for Again {
    fn listing(&self, alloc: Global, mode: Mode, document: &Document) -> Result<String, Failure> {
        let (_, asked) = recorded(alloc, mode, document)?;
        listed_otherwise(alloc, mode, document, asked.as_slice(), None)
    }
}

impl Lists for Log {
    fn listing(&self, alloc: Global, mode: Mode, document: &Document) -> Result<String, Failure> {
        let (_, asked) = recorded(alloc, mode, document)?;
        let mut lines = String::new(alloc);
        for one in asked.as_slice() {
            if writeln!(lines, "{}", Line(one)).is_err() {
                return Err(Failure::Memory);
            }
        }
        Ok(lines)
    }
}

/// Adds the line of an answer.
fn add_line(lines: &mut String, asked: &Asked, is_seen: bool) -> Result<(), AllocError> {
    lines.push_str(sort_of(asked))?;
    lines.push_str(if is_seen { " seen\n" } else { " unseen\n" })
}

impl Lists for Each {
    fn listing(&self, alloc: Global, mode: Mode, document: &Document) -> Result<String, Failure> {
        let (text, asked) = recorded(alloc, mode, document)?;
        let mut lines = String::new(alloc);
        for one in asked.as_slice() {
            let other = listed_otherwise(alloc, mode, document, asked.as_slice(), Some(one))?;
            if add_line(&mut lines, one, other.as_str() != text.as_str()).is_err() {
                return Err(Failure::Memory);
            }
        }
        Ok(lines)
    }
}
