//! Labels of what is open, made by calls: how many entries a search looks at.

use crate::documents::{AskOfDocument, Said, own_if, said_of};
use crate::paths::EMPTY;
use hir_env::env::LowerEnv;
use hir_lower::{LabelStacks, ProbeCount, find_label};
use hir_store::ids::{HygieneId, LabelId};
use hir_store::name::Name;
use lower_json::document::{Document, Root};
use std::alloc::{AllocError, Global};

/// What a jump by a name finds inside all of so many labels: the label, if any, and how many entries were looked at.
#[derive(Clone, Copy)]
pub struct Found {
    labels: u32,
    name: u32,
    label: Option<LabelId>,
    looks: u128,
}

/// So many labels of different names, each inside the one before.
fn enter_all(stacks: &mut LabelStacks, labels: u32) -> Result<(), AllocError> {
    for number in 0..labels {
        stacks.enter_label(Name::Generated(number), HygieneId::ROOT, LabelId(number))?;
    }
    Ok(())
}

fn is_found<E: LowerEnv>(env: &E, stacks: &LabelStacks, own: Found) -> bool {
    let mut looks = ProbeCount::new();
    let name = Name::Generated(own.name);
    let label = find_label(env, stacks, &name, HygieneId::ROOT, &mut looks);
    label.ok() == own.label && looks.count() == own.looks
}

fn said_inside<E: LowerEnv>(alloc: Global, env: &E, own: Found) -> Said {
    let mut stacks = LabelStacks::new(alloc);
    let said = match enter_all(&mut stacks, own.labels) {
        Ok(()) => own_if(is_found(env, &stacks, own)),
        Err(AllocError) => Said::Memory,
    };
    drop(stacks);
    said
}

impl AskOfDocument for Found {
    fn said(&self, alloc: Global, document: &mut Document) -> Said {
        said_inside(alloc, &document.env, *self)
    }
}

/// One of a hundred, the first.
pub const FIRST: Found = Found {
    labels: 100,
    name: 0,
    label: Some(LabelId(0)),
    looks: 1,
};

const LAST: Found = Found {
    labels: 100,
    name: 99,
    label: Some(LabelId(99)),
    looks: 1,
};

const NONE: Found = Found {
    labels: 100,
    name: 100,
    label: None,
    looks: 0,
};

#[test]
fn one_entry_is_looked_at_among_a_hundred(rt: HostRuntime) {
    let alloc = rt.alloc();
    assert!(rt; said_of(alloc, Root::Path, EMPTY, &FIRST) == Said::Own);
    assert!(rt; said_of(alloc, Root::Path, EMPTY, &LAST) == Said::Own);
}

#[test]
fn nothing_is_looked_at_for_a_name_that_is_not_open(rt: HostRuntime) {
    assert!(rt; said_of(rt.alloc(), Root::Path, EMPTY, &NONE) == Said::Own);
}
