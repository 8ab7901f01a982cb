//! What arenas tell of their room, recorded expansions by call, and the entries and children that a store lends.

use crate::documents::{Said, own_if};
use hir_base::node::{HirFileId, InFile, NodeId, TextRange};
use hir_store::arena::Arena;
use hir_store::builder::ExpressionStoreBuilder;
use hir_store::error::StoreError;
use hir_store::expansions::ExpandedCall;
use hir_store::hir::Expr;
use hir_store::ids::{ExprId, LifetimeRefId};
use hir_store::type_ref::LifetimeRef;
use std::alloc::Global;
use std::test::Fail;

/// The limit of an arena, how many calls of `alloc` are made in it, what `spare` answers then, and what one more call answers.
pub type Room = (u32, u32, u32, Result<LifetimeRefId, StoreError>);

/// A page has 1,024 entries.
pub const PAGES: [Room; 6] = [
    (u32::MAX, 0, 0, Ok(LifetimeRefId(0))),
    (u32::MAX, 1, 1023, Ok(LifetimeRefId(1))),
    (u32::MAX, 1023, 1, Ok(LifetimeRefId(1023))),
    (u32::MAX, 1024, 0, Ok(LifetimeRefId(1024))),
    (u32::MAX, 1025, 1023, Ok(LifetimeRefId(1025))),
    (u32::MAX, 2048, 0, Ok(LifetimeRefId(2048))),
];

/// A limit cuts what is spare.
pub const LIMITS: [Room; 4] = [
    (3, 1, 2, Ok(LifetimeRefId(1))),
    (3, 3, 0, Err(StoreError::Full)),
    (1030, 1025, 5, Ok(LifetimeRefId(1025))),
    (1030, 1030, 0, Err(StoreError::Full)),
];

/// Stores so many entries, up to the first refusal.
fn fill(arena: &mut Arena<LifetimeRef>, calls: u32) -> Result<(), StoreError> {
    for _ in 0..calls {
        arena.alloc(LifetimeRef::Error)?;
    }
    Ok(())
}

/// How an arena answers.
pub fn said_of_room(alloc: Global, room: Room) -> Said {
    let (limit, calls, own_spare, own_more) = room;
    let mut arena = Arena::with_limit(alloc, limit);
    let filled = fill(&mut arena, calls);
    let spare = arena.spare();
    let len = arena.len();
    let more = arena.alloc(LifetimeRef::Error);
    drop(arena);
    let is_refused = more == Err(StoreError::Memory) && own_more.is_ok();
    if is_refused || filled == Err(StoreError::Memory) {
        return Said::Memory;
    }
    own_if(filled == Ok(()) && (spare, len, more) == (own_spare, calls, own_more))
}

#[test]
fn a_page_has_1024_entries(rt: HostRuntime) {
    for room in PAGES.iter() {
        assert!(rt; said_of_room(rt.alloc(), *room) == Said::Own);
    }
}

#[test]
fn a_limit_cuts_what_is_spare(rt: HostRuntime) {
    for room in LIMITS.iter() {
        assert!(rt; said_of_room(rt.alloc(), *room) == Said::Own);
    }
}

/// Whether each of the calls behind the first, as many as fill its page, is answered with a number. The first makes two requests for
/// memory, and those behind it none.
pub fn fills_its_page(alloc: Global) -> bool {
    let mut arena = Arena::with_limit(alloc, u32::MAX);
    let _ = arena.alloc(LifetimeRef::Error);
    let mut fills = true;
    for _ in 0..1023 {
        if arena.alloc(LifetimeRef::Error).is_err() {
            fills = false;
        }
    }
    drop(arena);
    fills
}

#[test]
fn the_rest_of_a_page_takes_no_memory(rt: HostRuntime) {
    assert!(rt; fills_its_page(rt.alloc()));
}

/// How one more call is answered: with the next number up to the limit, or refused for memory, which changes nothing.
fn said_of_one_more(arena: &mut Arena<LifetimeRef>, limit: u32) -> Said {
    let len = arena.len();
    let spare = arena.spare();
    let answer = arena.alloc(LifetimeRef::Error);
    if answer == Ok(LifetimeRefId(len)) {
        return own_if(len < limit);
    }
    if arena.len() != len || arena.spare() != spare {
        return Said::Other;
    }
    match answer {
        Err(StoreError::Memory) if len < limit => Said::Memory,
        Err(StoreError::Full) => own_if(len >= limit),
        _ => Said::Other,
    }
}

/// How so many calls are answered, one of which may be refused for memory.
pub fn said_of_each(alloc: Global, limit: u32, calls: u32) -> Said {
    let mut arena = Arena::with_limit(alloc, limit);
    let mut said = Said::Own;
    for _ in 0..calls {
        match said_of_one_more(&mut arena, limit) {
            Said::Own => {}
            Said::Memory if said == Said::Own => said = Said::Memory,
            _ => said = Said::Other,
        }
    }
    drop(arena);
    said
}

const CALL: InFile<NodeId> = InFile {
    file_id: HirFileId(0),
    value: NodeId(5),
};

const RANGE: TextRange = TextRange { start: 5, end: 6 };

fn expanded(range: Option<TextRange>, file: u32) -> ExpandedCall {
    ExpandedCall {
        call: CALL,
        range,
        file: HirFileId(file),
    }
}

#[test]
fn of_equal_calls_the_last_counts(rt: HostRuntime) -> Result<(), Fail> {
    let mut builder = ExpressionStoreBuilder::new(rt.alloc(), 1);
    let recorded = [
        builder.record_expansion(expanded(None, 1)),
        builder.record_expansion(expanded(Some(RANGE), 2)),
        builder.record_expansion(expanded(Some(RANGE), 3)),
        builder.record_expansion(expanded(None, 4)),
    ];
    let (store, source_map) = builder.finish();
    let with_range = source_map.expansion(CALL, Some(RANGE));
    let without = source_map.expansion(CALL, None);
    let other = source_map.expansion(CALL, Some(TextRange { start: 5, end: 7 }));
    let all = source_map.expansions().len();
    drop(source_map);
    drop(store);
    assert!(rt; recorded == [Ok(()); 4]);
    assert!(rt; with_range == Some(HirFileId(3)));
    assert!(rt; without == Some(HirFileId(4)));
    assert!(rt; other.is_none());
    assert!(rt; all == 4);
    Ok(())
}

/// Stores two expressions, and an `if` of both.
fn store_if(builder: &mut ExpressionStoreBuilder) -> Result<(), StoreError> {
    let condition = builder.alloc_expr(Expr::Missing, None)?;
    let then_branch = builder.alloc_expr(Expr::Underscore, None)?;
    let whole = Expr::If {
        condition,
        then_branch,
        else_branch: None,
    };
    builder.alloc_expr(whole, None)?;
    Ok(())
}

#[test]
fn a_store_lends_entries_and_children(rt: HostRuntime) -> Result<(), Fail> {
    let mut builder = ExpressionStoreBuilder::new(rt.alloc(), 3);
    let stored = store_if(&mut builder);
    let (store, source_map) = builder.finish();
    let mut children = store.children(ExprId(2));
    let named = [children.next(), children.next(), children.next()];
    let of_none = store.children(ExprId(3)).next();
    let mut underscores = None;
    for (id, expr) in store.exprs() {
        if matches!(expr, Expr::Underscore) {
            underscores = Some(id);
        }
    }
    drop(children);
    drop(source_map);
    drop(store);
    assert!(rt; stored == Ok(()));
    assert!(rt; named == [Some(ExprId(0)), Some(ExprId(1)), None]);
    assert!(rt; of_none.is_none());
    assert!(rt; underscores == Some(ExprId(1)));
    Ok(())
}
