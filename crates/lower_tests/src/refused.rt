//! Calls of which a request for memory may be refused: each is answered as it is where none is, or `Memory`, and behind that a collector
//! fails for good. `scripts/refusals --tests` runs each of these tests with each of its requests refused in turn.

use crate::arenas::{LIMITS, PAGES, fills_its_page, said_of_each, said_of_room};
use crate::calls::{
    ENDLESS, ITS_OWN_PARENT, MISSING, NO_LABEL, NONE, NONE_ENTERED, OTHER_KIND, SIX, THREE_ENTERED,
};
use crate::collectors::{Call, said_of_calls};
use crate::coroutines::{BoundByLets, CLOSURE, FUNCTION, NUMBERS};
use crate::definitions::{OF_TWICE, TWICE};
use crate::documents::{Said, said_of};
use crate::endless::{ARGUMENTS as CALLS, NO_ARGUMENTS as NO_CALLS, OF_ARGUMENTS, OF_NO_ARGUMENTS};
use crate::items::{
    ALIASES, BARE_ALIASES, BOUNDED, IMPLS, Item, MODULE, PARAMS, TRAITS, said_of_item,
};
use crate::lacking::{NEWER_INCLUSIVE, NEWER_RANGE};
use crate::lowered::{EnvironmentKind, said_of_body};
use crate::objects::{BLOCK_IN_BLOCK, ENTERED};
use crate::odd::{
    ALIASED, EXCLUDED_END, INCLUDED_END, ItemOfRecord, LIFETIMES, LabelledUnsafe, NEITHER, OUTER,
    OWN_PARENTS, RANGE, RANGE_INSIDE,
};
use crate::paths::EMPTY;
use crate::reverse_mappings::{ARGUMENTS, FIELD_NODE, LENT, RECORD};
use crate::small::{CONSTANTS, NESTED, PATHS_AND_IMPLS, said_in_each_room};
use crate::stacks::FIRST;
use crate::types::said_of_impl;
use hir_env::lang::LangItems;
use hir_store::ids::{LangItemId, ModuleId};
use lower_json::document::Root;

/// Whether a question is answered as it has to be, where memory may be refused. Where it is refused to the call, this says so on standard
/// output: the sweep wants that of each test, once at least.
fn passes(rt: &impl Print, said: Said) -> bool {
    match said {
        Said::Own | Said::Beside => true,
        Said::Memory => println!(rt; "memory").is_ok(),
        Said::Other => false,
    }
}

#[test]
fn constants(rt: HostRuntime) {
    for row in CONSTANTS.iter() {
        assert!(rt; passes(&rt, said_in_each_room(rt.alloc(), *row)));
    }
}

#[test]
fn calls_in_a_constant(rt: HostRuntime) {
    assert!(rt; passes(&rt, said_of_calls(rt.alloc(), NESTED, &THREE_ENTERED)));
}

#[test]
fn paths_and_impls(rt: HostRuntime) {
    for row in PATHS_AND_IMPLS.iter() {
        assert!(rt; passes(&rt, said_in_each_room(rt.alloc(), *row)));
    }
}

#[test]
fn an_impl_without_bounds(rt: HostRuntime) {
    assert!(rt;
        passes(
            &rt,
            said_of_impl(rt.alloc(), Call::Allocator, "type {error}\n")
        )
    );
}

#[test]
fn bodies(rt: HostRuntime) {
    let alloc = rt.alloc();
    assert!(rt;
        passes(
            &rt,
            said_of_body(alloc, BLOCK_IN_BLOCK, EnvironmentKind::Tables, &ENTERED)
        )
    );
    assert!(rt;
        passes(
            &rt,
            said_of_body(alloc, RECORD, EnvironmentKind::Tables, &FIELD_NODE)
        )
    );
    assert!(rt;
        passes(
            &rt,
            said_of_body(alloc, TWICE, EnvironmentKind::Tables, &OF_TWICE)
        )
    );
    assert!(rt;
        passes(
            &rt,
            said_of_body(alloc, FUNCTION, EnvironmentKind::Tables, &BoundByLets)
        )
    );
    assert!(rt;
        passes(
            &rt,
            said_of_body(alloc, CLOSURE, EnvironmentKind::Tables, &NUMBERS)
        )
    );
}

#[test]
fn bodies_where_objects_answer(rt: HostRuntime) {
    let alloc = rt.alloc();
    assert!(rt;
        passes(
            &rt,
            said_of_body(alloc, ENDLESS, EnvironmentKind::Object, &SIX)
        )
    );
    assert!(rt;
        passes(
            &rt,
            said_of_body(alloc, NONE_ENTERED, EnvironmentKind::Object, &NONE)
        )
    );
    assert!(rt;
        passes(
            &rt,
            said_of_body(alloc, ITS_OWN_PARENT, EnvironmentKind::Object, &NO_LABEL)
        )
    );
    assert!(rt;
        passes(
            &rt,
            said_of_body(alloc, OTHER_KIND, EnvironmentKind::Object, &MISSING)
        )
    );
    assert!(rt;
        passes(
            &rt,
            said_of_body(alloc, CALLS, EnvironmentKind::Endless, &OF_ARGUMENTS)
        )
    );
    assert!(rt;
        passes(
            &rt,
            said_of_body(alloc, NO_CALLS, EnvironmentKind::Endless, &OF_NO_ARGUMENTS)
        )
    );
    assert!(rt;
        passes(
            &rt,
            said_of_body(alloc, OWN_PARENTS, EnvironmentKind::Circles, &NO_LABEL)
        )
    );
}

#[test]
fn bodies_where_one_module_answers(rt: HostRuntime) {
    let alloc = rt.alloc();
    let root = EnvironmentKind::Module(ModuleId(0));
    assert!(rt; passes(&rt, said_of_body(alloc, BLOCK_IN_BLOCK, root, &OUTER)));
    let other = EnvironmentKind::Module(ModuleId(1));
    assert!(rt; passes(&rt, said_of_body(alloc, BLOCK_IN_BLOCK, other, &NEITHER)));
}

#[test]
fn bodies_with_ranges(rt: HostRuntime) {
    let alloc = rt.alloc();
    let items = LangItems::numbered();
    let older = ItemOfRecord(items.range);
    let root = EnvironmentKind::Module(ModuleId(0));
    assert!(rt; passes(&rt, said_of_body(alloc, RANGE_INSIDE, root, &older)));
    let absent = ItemOfRecord(None);
    let without = EnvironmentKind::Without(LangItemId(5));
    assert!(rt; passes(&rt, said_of_body(alloc, RANGE, without, &absent)));
    let equal = EnvironmentKind::EqualItems;
    assert!(rt; passes(&rt, said_of_body(alloc, NEWER_RANGE, equal, &EXCLUDED_END)));
    assert!(rt;
        passes(
            &rt,
            said_of_body(alloc, NEWER_INCLUSIVE, equal, &INCLUDED_END)
        )
    );
}

#[test]
fn traits(rt: HostRuntime) {
    for row in TRAITS.iter() {
        assert!(rt; passes(&rt, said_of_item(rt.alloc(), Item::Trait, *row)));
    }
}

#[test]
fn impls(rt: HostRuntime) {
    for row in IMPLS.iter() {
        assert!(rt; passes(&rt, said_of_item(rt.alloc(), Item::Impl, *row)));
    }
}

#[test]
fn generic_params(rt: HostRuntime) {
    for params in PARAMS.iter() {
        assert!(rt; passes(&rt, said_of(rt.alloc(), Root::Fn, BOUNDED, params)));
    }
}

#[test]
fn aliases(rt: HostRuntime) {
    for row in ALIASES.iter() {
        assert!(rt; passes(&rt, said_of_item(rt.alloc(), Item::Alias(MODULE), *row)));
    }
}

#[test]
fn aliases_without_their_types(rt: HostRuntime) {
    for (container, row) in BARE_ALIASES.iter() {
        assert!(rt; passes(&rt, said_of_item(rt.alloc(), Item::Alias(*container), *row)));
    }
}

#[test]
fn an_alias_without_an_answer(rt: HostRuntime) {
    assert!(rt; passes(&rt, said_of(rt.alloc(), Root::Fn, ALIASED, &LIFETIMES)));
}

#[test]
fn pages_of_arenas(rt: HostRuntime) {
    for room in PAGES.iter() {
        assert!(rt; passes(&rt, said_of_room(rt.alloc(), *room)));
    }
}

#[test]
fn limits_of_arenas(rt: HostRuntime) {
    for room in LIMITS.iter() {
        assert!(rt; passes(&rt, said_of_room(rt.alloc(), *room)));
    }
}

#[test]
fn entries_of_arenas(rt: HostRuntime) {
    let alloc = rt.alloc();
    assert!(rt; passes(&rt, said_of_each(alloc, u32::MAX, 1025)));
    assert!(rt; passes(&rt, said_of_each(alloc, 3, 4)));
    assert!(rt; fills_its_page(alloc));
}

/// The reverse mappings ask for no memory.
#[test]
fn stacks_and_the_mappings_back(rt: HostRuntime) {
    let alloc = rt.alloc();
    assert!(rt; passes(&rt, said_of(alloc, Root::Path, EMPTY, &FIRST)));
    assert!(rt; passes(&rt, said_of(alloc, Root::Path, ARGUMENTS, &LENT)));
}

#[test]
fn a_block_by_hand(rt: HostRuntime) {
    assert!(rt; passes(&rt, said_of(rt.alloc(), Root::Path, EMPTY, &LabelledUnsafe)));
}
