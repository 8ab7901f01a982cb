//! The roots of constants in a collector, and constants for whose parts there is no room.

use crate::collectors::{Call, Holds, Script, said_of_calls};
use crate::documents::Said;
use hir_lower::LowerError;
use hir_store::ids::ExprId;

/// `A<{a::<{b}>}>`, which becomes two expressions.
pub const PATH: &str = r#"{"nodes": [
    {"k": "Path", "segs": [1]},
    {"k": "PathSegment", "seg": "name", "name": "A", "generics": 2},
    {"k": "GenericArgList", "args": [3]},
    {"k": "ConstArg", "expr": 4},
    {"k": "PathExpr", "path": 5},
    {"k": "Path", "segs": [6]},
    {"k": "PathSegment", "seg": "name", "name": "a", "generics": 7},
    {"k": "GenericArgList", "args": [8]},
    {"k": "ConstArg", "expr": 9},
    {"k": "PathExpr", "path": 10},
    {"k": "Path", "segs": [11]},
    {"k": "PathSegment", "seg": "name", "name": "b"}
]}"#;

#[test]
fn a_constant_in_a_constant_is_no_root_and_a_later_one_is(rt: HostRuntime) {
    let alloc = rt.alloc();
    let first = Some((ExprId(1), ExprId(2)));
    let second = Some((ExprId(3), ExprId(4)));
    let alone = Script {
        limit: u32::MAX,
        calls: &[(Call::Constant, Ok(true))],
        holds: Holds::Roots([first, None, None]),
    };
    assert!(rt; said_of_calls(alloc, PATH, &alone) == Said::Own);
    let both = Script {
        limit: u32::MAX,
        calls: &[(Call::Constant, Ok(true)), (Call::Path, Ok(true))],
        holds: Holds::Roots([first, second, None]),
    };
    assert!(rt; said_of_calls(alloc, PATH, &both) == Said::Own);
}

/// In a collector for one expression, and in one for two.
#[test]
fn a_path_does_not_fit_where_its_constants_do_not(rt: HostRuntime) {
    let alloc = rt.alloc();
    let in_one = Script {
        limit: 1,
        calls: &[
            (Call::Path, Err(LowerError::Full)),
            (Call::Path, Err(LowerError::Failed)),
        ],
        holds: Holds::Failed { exprs: Some(1) },
    };
    assert!(rt; said_of_calls(alloc, PATH, &in_one) == Said::Own);
    let in_two = Script {
        limit: 2,
        calls: &[(Call::Path, Ok(true)), (Call::Path, Err(LowerError::Full))],
        holds: Holds::Failed { exprs: Some(2) },
    };
    assert!(rt; said_of_calls(alloc, PATH, &in_two) == Said::Own);
}
