//! Traits of implementations that aren't paths as they stand: they aren't read.

use crate::documents::{Said, said_of};
use crate::items::{Item, ItemIs};
use lower_json::document::Root;

/// `impl m!() for U {}`, where m stands for `Tr`, as the types of two aliases.
const CALL: &str = r#"{
    "nodes": [
        {"k": "Fn"},
        {"k": "TypeAlias", "ty": 3},
        {"k": "TypeAlias", "ty": 6},
        {"k": "PathType", "path": 4},
        {"k": "Path", "segs": [5]},
        {"k": "PathSegment", "seg": "name", "name": "U"},
        {"k": "MacroType", "call": 7},
        {"k": "MacroCall"},
        {"k": "PathType", "path": 9},
        {"k": "Path", "segs": [10]},
        {"k": "PathSegment", "seg": "name", "name": "Tr"}
    ],
    "env": {"macros": [[0, 7, "file", 1, 8]], "aliases": [[1, 2], [0, 1]]}
}"#;

/// `impl for<'a> Tr for U {}`.
const BINDER: &str = r#"{
    "nodes": [
        {"k": "Fn"},
        {"k": "TypeAlias", "ty": 3},
        {"k": "TypeAlias", "ty": 6},
        {"k": "PathType", "path": 4},
        {"k": "Path", "segs": [5]},
        {"k": "PathSegment", "seg": "name", "name": "U"},
        {"k": "ForType", "binder": 7, "ty": 8},
        {"k": "ForBinder", "params": ["'a"]},
        {"k": "PathType", "path": 9},
        {"k": "Path", "segs": [10]},
        {"k": "PathSegment", "seg": "name", "name": "Tr"}
    ],
    "env": {"aliases": [[1, 2], [0, 1]]}
}"#;

/// `impl (Tr) for U {}`.
const PARENTHESES: &str = r#"{
    "nodes": [
        {"k": "Fn"},
        {"k": "TypeAlias", "ty": 3},
        {"k": "TypeAlias", "ty": 6},
        {"k": "PathType", "path": 4},
        {"k": "Path", "segs": [5]},
        {"k": "PathSegment", "seg": "name", "name": "U"},
        {"k": "ParenType", "ty": 7},
        {"k": "PathType", "path": 8},
        {"k": "Path", "segs": [9]},
        {"k": "PathSegment", "seg": "name", "name": "Tr"}
    ],
    "env": {"aliases": [[1, 2], [0, 1]]}
}"#;

const TRAITS: [&str; 3] = [CALL, BINDER, PARENTHESES];

/// The implementation has no trait then, and no call is entered.
const WITHOUT_TRAIT: ItemIs<'static> = ItemIs {
    item: Item::Impl,
    listed: "arg U\nret -\n",
};

#[test]
fn a_trait_that_is_no_path_as_it_corresponds_is_not_read(rt: HostRuntime) {
    for text in TRAITS.iter() {
        assert!(rt; said_of(rt.alloc(), Root::Fn, text, &WITHOUT_TRAIT) == Said::Own);
    }
}
