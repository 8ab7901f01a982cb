//! What the nodes of macro calls lead to, where they stand for statements, patterns and types; and what was expanded beforehand for
//! them, which no document says.

use crate::documents::{Said, own_if};
use crate::lowered::{AskOfBody, EnvironmentKind, said_of_body};
use crate::mappings::{Count, Leads, Shown};
use crate::objects::Text;
use hir_base::node::{HirFileId, InFile, NodeId};
use hir_lower::{Body, BodySourceMap};
use hir_store::expansions::ExpandedCall;
use hir_test_envs::beforehand::Pair;
use std::alloc::Global;

/// `fn f() { m!(); n!() }`, where m stands for `1; 2`, and n for `3;`.
const SPLICED: &str = r#"{
    "nodes": [
        {"k": "Fn", "body": 1},
        {"k": "BlockExpr", "stmts": [2], "tail": 5},
        {"k": "ExprStmt", "expr": 3, "semi": true},
        {"k": "MacroExpr", "call": 4},
        {"k": "MacroCall"},
        {"k": "MacroExpr", "call": 6},
        {"k": "MacroCall"},
        {"k": "MacroStmts", "stmts": [8], "expr": 10},
        {"k": "ExprStmt", "expr": 9, "semi": true},
        {"k": "Literal", "lit": "int", "t": "1"},
        {"k": "Literal", "lit": "int", "t": "2"},
        {"k": "MacroStmts", "stmts": [12]},
        {"k": "ExprStmt", "expr": 13, "semi": true},
        {"k": "Literal", "lit": "int", "t": "3"}
    ],
    "env": {"macros": [[0, 4, "file", 1, 7], [0, 6, "file", 2, 11]]}
}"#;

const OF_SPLICED: Shown<'static> = Shown {
    mappings: &[(0, 3, Leads::Expr(1)), (0, 5, Leads::Nowhere)],
    back: &[],
    counts: &[],
};

#[test]
fn a_spliced_call_leads_to_its_last_expression(rt: HostRuntime) {
    assert!(rt;
        said_of_body(rt.alloc(), SPLICED, EnvironmentKind::Tables, &OF_SPLICED) == Said::Own
    );
}

/// `fn f() { let (p!(), q!()): t!() = 1; }`, where p stands for `r!()` and that for `..`, and q and t for `_`.
const MATCHED: &str = r#"{
    "nodes": [
        {"k": "Fn", "body": 1},
        {"k": "BlockExpr", "stmts": [2]},
        {"k": "LetStmt", "pat": 3, "ty": 8, "init": 10},
        {"k": "TuplePat", "fields": [4, 6]},
        {"k": "MacroPat", "call": 5},
        {"k": "MacroCall"},
        {"k": "MacroPat", "call": 7},
        {"k": "MacroCall"},
        {"k": "MacroType", "call": 9},
        {"k": "MacroCall"},
        {"k": "Literal", "lit": "int", "t": "1"},
        {"k": "MacroPat", "call": 12},
        {"k": "MacroCall"},
        {"k": "RestPat"},
        {"k": "WildcardPat"},
        {"k": "InferType"}
    ],
    "env": {
        "macros": [[0, 5, "file", 1, 11], [1, 12, "file", 2, 13], [0, 7, "file", 3, 14], [0, 9, "file", 4, 15]]
    }
}"#;

/// The two patterns and the type, how many patterns and types there are, how many expansions are recorded, and how many faults.
const OF_MATCHED: Shown<'static> = Shown {
    mappings: &[
        (0, 4, Leads::Nowhere),
        (0, 6, Leads::Pat(0)),
        (0, 8, Leads::Type_(0)),
    ],
    back: &[],
    counts: &[
        (Count::Pats, 2),
        (Count::Types, 1),
        (Count::Expansions, 4),
        (Count::Faults, 0),
    ],
};

#[test]
fn calls_lead_to_patterns_and_types_but_not_to_dots(rt: HostRuntime) {
    assert!(rt;
        said_of_body(rt.alloc(), MATCHED, EnvironmentKind::Tables, &OF_MATCHED) == Said::Own
    );
}

/// `fn f() { m!(); let p!(): t!() = e!(); }`, where m stands for `1`, p and t for `_`, and e for `2`.
const OF_EACH_KIND: &str = r#"{
    "nodes": [
        {"k": "Fn", "body": 1},
        {"k": "BlockExpr", "stmts": [2, 5]},
        {"k": "ExprStmt", "expr": 3, "semi": true},
        {"k": "MacroExpr", "call": 4},
        {"k": "MacroCall"},
        {"k": "LetStmt", "pat": 6, "ty": 8, "init": 10},
        {"k": "MacroPat", "call": 7},
        {"k": "MacroCall"},
        {"k": "MacroType", "call": 9},
        {"k": "MacroCall"},
        {"k": "MacroExpr", "call": 11},
        {"k": "MacroCall"},
        {"k": "MacroStmts", "expr": 13},
        {"k": "Literal", "lit": "int", "t": "1"},
        {"k": "WildcardPat"},
        {"k": "InferType"},
        {"k": "Literal", "lit": "int", "t": "2"}
    ],
    "env": {
        "macros": [[0, 4, "file", 1, 12], [0, 7, "file", 2, 14], [0, 9, "file", 3, 15], [0, 11, "file", 4, 16]]
    }
}"#;

const BEFORE_A_STATEMENT: InFile<NodeId> = InFile {
    file_id: HirFileId(0),
    value: NodeId(20),
};

/// The node of the call of a pattern itself.
const BEFORE_A_PATTERN: InFile<NodeId> = InFile {
    file_id: HirFileId(0),
    value: NodeId(7),
};

const BEFORE_A_TYPE: InFile<NodeId> = InFile {
    file_id: HirFileId(3),
    value: NodeId(5),
};

const BEFORE_AN_EXPRESSION: InFile<NodeId> = InFile {
    file_id: HirFileId(0),
    value: NodeId(30),
};

pub const FOR_STMTS: [Pair; 1] = [(BEFORE_A_STATEMENT, HirFileId(21))];

pub const FOR_PATS: [Pair; 1] = [(BEFORE_A_PATTERN, HirFileId(22))];

pub const FOR_TYPES: [Pair; 1] = [(BEFORE_A_TYPE, HirFileId(23))];

/// One call with two files.
pub const FOR_EXPRS: [Pair; 2] = [
    (BEFORE_AN_EXPRESSION, HirFileId(24)),
    (BEFORE_AN_EXPRESSION, HirFileId(25)),
];

/// A line for each call that lowering enters, and for each that was expanded beforehand for one: of two files of one call the later
/// counts, and a call that is entered is another one than one at its node that was expanded beforehand.
const WITH_PAIRS: Text = Text(
    r"body r0=(Block - - - [(Semi (Literal 1)) (LetStmt (Wild) _ (Literal 2) -)] -)
expansion @4 1
expansion @7 22
expansion @7 2
expansion @9 3
expansion @11 4
expansion @20 21
expansion @30 25
expansion @3.5 23
",
);

/// What is recorded, in order: the number of each call, whether its place is known, and the file.
#[derive(Clone, Copy)]
struct Recorded(&'static [(u32, bool, u32)]);

const IN_ORDER: Recorded = Recorded(&[
    (20, false, 21),
    (4, true, 1),
    (7, false, 22),
    (7, true, 2),
    (5, false, 23),
    (9, true, 3),
    (30, false, 24),
    (30, false, 25),
    (11, true, 4),
]);

fn are_recorded(mut recorded: &[ExpandedCall], own: &[(u32, bool, u32)]) -> bool {
    for entry in own {
        let (number, has_range, file) = *entry;
        match recorded {
            [one, rest @ ..] => {
                let is_own = one.call.value == NodeId(number)
                    && one.range.is_some() == has_range
                    && one.file == HirFileId(file);
                if !is_own {
                    return false;
                }
                recorded = rest;
            }
            [] => return false,
        }
    }
    recorded.is_empty()
}

impl AskOfBody for Recorded {
    fn said(&self, _alloc: Global, _body: &Body, source_map: &BodySourceMap) -> Said {
        own_if(are_recorded(source_map.store.expansions(), self.0))
    }
}

#[test]
fn what_was_expanded_beforehand_is_recorded_in_front_of_its_call(rt: HostRuntime) {
    let alloc = rt.alloc();
    assert!(rt;
        said_of_body(
            alloc,
            OF_EACH_KIND,
            EnvironmentKind::Beforehand,
            &WITH_PAIRS
        ) == Said::Own
    );
    assert!(rt;
        said_of_body(alloc, OF_EACH_KIND, EnvironmentKind::Beforehand, &IN_ORDER) == Said::Own
    );
}
