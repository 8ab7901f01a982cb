//! What is lowered where one item of the language isn't there, each of them in turn.

use crate::documents::Said;
use crate::lowered::{EnvironmentKind, said_of_body};
use crate::objects::Text;
use hir_store::ids::LangItemId;

/// `..`
const FULL: &str = r#"{"owner": "const", "nodes": [
    {"k": "Fn", "body": 1},
    {"k": "RangeExpr", "op": ".."}
]}"#;

/// `a..`
const FROM: &str = r#"{"owner": "const", "nodes": [
    {"k": "Fn", "body": 1},
    {"k": "RangeExpr", "op": "..", "start": 2},
    {"k": "PathExpr", "path": 3},
    {"k": "Path", "segs": [4]},
    {"k": "PathSegment", "seg": "name", "name": "a"}
]}"#;

/// `a..`, where ranges are the newer ones.
const NEWER_FROM: &str = r#"{
    "owner": "const",
    "nodes": [
        {"k": "Fn", "body": 1},
        {"k": "RangeExpr", "op": "..", "start": 2},
        {"k": "PathExpr", "path": 3},
        {"k": "Path", "segs": [4]},
        {"k": "PathSegment", "seg": "name", "name": "a"}
    ],
    "env": {"new_range": true}
}"#;

/// `..b`
const TO: &str = r#"{"owner": "const", "nodes": [
    {"k": "Fn", "body": 1},
    {"k": "RangeExpr", "op": "..", "end": 2},
    {"k": "PathExpr", "path": 3},
    {"k": "Path", "segs": [4]},
    {"k": "PathSegment", "seg": "name", "name": "b"}
]}"#;

/// `a..b`, where ranges are the newer ones.
pub const NEWER_RANGE: &str = r#"{
    "owner": "const",
    "nodes": [
        {"k": "Fn", "body": 1},
        {"k": "RangeExpr", "op": "..", "start": 2, "end": 5},
        {"k": "PathExpr", "path": 3},
        {"k": "Path", "segs": [4]},
        {"k": "PathSegment", "seg": "name", "name": "a"},
        {"k": "PathExpr", "path": 6},
        {"k": "Path", "segs": [7]},
        {"k": "PathSegment", "seg": "name", "name": "b"}
    ],
    "env": {"new_range": true}
}"#;

/// `a..b`
const RANGE: &str = r#"{"owner": "const", "nodes": [
    {"k": "Fn", "body": 1},
    {"k": "RangeExpr", "op": "..", "start": 2, "end": 5},
    {"k": "PathExpr", "path": 3},
    {"k": "Path", "segs": [4]},
    {"k": "PathSegment", "seg": "name", "name": "a"},
    {"k": "PathExpr", "path": 6},
    {"k": "Path", "segs": [7]},
    {"k": "PathSegment", "seg": "name", "name": "b"}
]}"#;

/// `..=b`, where ranges are the newer ones.
const NEWER_TO_INCLUSIVE: &str = r#"{
    "owner": "const",
    "nodes": [
        {"k": "Fn", "body": 1},
        {"k": "RangeExpr", "op": "..=", "end": 2},
        {"k": "PathExpr", "path": 3},
        {"k": "Path", "segs": [4]},
        {"k": "PathSegment", "seg": "name", "name": "b"}
    ],
    "env": {"new_range": true}
}"#;

/// `..=b`
const TO_INCLUSIVE: &str = r#"{"owner": "const", "nodes": [
    {"k": "Fn", "body": 1},
    {"k": "RangeExpr", "op": "..=", "end": 2},
    {"k": "PathExpr", "path": 3},
    {"k": "Path", "segs": [4]},
    {"k": "PathSegment", "seg": "name", "name": "b"}
]}"#;

/// `a..=b`, where ranges are the newer ones.
pub const NEWER_INCLUSIVE: &str = r#"{
    "owner": "const",
    "nodes": [
        {"k": "Fn", "body": 1},
        {"k": "RangeExpr", "op": "..=", "start": 2, "end": 5},
        {"k": "PathExpr", "path": 3},
        {"k": "Path", "segs": [4]},
        {"k": "PathSegment", "seg": "name", "name": "a"},
        {"k": "PathExpr", "path": 6},
        {"k": "Path", "segs": [7]},
        {"k": "PathSegment", "seg": "name", "name": "b"}
    ],
    "env": {"new_range": true}
}"#;

/// `a..=b`
const INCLUSIVE: &str = r#"{"owner": "const", "nodes": [
    {"k": "Fn", "body": 1},
    {"k": "RangeExpr", "op": "..=", "start": 2, "end": 5},
    {"k": "PathExpr", "path": 3},
    {"k": "Path", "segs": [4]},
    {"k": "PathSegment", "seg": "name", "name": "a"},
    {"k": "PathExpr", "path": 6},
    {"k": "Path", "segs": [7]},
    {"k": "PathSegment", "seg": "name", "name": "b"}
]}"#;

/// `try { a }`
const TRY: &str = r#"{"owner": "const", "nodes": [
    {"k": "Fn", "body": 1},
    {"k": "BlockExpr", "tail": 2, "mod": "try"},
    {"k": "PathExpr", "path": 3},
    {"k": "Path", "segs": [4]},
    {"k": "PathSegment", "seg": "name", "name": "a"}
]}"#;

/// `a?`
const QUESTION: &str = r#"{"owner": "const", "nodes": [
    {"k": "Fn", "body": 1},
    {"k": "TryExpr", "expr": 2},
    {"k": "PathExpr", "path": 3},
    {"k": "Path", "segs": [4]},
    {"k": "PathSegment", "seg": "name", "name": "a"}
]}"#;

/// `try { a? }`
const QUESTION_IN_TRY: &str = r#"{"owner": "const", "nodes": [
    {"k": "Fn", "body": 1},
    {"k": "BlockExpr", "tail": 2, "mod": "try"},
    {"k": "TryExpr", "expr": 3},
    {"k": "PathExpr", "path": 4},
    {"k": "Path", "segs": [5]},
    {"k": "PathSegment", "seg": "name", "name": "a"}
]}"#;

/// `for x in a {}`
const FOR: &str = r#"{"owner": "const", "nodes": [
    {"k": "Fn", "body": 1},
    {"k": "ForExpr", "pat": 2, "iterable": 3, "body": 6},
    {"k": "IdentPat", "name": "x"},
    {"k": "PathExpr", "path": 4},
    {"k": "Path", "segs": [5]},
    {"k": "PathSegment", "seg": "name", "name": "a"},
    {"k": "BlockExpr"}
]}"#;

/// `_ as u8 is ..5`
const TYPE_TO: &str = r#"{"owner": "const", "nodes": [
    {"k": "Fn", "body": 1},
    {"k": "CastExpr", "expr": 2, "ty": 3},
    {"k": "UnderscoreExpr"},
    {"k": "PatternType", "ty": 4, "pat": 7},
    {"k": "PathType", "path": 5},
    {"k": "Path", "segs": [6]},
    {"k": "PathSegment", "seg": "name", "name": "u8"},
    {"k": "RangePat", "op": "..", "end": 8},
    {"k": "LiteralPat", "lit": 9},
    {"k": "Literal", "lit": "int", "t": "5"}
]}"#;

/// `_ as u8 is 1..`
const TYPE_FROM: &str = r#"{"owner": "const", "nodes": [
    {"k": "Fn", "body": 1},
    {"k": "CastExpr", "expr": 2, "ty": 3},
    {"k": "UnderscoreExpr"},
    {"k": "PatternType", "ty": 4, "pat": 7},
    {"k": "PathType", "path": 5},
    {"k": "Path", "segs": [6]},
    {"k": "PathSegment", "seg": "name", "name": "u8"},
    {"k": "RangePat", "op": "..", "start": 8},
    {"k": "LiteralPat", "lit": 9},
    {"k": "Literal", "lit": "int", "t": "1"}
]}"#;

/// `_ as u8 is 1..5`
const TYPE_RANGE: &str = r#"{"owner": "const", "nodes": [
    {"k": "Fn", "body": 1},
    {"k": "CastExpr", "expr": 2, "ty": 3},
    {"k": "UnderscoreExpr"},
    {"k": "PatternType", "ty": 4, "pat": 7},
    {"k": "PathType", "path": 5},
    {"k": "Path", "segs": [6]},
    {"k": "PathSegment", "seg": "name", "name": "u8"},
    {"k": "RangePat", "op": "..", "start": 8, "end": 10},
    {"k": "LiteralPat", "lit": 9},
    {"k": "Literal", "lit": "int", "t": "1"},
    {"k": "LiteralPat", "lit": 11},
    {"k": "Literal", "lit": "int", "t": "5"}
]}"#;

/// The listing of a body that lacks an item.
struct Lacks {
    item: LangItemId,
    text: &'static str,
    listed: &'static str,
}

const MISSING: &str = "body r0=(Missing)\n";

/// The items in their order, which is that of their numbers.
const LACKS: [Lacks; 23] = [
    Lacks {
        item: LangItemId(0),
        text: FULL,
        listed: MISSING,
    },
    Lacks {
        item: LangItemId(1),
        text: FROM,
        listed: MISSING,
    },
    Lacks {
        item: LangItemId(2),
        text: NEWER_FROM,
        listed: MISSING,
    },
    Lacks {
        item: LangItemId(3),
        text: TO,
        listed: MISSING,
    },
    Lacks {
        item: LangItemId(4),
        text: NEWER_RANGE,
        listed: MISSING,
    },
    Lacks {
        item: LangItemId(5),
        text: RANGE,
        listed: MISSING,
    },
    Lacks {
        item: LangItemId(6),
        text: NEWER_TO_INCLUSIVE,
        listed: MISSING,
    },
    Lacks {
        item: LangItemId(7),
        text: TO_INCLUSIVE,
        listed: MISSING,
    },
    Lacks {
        item: LangItemId(8),
        text: NEWER_INCLUSIVE,
        listed: MISSING,
    },
    Lacks {
        item: LangItemId(9),
        text: INCLUSIVE,
        listed: "body r0=(Call (Missing) [(Path a) (Path b)])\n",
    },
    Lacks {
        item: LangItemId(10),
        text: TRY,
        listed: "body r0=(Block - L0 - [] (Call (Missing) [(Path a)]))\nlabel 0 $0\n",
    },
    Lacks {
        item: LangItemId(11),
        text: QUESTION,
        listed: MISSING,
    },
    Lacks {
        item: LangItemId(12),
        text: QUESTION,
        listed: MISSING,
    },
    Lacks {
        item: LangItemId(13),
        text: QUESTION,
        listed: MISSING,
    },
    Lacks {
        item: LangItemId(14),
        text: QUESTION_IN_TRY,
        listed: "body r0=(Block - L0 - [] (Call (Path lang:TryTraitFromOutput) [(Match (Call (Path \
            lang:TryTraitBranch) [(Path a)]) [(Arm (TupleStruct lang:ControlFlowContinue - \
            [(Bind #0 -)]) - (Path $0)) (Arm (TupleStruct lang:ControlFlowBreak - [(Bind #1 -)]) \
            - (Break L0 (Call (Missing) [(Path $1)])))])]))\nbinding 0 $0 plain - -\nbinding 1 \
            $1 plain - -\nlabel 0 $2\n",
    },
    Lacks {
        item: LangItemId(15),
        text: QUESTION,
        listed: "body r0=(Match (Call (Path lang:TryTraitBranch) [(Path a)]) [(Arm (TupleStruct \
            lang:ControlFlowContinue - [(Bind #0 -)]) - (Path $0)) (Arm (TupleStruct \
            lang:ControlFlowBreak - [(Bind #1 -)]) - (Return (Call (Missing) [(Path \
            $1)])))])\nbinding 0 $0 plain - -\nbinding 1 $1 plain - -\n",
    },
    Lacks {
        item: LangItemId(16),
        text: FOR,
        listed: MISSING,
    },
    Lacks {
        item: LangItemId(17),
        text: FOR,
        listed: MISSING,
    },
    Lacks {
        item: LangItemId(18),
        text: FOR,
        listed: MISSING,
    },
    Lacks {
        item: LangItemId(19),
        text: FOR,
        listed: MISSING,
    },
    Lacks {
        item: LangItemId(20),
        text: TYPE_TO,
        listed: "body r0=(Cast (Underscore) u8 is (Range ..= (Missing) (Call (Path lang:RangeSub) [(Literal 5)])))\n",
    },
    Lacks {
        item: LangItemId(21),
        text: TYPE_FROM,
        listed: "body r0=(Cast (Underscore) u8 is (Range ..= (Literal 1) (Missing)))\n",
    },
    Lacks {
        item: LangItemId(22),
        text: TYPE_RANGE,
        listed: "body r0=(Cast (Underscore) u8 is (Range ..= (Literal 1) (Call (Missing) [(Literal 5)])))\n",
    },
];

#[test]
fn each_item_of_the_language_may_be_absent(rt: HostRuntime) {
    for row in LACKS.iter() {
        let listed = Text(row.listed);
        assert!(rt;
            said_of_body(
                rt.alloc(),
                row.text,
                EnvironmentKind::Without(row.item),
                &listed
            ) == Said::Own
        );
    }
}
