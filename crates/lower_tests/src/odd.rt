//! What is lowered where odd objects answer, and a block that no document has.

use crate::calls::NO_LABEL;
use crate::collectors::{Holds, collector, handed_out};
use crate::documents::{AskOfDocument, Said, own_if, said_by_error, said_of};
use crate::in_range::in_range;
use crate::lacking::{NEWER_INCLUSIVE, NEWER_RANGE};
use crate::lowered::{AskOfBody, EnvironmentKind, said_of_body};
use crate::objects::{BLOCK_IN_BLOCK, Entered, Text as Listing};
use crate::paths::EMPTY;
use hir_base::node::{HirFileId, InFile, NodeId, TextRange};
use hir_base::{Boxed, Seq, Text};
use hir_env::env::LowerEnv;
use hir_env::lang::LangItems;
use hir_env::resolved::BuiltinShadowMode;
use hir_lower::{Body, BodySourceMap, lower_function};
use hir_store::hir::Expr;
use hir_store::ids::{BlockId, FunctionId, LangItemId, ModuleId};
use hir_store::path::Path;
use hir_syntax::ast::{self, BlockModifier, ConstArg, ExprKind, Lifetime};
use hir_syntax::items::Fn;
use hir_test_envs::lacking::Lacking;
use hir_test_envs::one_shadow::OneShadow;
use lower_json::document::{Document, Root, Tree};
use std::alloc::{AllocError, Global};

/// `'a: loop { macro_rules! m {..} m!() }`, where m stands for `break 'a`.
pub const OWN_PARENTS: &str = r#"{
    "nodes": [
        {"k": "Fn", "body": 1},
        {"k": "BlockExpr", "tail": 2},
        {"k": "LoopExpr", "label": 3, "body": 4},
        {"k": "Label", "lifetime": "'a"},
        {"k": "BlockExpr", "stmts": [5], "tail": 6},
        {"k": "MacroRules", "name": "m"},
        {"k": "MacroExpr", "call": 7},
        {"k": "MacroCall"},
        {"k": "MacroStmts", "expr": 9},
        {"k": "BreakExpr", "lifetime": "'a"}
    ],
    "env": {
        "hygiene": [[1, 9, 1]],
        "macros": [[0, 7, "file", 1, 8]],
        "legacy": [[0, "m", 0, 9]]
    }
}"#;

#[test]
fn a_search_ends_where_each_context_is_its_own_parent(rt: HostRuntime) {
    assert!(rt;
        said_of_body(rt.alloc(), OWN_PARENTS, EnvironmentKind::Circles, &NO_LABEL) == Said::Own
    );
}

pub const OUTER: Entered = Entered([Some(BlockId(3)), None, None]);

pub const NEITHER: Entered = Entered([None, None, None]);

/// The number of a block is asked for in the module around it, which the block around it has made.
#[test]
fn a_block_is_asked_about_in_the_module_around_it(rt: HostRuntime) {
    let alloc = rt.alloc();
    let root = EnvironmentKind::Module(ModuleId(0));
    assert!(rt; said_of_body(alloc, BLOCK_IN_BLOCK, root, &OUTER) == Said::Own);
    let other = EnvironmentKind::Module(ModuleId(1));
    assert!(rt; said_of_body(alloc, BLOCK_IN_BLOCK, other, &NEITHER) == Said::Own);
}

/// `fn f() { a..b }`.
pub const RANGE: &str = r#"{"nodes": [
    {"k": "Fn", "body": 1},
    {"k": "BlockExpr", "tail": 2},
    {"k": "RangeExpr", "op": "..", "start": 3, "end": 6},
    {"k": "PathExpr", "path": 4},
    {"k": "Path", "segs": [5]},
    {"k": "PathSegment", "seg": "name", "name": "a"},
    {"k": "PathExpr", "path": 7},
    {"k": "Path", "segs": [8]},
    {"k": "PathSegment", "seg": "name", "name": "b"}
]}"#;

/// The same, where the block has made the module of number 1.
pub const RANGE_INSIDE: &str = r#"{
    "nodes": [
        {"k": "Fn", "body": 1},
        {"k": "BlockExpr", "tail": 2},
        {"k": "RangeExpr", "op": "..", "start": 3, "end": 6},
        {"k": "PathExpr", "path": 4},
        {"k": "Path", "segs": [5]},
        {"k": "PathSegment", "seg": "name", "name": "a"},
        {"k": "PathExpr", "path": 7},
        {"k": "Path", "segs": [8]},
        {"k": "PathSegment", "seg": "name", "name": "b"}
    ],
    "env": {"blocks": [[0, 1, 3, 1]]}
}"#;

/// The item that the last record is made of.
#[derive(Clone, Copy)]
pub struct ItemOfRecord(pub Option<LangItemId>);

impl AskOfBody for ItemOfRecord {
    fn said(&self, _alloc: Global, body: &Body, _source_map: &BodySourceMap) -> Said {
        let mut item = None;
        for (_, expr) in body.store.exprs() {
            if let Expr::RecordLit {
                path: Path::LangItem(found),
                ..
            } = expr
            {
                item = Some(*found);
            }
        }
        own_if(item == self.0)
    }
}

#[test]
fn a_range_is_asked_about_in_its_module(rt: HostRuntime) {
    let alloc = rt.alloc();
    let items = LangItems::numbered();
    let by = EnvironmentKind::Module(ModuleId(0));
    let newer = ItemOfRecord(items.range_copy);
    assert!(rt; said_of_body(alloc, RANGE, by, &newer) == Said::Own);
    let older = ItemOfRecord(items.range);
    assert!(rt; said_of_body(alloc, RANGE_INSIDE, by, &older) == Said::Own);
}

pub const EXCLUDED_END: Listing = Listing(
    "body r0=(RecordLit lang:RangeCopy [(start (Path a)) (end (Path b))] -)\n",
);

pub const INCLUDED_END: Listing = Listing(
    "body r0=(RecordLit lang:RangeCopy [(start (Path a)) (last (Path b))] -)\n",
);

#[test]
fn items_of_the_language_may_be_equal(rt: HostRuntime) {
    let alloc = rt.alloc();
    assert!(rt;
        said_of_body(
            alloc,
            NEWER_RANGE,
            EnvironmentKind::EqualItems,
            &EXCLUDED_END
        ) == Said::Own
    );
    assert!(rt;
        said_of_body(
            alloc,
            NEWER_INCLUSIVE,
            EnvironmentKind::EqualItems,
            &INCLUDED_END
        ) == Said::Own
    );
}

/// `fn f<'x, 'y>(_: Alias<'x, 'y>) -> (&'x u8, &'y u8) {}`, where the name stands for an alias.
pub const ALIASED: &str = r#"{
    "nodes": [
        {"k": "Fn", "generics": 1, "params": 4, "ret": 13},
        {"k": "GenericParamList", "params": [2, 3]},
        {"k": "LifetimeParam", "lifetime": "'x"},
        {"k": "LifetimeParam", "lifetime": "'y"},
        {"k": "ParamList", "params": [5]},
        {"k": "Param", "pat": 6, "ty": 7},
        {"k": "WildcardPat"},
        {"k": "PathType", "path": 8},
        {"k": "Path", "segs": [9]},
        {"k": "PathSegment", "seg": "name", "name": "Alias", "generics": 10},
        {"k": "GenericArgList", "args": [11, 12]},
        {"k": "LifetimeArg", "lifetime": "'x"},
        {"k": "LifetimeArg", "lifetime": "'y"},
        {"k": "RetType", "ty": 14},
        {"k": "TupleType", "fields": [15, 16]},
        {"k": "RefType", "lifetime": "'x"},
        {"k": "RefType", "lifetime": "'y"}
    ],
    "env": {"resolve": [[0, "Alias", ["alias", 3], null, null]]}
}"#;

/// How many lifetime parameters a function has, and how many of them are early bound, where no alias has an answer, and names that
/// are asked about with another shadow than this one stand for nothing.
#[derive(Clone, Copy)]
pub struct Lifetimes {
    shadow: BuiltinShadowMode,
    all: usize,
    early: u32,
}

pub const LIFETIMES: Lifetimes = Lifetimes {
    shadow: BuiltinShadowMode::Module,
    all: 2,
    early: 2,
};

impl Lifetimes {
    /// Whether the function has so many, where this environment answers.
    fn are_of<E: LowerEnv>(&self, alloc: Global, env: &E, item: &Fn) -> Said {
        let one_shadow = OneShadow {
            behind: env,
            shadow: self.shadow,
        };
        let written = InFile {
            file_id: HirFileId(0),
            value: item,
        };
        match lower_function(alloc, &one_shadow, ModuleId(0), written, FunctionId(0)) {
            Ok((store, source_map, params, args, _ret, _has_self, _has_variadic)) => {
                let all = params.lifetimes().len();
                let early = params.early_bound_lifetimes_len;
                drop(store);
                drop(source_map);
                drop(params);
                drop(args);
                own_if(all == self.all && early == self.early)
            }
            Err(error) => said_by_error(error),
        }
    }
}

impl AskOfDocument for Lifetimes {
    fn said(&self, alloc: Global, document: &mut Document) -> Said {
        let Tree::Fn(item) = &document.tree else {
            return Said::Other;
        };
        let items = LangItems::numbered();
        let lacking = Lacking {
            behind: &document.env,
            items: &items,
        };
        let object: &dyn LowerEnv = &lacking;
        self.are_of(alloc, &object, item)
    }
}

#[test]
fn an_alias_without_an_answer_constrains_nothing(rt: HostRuntime) {
    assert!(rt; said_of(rt.alloc(), Root::Fn, ALIASED, &LIFETIMES) == Said::Own);
}

const SHADOWS: [BuiltinShadowMode; 2] = [BuiltinShadowMode::Other, BuiltinShadowMode::Local];

/// With another shadow the path is no alias, so all its lifetimes are constrained.
#[test]
fn an_alias_in_an_argument_is_asked_about_with_modules_first(rt: HostRuntime) {
    for shadow in SHADOWS.iter() {
        let lifetimes = Lifetimes {
            shadow: *shadow,
            all: 2,
            early: 0,
        };
        assert!(rt; said_of(rt.alloc(), Root::Fn, ALIASED, &lifetimes) == Said::Own);
    }
}

const TEXT_RANGE: TextRange = TextRange { start: 0, end: 1 };

/// `'a`
fn lifetime(alloc: Global) -> Result<Lifetime, AllocError> {
    Ok(Lifetime {
        id: NodeId(1),
        range: TEXT_RANGE,
        t: Text::new(alloc, "'a")?,
    })
}

/// `'a: unsafe { break 'a }`. Trees in boxes are handed on, and no tree is owned over a `?`, since both are dear to prove.
fn labelled_unsafe(alloc: Global) -> Result<ConstArg, AllocError> {
    let label = lifetime(alloc)?;
    let jump = ast::Expr {
        id: NodeId(3),
        range: TEXT_RANGE,
        kind: ExprKind::BreakExpr {
            lifetime: Some(lifetime(alloc)?),
            expr: None,
        },
    };
    let jump = Boxed::new(alloc, jump)?;
    let block = ast::BlockExpr {
        id: NodeId(4),
        range: TEXT_RANGE,
        mod_: Some(BlockModifier::Unsafe),
        label: Some(ast::Label {
            id: NodeId(2),
            range: TEXT_RANGE,
            lifetime: Some(label),
        }),
        ty: None,
        move_: false,
        stmts: Seq::new(alloc),
        tail: Some(jump),
    };
    let block = ast::Expr {
        id: NodeId(4),
        range: TEXT_RANGE,
        kind: ExprKind::BlockExpr(Boxed::new(alloc, block)?),
    };
    Ok(Some(Boxed::new(alloc, block)?))
}

/// That an `unsafe` block with a label becomes two expressions and no label, and owes a fault.
#[derive(Clone, Copy)]
pub struct LabelledUnsafe;

const NO_LABEL_AND_A_FAULT: Holds = Holds::Sizes {
    exprs: 2,
    labels: 0,
    expansions: 0,
    faults: 1,
};

impl AskOfDocument for LabelledUnsafe {
    /// Behind a refusal no store is handed out, and the numbers in it are in range.
    fn said(&self, alloc: Global, document: &mut Document) -> Said {
        let Ok(constant) = labelled_unsafe(alloc) else {
            return Said::Beside;
        };
        let mut collector = collector(alloc, &document.env, u32::MAX);
        let lowered = collector.lower_const_arg(&constant);
        drop(constant);
        let is_in_range = in_range(collector.store());
        let holds = match lowered {
            Ok(_) => NO_LABEL_AND_A_FAULT,
            Err(_) => Holds::Failed { exprs: None },
        };
        let handed_out = handed_out(alloc, collector, holds);
        match lowered {
            _ if !is_in_range || handed_out != Said::Own => Said::Other,
            Ok(_) => Said::Own,
            Err(error) => said_by_error(error),
        }
    }
}

#[test]
fn the_label_of_an_unsafe_block_does_not_count(rt: HostRuntime) {
    assert!(rt; said_of(rt.alloc(), Root::Path, EMPTY, &LabelledUnsafe) == Said::Own);
}
