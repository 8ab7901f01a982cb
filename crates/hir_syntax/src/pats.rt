//! Patterns.

use crate::ast::{Literal, Name, Path};
use crate::macros::MacroCall;
use hir_base::node::{NodeId, PredId, TextRange};
use hir_base::op::RangeOp;
use hir_base::{Boxed, Seq};

/// The literal of a pattern, without its minus.
pub struct PatLiteral {
    pub id: NodeId,
    pub range: TextRange,
    pub literal: Literal,
}

impl Drop for PatLiteral {
    fn drop(self) {
        let PatLiteral {
            id: _,
            range: _,
            literal: _,
        } = self;
    }
}

/// A pattern.
#[cycle(ast)]
pub struct Pat {
    pub id: NodeId,
    pub range: TextRange,
    pub kind: PatKind,
}

impl Drop for Pat {
    #[cycle(ast_drop)]
    fn drop(self) {
        let Pat {
            id: _,
            range: _,
            kind: _,
        } = self;
    }
}

/// The kind of a pattern, with its parts.
#[derive(Drop)]
#[cycle(ast)]
pub enum PatKind {
    IdentPat {
        name: Option<Name>,
        ref_: bool,
        mut_: bool,
        /// What stands behind `@`.
        pat: Option<Boxed<Pat>>,
    },
    TupleStructPat {
        path: Option<Boxed<Path>>,
        leading_comma: bool,
        fields: Seq<Pat>,
    },
    TuplePat {
        leading_comma: bool,
        fields: Seq<Pat>,
    },
    RefPat {
        mut_: bool,
        pat: Option<Boxed<Pat>>,
    },
    PathPat {
        path: Option<Boxed<Path>>,
    },
    OrPat {
        pats: Seq<Pat>,
    },
    ParenPat {
        pat: Option<Boxed<Pat>>,
    },
    BoxPat {
        pat: Option<Boxed<Pat>>,
    },
    DerefPat {
        pat: Option<Boxed<Pat>>,
    },
    RecordPat {
        path: Option<Boxed<Path>>,
        fields: Seq<RecordPatField>,
        /// Whether two dots stand behind the fields.
        rest: bool,
    },
    SlicePat {
        prefix: Seq<Pat>,
        slice: Option<Boxed<Pat>>,
        suffix: Seq<Pat>,
    },
    LiteralPat {
        lit: Option<PatLiteral>,
        minus: bool,
    },
    RangePat {
        op: Option<RangeOp>,
        start: Option<Boxed<Pat>>,
        end: Option<Boxed<Pat>>,
    },
    CfgPredPat {
        pred: Option<PredId>,
    },
    MacroPat {
        call: Option<MacroCall>,
    },
    WildcardPat,
    RestPat,
    NotNullPat,
    ConstBlockPat,
}

/// A field of a record pattern. One without a written pattern has both, the pattern being a name.
#[cycle(ast)]
pub struct RecordPatField {
    pub id: NodeId,
    pub range: TextRange,
    pub name: Option<Name>,
    pub pat: Option<Boxed<Pat>>,
}

impl Drop for RecordPatField {
    #[cycle(ast_drop)]
    fn drop(self) {
        let RecordPatField {
            id: _,
            range: _,
            name: _,
            pat: _,
        } = self;
    }
}
