//! Stored patterns, and what they bind.

use crate::hir::Mutability;
use crate::ids::{BindingId, ExprId, HygieneId, PatId};
use crate::name::Name;
use crate::path::Path;
use hir_base::Seq;
use hir_base::op::RangeOp;
use hir_binding::binding::{BindingAnnotation, BindingProblems};

/// A name that a pattern binds, bound as by its first use.
pub struct Binding {
    pub name: Name,
    pub mode: BindingAnnotation,
    pub hygiene: HygieneId,
    pub problems: Option<BindingProblems>,
}

impl Drop for Binding {
    fn drop(self) {
        let Binding {
            name: _,
            mode: _,
            hygiene: _,
            problems: _,
        } = self;
    }
}

/// A field of a record pattern.
pub struct RecordFieldPat {
    pub name: Name,
    pub pat: PatId,
}

impl Drop for RecordFieldPat {
    fn drop(self) {
        let RecordFieldPat { name: _, pat: _ } = self;
    }
}

/// A pattern, or the assignee expression, whose parts stand in the same store. An ellipsis is the place among `args` at which two dots
/// stand. A path has the hygiene that its name is looked up with.
pub enum Pat {
    Missing,
    Wild,
    /// `..`
    Rest,
    /// `!null`
    NotNull,
    Bind {
        id: BindingId,
        subpat: Option<PatId>,
    },
    Path {
        path: Path,
        hygiene: HygieneId,
    },
    TupleStruct {
        path: Path,
        ellipsis: Option<u32>,
        args: Seq<PatId>,
    },
    Tuple {
        ellipsis: Option<u32>,
        args: Seq<PatId>,
    },
    Record {
        path: Path,
        args: Seq<RecordFieldPat>,
        ellipsis: bool,
    },
    Or(Seq<PatId>),
    Slice {
        prefix: Seq<PatId>,
        slice: Option<PatId>,
        suffix: Seq<PatId>,
    },
    Ref {
        mutability: Mutability,
        pat: PatId,
    },
    Box {
        inner: PatId,
    },
    Deref {
        inner: PatId,
    },
    Lit(ExprId),
    /// The sides are literals or paths.
    Range {
        op: RangeOp,
        start: Option<ExprId>,
        end: Option<ExprId>,
    },
    /// A place that is assigned to.
    Expr(ExprId),
}

impl Drop for Pat {
    fn drop(self) {
        match self {
            Pat::Missing => {}
            Pat::Wild => {}
            Pat::Rest => {}
            Pat::NotNull => {}
            Pat::Bind { id: _, subpat: _ } => {}
            Pat::Path {
                path: _,
                hygiene: _,
            } => {}
            Pat::TupleStruct {
                path: _,
                ellipsis: _,
                args: _,
            } => {}
            Pat::Tuple {
                ellipsis: _,
                args: _,
            } => {}
            Pat::Record {
                path: _,
                args: _,
                ellipsis: _,
            } => {}
            Pat::Or(_) => {}
            Pat::Slice {
                prefix: _,
                slice: _,
                suffix: _,
            } => {}
            Pat::Ref {
                mutability: _,
                pat: _,
            } => {}
            Pat::Box { inner: _ } => {}
            Pat::Deref { inner: _ } => {}
            Pat::Lit(_) => {}
            Pat::Range {
                op: _,
                start: _,
                end: _,
            } => {}
            Pat::Expr(_) => {}
        }
    }
}
