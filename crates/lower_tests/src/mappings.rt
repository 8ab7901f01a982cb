//! The ways between written nodes and what they become, and how much is stored.

use crate::documents::{Said, own_if};
use crate::lowered::AskOfBody;
use hir_base::node::{AstPtr, HirFileId, InFile, NodeId, TextRange};
use hir_lower::{Body, BodySourceMap, Either};
use hir_store::ids::{ExprId, LabelId, LifetimeRefId, PatId, TypeRefId};
use std::alloc::Global;

/// What a node leads to, by numbers.
#[derive(Clone, Copy)]
pub enum Leads {
    /// As the node of an expression and as that of a written pattern.
    Nowhere,
    Expr(u32),
    /// As the node of an expression, to the pattern of the assignee expression.
    Target(u32),
    Pat(u32),
    ExprAndPat(u32, u32),
    Label(u32),
    Type_(u32),
    Lifetime(u32),
}

/// A stored part, by its number.
#[derive(Clone, Copy)]
pub enum Part {
    Pat(u32),
    /// The pattern of a field.
    FieldPat(u32),
    Label(u32),
    Type_(u32),
    Lifetime(u32),
}

/// What is counted.
#[derive(Clone, Copy)]
pub enum Count {
    Exprs,
    Pats,
    Bindings,
    Labels,
    Types,
    Lifetimes,
    Roots,
    Expansions,
    Faults,
}

/// The node of this number, where it is read in this file.
fn node_in(file: u32, number: u32) -> InFile<AstPtr> {
    InFile {
        file_id: HirFileId(file),
        value: AstPtr {
            node: NodeId(number),
            range: TextRange {
                start: number,
                end: number.saturating_add(1),
            },
        },
    }
}

/// The expression that the node leads to; none where it leads to a pattern, or nowhere.
pub fn expr_at(source_map: &BodySourceMap, number: u32) -> Option<ExprId> {
    match source_map.store.node_expr(node_in(0, number))? {
        Either::Left(id) => Some(id),
        Either::Right(_) => None,
    }
}

/// Whether the node leads to this expression or pattern as that of an expression, and to this one as that of a written pattern.
fn is_mapping(
    source_map: &BodySourceMap,
    node: InFile<AstPtr>,
    expr: Option<Either<ExprId, PatId>>,
    pat: Option<PatId>,
) -> bool {
    source_map.store.node_expr(node) == expr && source_map.store.node_pat(node) == pat
}

fn does_lead(source_map: &BodySourceMap, node: InFile<AstPtr>, own: Leads) -> bool {
    match own {
        Leads::Nowhere => is_mapping(source_map, node, None, None),
        Leads::Expr(id) => is_mapping(source_map, node, Some(Either::Left(ExprId(id))), None),
        Leads::Target(id) => is_mapping(source_map, node, Some(Either::Right(PatId(id))), None),
        Leads::Pat(id) => is_mapping(source_map, node, None, Some(PatId(id))),
        Leads::ExprAndPat(expr, pat) => {
            let expr = Some(Either::Left(ExprId(expr)));
            is_mapping(source_map, node, expr, Some(PatId(pat)))
        }
        Leads::Label(id) => source_map.store.node_label(node) == Some(LabelId(id)),
        Leads::Type_(id) => source_map.store.node_type(node) == Some(TypeRefId(id)),
        Leads::Lifetime(id) => source_map.store.node_lifetime(node) == Some(LifetimeRefId(id)),
    }
}

/// The node that a part comes from.
fn node_behind(source_map: &BodySourceMap, part: Part) -> Option<NodeId> {
    let map = &source_map.store;
    let node = match part {
        Part::Pat(id) => map.pat_syntax(PatId(id)),
        Part::FieldPat(id) => map.pat_field_syntax(PatId(id)),
        Part::Label(id) => map.label_syntax(LabelId(id)),
        Part::Type_(id) => map.type_syntax(TypeRefId(id)),
        Part::Lifetime(id) => map.lifetime_syntax(LifetimeRefId(id)),
    };
    Some(node?.value.node)
}

fn counted(body: &Body, source_map: &BodySourceMap, what: Count) -> usize {
    let store = &body.store;
    match what {
        Count::Exprs => store.exprs_len() as usize,
        Count::Pats => store.pats_len() as usize,
        Count::Bindings => store.bindings_len() as usize,
        Count::Labels => store.labels_len() as usize,
        Count::Types => store.types_len() as usize,
        Count::Lifetimes => store.lifetimes_len() as usize,
        Count::Roots => store.expr_roots().len(),
        Count::Expansions => source_map.store.expansions().len(),
        Count::Faults => source_map.store.diagnostics().len(),
    }
}

/// Where nodes lead, each by its file and its number; the nodes that parts come from; and how many there are.
#[derive(Clone, Copy)]
pub struct Shown<'a> {
    pub mappings: &'a [(u32, u32, Leads)],
    pub back: &'a [(Part, u32)],
    pub counts: &'a [(Count, usize)],
}

fn are_mappings(source_map: &BodySourceMap, mappings: &[(u32, u32, Leads)]) -> bool {
    for mapping in mappings {
        let (file, number, own) = *mapping;
        if !does_lead(source_map, node_in(file, number), own) {
            return false;
        }
    }
    true
}

fn are_reverse_mappings(source_map: &BodySourceMap, back: &[(Part, u32)]) -> bool {
    for mapping in back {
        let (part, own) = *mapping;
        if node_behind(source_map, part) != Some(NodeId(own)) {
            return false;
        }
    }
    true
}

/// Whether a body and its source map have so many of each.
pub fn are_counts(body: &Body, source_map: &BodySourceMap, counts: &[(Count, usize)]) -> bool {
    for count in counts {
        let (what, own) = *count;
        if counted(body, source_map, what) != own {
            return false;
        }
    }
    true
}

impl AskOfBody for Shown<'_> {
    fn said(&self, _alloc: Global, body: &Body, source_map: &BodySourceMap) -> Said {
        let is_so = are_mappings(source_map, self.mappings)
            && are_reverse_mappings(source_map, self.back)
            && are_counts(body, source_map, self.counts);
        own_if(is_so)
    }
}
