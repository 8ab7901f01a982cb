//! Whether the numbers in a store that a collector fills are numbers of its entries.

use crate::in_range_types::{
    has_args_option, has_expr, has_pat, has_path, has_type, has_type_option, has_type_parts,
};
use hir_store::builder::ExpressionStoreBuilder;
use hir_store::children::Children;
use hir_store::hir::{Expr, MatchArm, Statement};
use hir_store::ids::{BindingId, ExprId, LabelId, LifetimeRefId, PatId, TypeRefId};
use hir_store::pat::{Pat, RecordFieldPat};
use hir_store::roots::ExprRoot;

fn has_pat_option(store: &ExpressionStoreBuilder, id: Option<PatId>) -> bool {
    match id {
        Some(id) => has_pat(store, id),
        None => true,
    }
}

fn has_expr_option(store: &ExpressionStoreBuilder, id: Option<ExprId>) -> bool {
    match id {
        Some(id) => has_expr(store, id),
        None => true,
    }
}

fn has_label_option(store: &ExpressionStoreBuilder, id: Option<LabelId>) -> bool {
    match id {
        Some(id) => store.label(id).is_some(),
        None => true,
    }
}

fn has_pats(store: &ExpressionStoreBuilder, ids: &[PatId]) -> bool {
    for id in ids {
        if !has_pat(store, *id) {
            return false;
        }
    }
    true
}

fn has_type_options(store: &ExpressionStoreBuilder, ids: &[Option<TypeRefId>]) -> bool {
    for id in ids {
        if !has_type_option(store, *id) {
            return false;
        }
    }
    true
}

fn has_children(store: &ExpressionStoreBuilder, expr: &Expr) -> bool {
    for id in Children::of(expr) {
        if !has_expr(store, id) {
            return false;
        }
    }
    true
}

/// Whether the patterns and the types of statements are there.
fn has_lets(store: &ExpressionStoreBuilder, statements: &[Statement]) -> bool {
    for statement in statements {
        if let Statement::Let { pat, type_ref, .. } = statement {
            if !(has_pat(store, *pat) && has_type_option(store, *type_ref)) {
                return false;
            }
        }
    }
    true
}

fn has_arm_pats(store: &ExpressionStoreBuilder, arms: &[MatchArm]) -> bool {
    for arm in arms {
        if !has_pat(store, arm.pat) {
            return false;
        }
    }
    true
}

fn has_field_pats(store: &ExpressionStoreBuilder, fields: &[RecordFieldPat]) -> bool {
    for field in fields {
        if !has_pat(store, field.pat) {
            return false;
        }
    }
    true
}

/// Whether what an expression names is there.
fn has_parts(store: &ExpressionStoreBuilder, expr: &Expr) -> bool {
    let has_others = match expr {
        Expr::Path { path, .. } | Expr::RecordLit { path, .. } => has_path(store, path),
        Expr::MethodCall { generic_args, .. } => has_args_option(store, generic_args),
        Expr::Cast { type_ref, .. } => has_type(store, *type_ref),
        Expr::OffsetOf { container, .. } => has_type(store, *container),
        Expr::Let { pat, .. } => has_pat(store, *pat),
        Expr::Assignment { target, .. } => has_pat(store, *target),
        Expr::Closure {
            args,
            arg_types,
            ret_type,
            ..
        } => {
            has_pats(store, args.as_slice())
                && has_type_options(store, arg_types.as_slice())
                && has_type_option(store, *ret_type)
        }
        Expr::Match { arms, .. } => has_arm_pats(store, arms.as_slice()),
        Expr::Block {
            label,
            statements,
            ..
        } => has_label_option(store, *label) && has_lets(store, statements.as_slice()),
        Expr::Loop { label, .. } | Expr::Continue { label } | Expr::Break { label, .. } => {
            has_label_option(store, *label)
        }
        Expr::Missing
        | Expr::If { .. }
        | Expr::Const(_)
        | Expr::Call { .. }
        | Expr::Literal(_)
        | Expr::Field { .. }
        | Expr::UnaryOp { .. }
        | Expr::BinaryOp { .. }
        | Expr::Index { .. }
        | Expr::Ref { .. }
        | Expr::Tuple { .. }
        | Expr::Array(_)
        | Expr::Return { .. }
        | Expr::Become { .. }
        | Expr::Yield { .. }
        | Expr::Yeet { .. }
        | Expr::Await { .. }
        | Expr::Underscore
        | Expr::IncludeBytes => true,
    };
    has_others && has_children(store, expr)
}

/// Whether what a pattern names is there.
fn has_pat_parts(store: &ExpressionStoreBuilder, pat: &Pat) -> bool {
    match pat {
        Pat::Bind { id, subpat } => store.binding(*id).is_some() && has_pat_option(store, *subpat),
        Pat::Path { path, .. } => has_path(store, path),
        Pat::TupleStruct { path, args, .. } => {
            has_path(store, path) && has_pats(store, args.as_slice())
        }
        Pat::Tuple { args, .. } | Pat::Or(args) => has_pats(store, args.as_slice()),
        Pat::Record { path, args, .. } => {
            has_path(store, path) && has_field_pats(store, args.as_slice())
        }
        Pat::Slice {
            prefix,
            slice,
            suffix,
        } => {
            has_pats(store, prefix.as_slice())
                && has_pat_option(store, *slice)
                && has_pats(store, suffix.as_slice())
        }
        Pat::Ref { pat, .. } => has_pat(store, *pat),
        Pat::Box { inner } | Pat::Deref { inner } => has_pat(store, *inner),
        Pat::Lit(expr) | Pat::Expr(expr) => has_expr(store, *expr),
        Pat::Range { start, end, .. } => {
            has_expr_option(store, *start) && has_expr_option(store, *end)
        }
        Pat::Missing | Pat::Wild | Pat::Rest | Pat::NotNull => true,
    }
}

fn has_exprs_in_range(store: &ExpressionStoreBuilder) -> bool {
    for number in 0..store.exprs_len() {
        match store.expr(ExprId(number)) {
            Some(expr) => if !has_parts(store, expr) {
                return false;
            },
            None => return false,
        }
    }
    true
}

fn has_pats_in_range(store: &ExpressionStoreBuilder) -> bool {
    for number in 0..store.pats_len() {
        match store.pat(PatId(number)) {
            Some(pat) => if !has_pat_parts(store, pat) {
                return false;
            },
            None => return false,
        }
    }
    true
}

fn has_types_in_range(store: &ExpressionStoreBuilder) -> bool {
    for number in 0..store.types_len() {
        match store.type_ref(TypeRefId(number)) {
            Some(ty) => if !has_type_parts(store, ty) {
                return false;
            },
            None => return false,
        }
    }
    true
}

/// Whether the bindings are there, and what owns them.
fn has_bindings(store: &ExpressionStoreBuilder) -> bool {
    for number in 0..store.bindings_len() {
        let id = BindingId(number);
        if store.binding(id).is_none() || !has_expr_option(store, store.binding_owner(id)) {
            return false;
        }
    }
    true
}

fn has_labels(store: &ExpressionStoreBuilder) -> bool {
    for number in 0..store.labels_len() {
        if store.label(LabelId(number)).is_none() {
            return false;
        }
    }
    true
}

fn has_lifetimes(store: &ExpressionStoreBuilder) -> bool {
    for number in 0..store.lifetimes_len() {
        if store.lifetime(LifetimeRefId(number)).is_none() {
            return false;
        }
    }
    true
}

/// Whether a root is there, and no more belongs to it than is there.
fn has_root(store: &ExpressionStoreBuilder, root: &ExprRoot) -> bool {
    has_expr(store, root.root)
        && root.exprs_end.0 <= store.exprs_len()
        && root.pats_end.0 <= store.pats_len()
        && root.bindings_end.0 <= store.bindings_len()
}

fn has_roots(store: &ExpressionStoreBuilder) -> bool {
    for root in store.expr_roots() {
        if !has_root(store, root) {
            return false;
        }
    }
    true
}

/// Whether nothing stands behind the entries that are counted.
fn has_no_more(store: &ExpressionStoreBuilder) -> bool {
    store.expr(ExprId(store.exprs_len())).is_none()
        && store.pat(PatId(store.pats_len())).is_none()
        && store.type_ref(TypeRefId(store.types_len())).is_none()
        && store.label(LabelId(store.labels_len())).is_none()
        && store
            .lifetime(LifetimeRefId(store.lifetimes_len()))
            .is_none()
        && store.binding(BindingId(store.bindings_len())).is_none()
}

/// Whether each number in a store that is being filled is one of an entry that is there: in expressions, patterns, types and roots, and of
/// what owns bindings. Labels, lifetimes and bindings name nothing by number. Its source map isn't lent.
pub fn in_range(store: &ExpressionStoreBuilder) -> bool {
    has_exprs_in_range(store)
        && has_pats_in_range(store)
        && has_types_in_range(store)
        && has_bindings(store)
        && has_labels(store)
        && has_lifetimes(store)
        && has_roots(store)
        && has_no_more(store)
}
