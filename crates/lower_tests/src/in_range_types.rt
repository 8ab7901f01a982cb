//! Whether the numbers in the paths and the types of a store that a collector fills are numbers of its entries.

use hir_store::builder::ExpressionStoreBuilder;
use hir_store::ids::{ExprId, LifetimeRefId, PatId, TypeRefId};
use hir_store::path::{AssociatedTypeBinding, GenericArg, GenericArgs, NormalPath, Path};
use hir_store::type_ref::{TypeBound, TypeRef, UseArgRef};

pub fn has_expr(store: &ExpressionStoreBuilder, id: ExprId) -> bool {
    store.expr(id).is_some()
}

pub fn has_pat(store: &ExpressionStoreBuilder, id: PatId) -> bool {
    store.pat(id).is_some()
}

pub fn has_type(store: &ExpressionStoreBuilder, id: TypeRefId) -> bool {
    store.type_ref(id).is_some()
}

pub fn has_type_option(store: &ExpressionStoreBuilder, id: Option<TypeRefId>) -> bool {
    match id {
        Some(id) => has_type(store, id),
        None => true,
    }
}

fn has_lifetime(store: &ExpressionStoreBuilder, id: LifetimeRefId) -> bool {
    store.lifetime(id).is_some()
}

fn has_lifetime_option(store: &ExpressionStoreBuilder, id: Option<LifetimeRefId>) -> bool {
    match id {
        Some(id) => has_lifetime(store, id),
        None => true,
    }
}

fn has_types(store: &ExpressionStoreBuilder, ids: &[TypeRefId]) -> bool {
    for id in ids {
        if !has_type(store, *id) {
            return false;
        }
    }
    true
}

fn has_uses(store: &ExpressionStoreBuilder, uses: &[UseArgRef]) -> bool {
    for it in uses {
        if let UseArgRef::Lifetime(id) = it {
            if !has_lifetime(store, *id) {
                return false;
            }
        }
    }
    true
}

fn has_bound(store: &ExpressionStoreBuilder, bound: &TypeBound) -> bool {
    match bound {
        TypeBound::Path(id, _) | TypeBound::ForLifetime(_, id) => has_type(store, *id),
        TypeBound::Lifetime(id) => has_lifetime(store, *id),
        TypeBound::Use(uses) => has_uses(store, uses.as_slice()),
        TypeBound::Error => true,
    }
}

fn has_bounds(store: &ExpressionStoreBuilder, bounds: &[TypeBound]) -> bool {
    for bound in bounds {
        if !has_bound(store, bound) {
            return false;
        }
    }
    true
}

fn has_each_arg(store: &ExpressionStoreBuilder, args: &[GenericArg]) -> bool {
    for arg in args {
        let is_there = match *arg {
            GenericArg::Type_(id) => has_type(store, id),
            GenericArg::Lifetime(id) => has_lifetime(store, id),
            GenericArg::Const(constant) => has_expr(store, constant.expr),
        };
        if !is_there {
            return false;
        }
    }
    true
}

#[cycle(arguments)]
fn has_args(store: &ExpressionStoreBuilder, args: &GenericArgs) -> bool {
    has_each_arg(store, args.args.as_slice()) && has_type_bindings(store, args.bindings.as_slice())
}

#[cycle(arguments)]
fn has_type_bindings(store: &ExpressionStoreBuilder, bindings: &[AssociatedTypeBinding]) -> bool {
    for binding in bindings {
        if !has_type_binding(store, binding) {
            return false;
        }
    }
    true
}

#[cycle(arguments)]
fn has_type_binding(store: &ExpressionStoreBuilder, binding: &AssociatedTypeBinding) -> bool {
    let has_own_args = match &binding.args {
        Some(args) => has_args(store, args),
        None => true,
    };
    has_own_args
        && has_type_option(store, binding.type_ref)
        && has_bounds(store, binding.bounds.as_slice())
}

pub fn has_args_option(store: &ExpressionStoreBuilder, args: &Option<GenericArgs>) -> bool {
    match args {
        Some(args) => has_args(store, args),
        None => true,
    }
}

fn has_arg_lists(store: &ExpressionStoreBuilder, lists: &[Option<GenericArgs>]) -> bool {
    for list in lists {
        if !has_args_option(store, list) {
            return false;
        }
    }
    true
}

fn has_normal(store: &ExpressionStoreBuilder, path: &NormalPath) -> bool {
    has_type_option(store, path.type_anchor) && has_arg_lists(store, path.generic_args.as_slice())
}

pub fn has_path(store: &ExpressionStoreBuilder, path: &Path) -> bool {
    match path {
        Path::Normal(path) => has_normal(store, path),
        Path::BarePath(_) | Path::LangItem(_) => true,
    }
}

/// Whether what a type names is there.
pub fn has_type_parts(store: &ExpressionStoreBuilder, ty: &TypeRef) -> bool {
    match ty {
        TypeRef::Tuple(types) => has_types(store, types.as_slice()),
        TypeRef::Path(path) => has_path(store, path),
        TypeRef::RawPtr(id, _) | TypeRef::Slice(id) => has_type(store, *id),
        TypeRef::Reference(it) => {
            has_type(store, it.ty) && has_lifetime_option(store, it.lifetime)
        }
        TypeRef::Array(it) => has_type(store, it.ty) && has_expr(store, it.len.expr),
        TypeRef::Fn(it) => has_types(store, it.params.as_slice()),
        TypeRef::ImplTrait(bounds) | TypeRef::DynTrait(bounds) => {
            has_bounds(store, bounds.as_slice())
        }
        TypeRef::Pattern(id, pat) => has_type(store, *id) && has_pat(store, *pat),
        TypeRef::Never | TypeRef::Placeholder | TypeRef::Error | TypeRef::TypeParam(_) => true,
    }
}
