//! Where the parts of an item are read.

ghost use Rattle.std.specs.Prelude.{◌≡◌};
ghost use Rattle.hir_env.specs.ResolveCtx.{in_file, ptr};
ghost use Rattle.hir_lower_item.specs.Answering as of;

use hir_base::node::{AstPtr, InFile, NodeId, TextRange};
use hir_env::ctx::{ImplTrait, LifetimeScope, LowerCtx};
use hir_store::ids::GenericDefId;

/// The bounds of parameters and of where predicates.
pub(crate) fn in_bounds(def: GenericDefId, place: LowerCtx) -> LowerCtx
    ensures { result ≡ of.in_bounds def place }
{
    LowerCtx {
        impl_trait: ImplTrait::Argument(def),
        lifetimes: LifetimeScope::Bound,
        ..place
    }
}

/// What a where predicate is of.
pub(crate) fn in_target(place: LowerCtx) -> LowerCtx
    ensures { result ≡ of.in_target place }
{
    LowerCtx {
        impl_trait: ImplTrait::Error,
        lifetimes: LifetimeScope::Bound,
        ..place
    }
}

/// The bounds of a trait's `Self`.
pub(crate) fn in_self_bounds(def: GenericDefId, place: LowerCtx) -> LowerCtx
    ensures { result ≡ of.in_self_bounds def place }
{
    LowerCtx {
        impl_trait: ImplTrait::Argument(def),
        lifetimes: LifetimeScope::Nowhere,
        ..place
    }
}

/// The types of a function's parameters.
pub(crate) fn in_arguments(def: GenericDefId, place: LowerCtx) -> LowerCtx
    ensures { result ≡ of.in_arguments def place }
{
    LowerCtx {
        impl_trait: ImplTrait::Argument(def),
        lifetimes: LifetimeScope::Input,
        ..place
    }
}

/// What a function returns.
pub(crate) fn in_output(place: LowerCtx) -> LowerCtx
    ensures { result ≡ of.in_output place }
{
    LowerCtx {
        impl_trait: ImplTrait::Opaque,
        lifetimes: LifetimeScope::Output,
        ..place
    }
}

/// The trait of an `impl`, and the bounds and the type of an alias.
pub(crate) fn in_opaque(place: LowerCtx) -> LowerCtx
    ensures { result ≡ of.in_opaque place }
{
    LowerCtx {
        impl_trait: ImplTrait::Opaque,
        lifetimes: LifetimeScope::Nowhere,
        ..place
    }
}

/// The defaults and the types of parameters, and the type of an `impl`.
pub(crate) fn in_plain(place: LowerCtx) -> LowerCtx
    ensures { result ≡ of.in_plain place }
{
    LowerCtx {
        impl_trait: ImplTrait::Error,
        lifetimes: LifetimeScope::Nowhere,
        ..place
    }
}

/// The pointer to a node of the file.
pub(crate) fn pointer(place: LowerCtx, node: NodeId, range: TextRange) -> InFile<AstPtr>
    ensures { result ≡ in_file place (ptr node range) }
{
    InFile {
        file_id: place.file_id,
        value: AstPtr { node, range },
    }
}
