//! Where a part of a tree is read.

ghost use Rattle.std.specs.Prelude.{◌≡◌};
ghost use Rattle.hir_env.specs.Paths as spec;

use hir_base::node::HirFileId;
use hir_store::diagnostics::AwaitLocation;
use hir_store::ids::{GenericDefId, ModuleId};

/// Whether the numbers of blocks are asked for.
#[derive(Clone, Copy, PartialEq, Eq)]
pub enum LoweringMode {
    Analysis,
    Untracked,
}

/// What an `impl` becomes that stands in no other one.
#[derive(Clone, Copy, PartialEq, Eq)]
pub enum ImplTrait {
    /// An error, whose bounds are read.
    Error,
    Opaque,
    /// A parameter of this definition, with a predicate for each of its bounds.
    Argument(GenericDefId),
}

/// Where a named lifetime counts: nowhere, in a bound, in an argument, in a projection of an argument, or in what is returned.
#[derive(Clone, Copy, PartialEq, Eq)]
pub enum LifetimeScope {
    Nowhere,
    Bound,
    Input,
    Projection,
    Output,
}

/// The file of a node, the module of the innermost block with a number, the mode, what an `await` stands in, where
/// that isn't async, what an `impl` becomes, whether the place is inside of one, where a named lifetime counts, and how many more
/// macro calls may be entered.
#[derive(Clone, Copy, PartialEq, Eq)]
pub struct LowerCtx {
    pub file_id: HirFileId,
    pub module_id: ModuleId,
    pub mode: LoweringMode,
    pub await_location: Option<AwaitLocation>,
    pub impl_trait: ImplTrait,
    pub in_impl: bool,
    pub lifetimes: LifetimeScope,
    pub left: u32,
}

/// Where the expression of a constant is read that is written at this place.
pub fn inside_constant(place: LowerCtx) -> LowerCtx
    ensures { result ≡ spec.inside_constant place }
{
    LowerCtx {
        impl_trait: ImplTrait::Error,
        await_location: Some(AwaitLocation::Constant),
        ..place
    }
}
