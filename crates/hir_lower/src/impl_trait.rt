//! What becomes of an `impl` in a path that is lowered by itself.

ghost use Rattle.std.specs.Prelude.{◌≡◌, ◌≢◌, Err, IfOk, IsErrOf, None, Option, Some};
ghost use Rattle.hir_store.specs.Range.{HasBounds};
ghost use Rattle.hir_env.specs.ResolveCtx.{in_file};
ghost use Rattle.hir_env.specs.declared.ctx.ImplTrait.{ImplTrait as Mode};
ghost use Rattle.hir_lower.specs.Argument.{ArgumentsAreOne};
ghost use Rattle.hir_lower.specs.Calls.{Calls};
ghost use Rattle.hir_lower_builder.specs.declared.generics.GenericLists.{GenericLists as AllLists};
ghost use Rattle.hir_lower.specs.Means.{AddsType, NoRoomForImpl, NoRoomForType, RoomForImpl, RoomForType, becomes, lists_behind};

use crate::collector::ExprCollector;
use crate::error::LowerError;
use hir_base::node::AstPtr;
use hir_env::ctx::ImplTrait;
use hir_env::env::LowerEnv;
use hir_lower_builder::generics::GenericLists;
use hir_store::ids::{GenericDefId, TypeRefId};
use hir_store::type_ref::{TypeBound, TypeRef};
use hir_syntax::Seq;

/// What an `impl` becomes, by its kind.
pub trait ImplTraitMode {
    /// What it becomes.
    ghost mode: { Self → Mode };

    /// What an `impl` becomes.
    fn mode(&self) -> ImplTrait
        ensures { result ≡ mode self.now };
}

/// What an `impl` becomes, where the caller of `ExprCollector::lower_path` chooses.
pub trait ImplTraitLower: ImplTraitMode {
    /// The parameter lists that it has.
    ghost lists: { Self → Option AllLists };

    /// Stores what an `impl` at the node becomes, which has these bounds.
    fn lower<E: LowerEnv>(
        &mut self,
        collector: &mut ExprCollector<'_, E>,
        ptr: AstPtr,
        bounds: Seq<TypeBound>,
    ) -> Result<TypeRefId, LowerError>
        requires { HasBounds collector.old.state.stored bounds }
        ensures calls { Calls collector.old.failed collector.old.state result collector.new.state collector.new.failed }
        ensures adds { let at = in_file collector.old.place ptr in
            IfOk result (λ i. AddsType collector.old.state.stored collector.new.state.stored i
            (becomes (Self.mode self.old) (lists self.old) bounds) at) }
        ensures lists { IfOk result (λ i. lists self.new ≡ lists_behind (Self.mode self.old) (lists self.old) i bounds) }
        ensures full { IsErrOf result LowerError.Full → NoRoomForImpl collector.old.state.stored (lists self.old) }
        ensures fits { IfOk result (λ i. RoomForImpl collector.old.state.stored (lists self.old)) }
        ensures unchanged { IsErrOf result LowerError.Full → collector.new.state.stored ≡ collector.old.state.stored }
        ensures scopes { result ≢ Err LowerError.Memory → collector.new.state.scopes ≡ collector.old.state.scopes }
        ensures names { result ≢ Err LowerError.Memory → collector.new.state.names ≡ collector.old.state.names }
        ensures tracks { result ≢ Err LowerError.Memory → collector.new.state.tracks ≡ collector.old.state.tracks }
        ensures db { collector.new.db ≡ collector.old.db }
        ensures place { collector.new.place ≡ collector.old.place };
}

/// An `impl` becomes an error.
#[derive(Clone, Copy)]
pub struct ErrorImplTrait;

/// An `impl` stays one.
#[derive(Clone, Copy)]
pub struct OpaqueImplTrait;

/// An `impl` becomes a parameter of the definition, behind those of the lists that it borrows, with a predicate for each of its bounds.
/// Only this crate can make one. The walk of an item notes in its builder what `lower` adds to these lists (`arguments_are_one`).
#[derive(Drop)]
pub struct ArgumentImplTrait<'l> {
    parent: GenericDefId,
    lists: &'l mut GenericLists,
}

impl<'l> ArgumentImplTrait<'l> {
    pub(crate) fn new(parent: GenericDefId, lists: &'l mut GenericLists) -> ArgumentImplTrait<'l>
        ensures parent { result.parent ≡ parent }
        ensures value { result.lists.now ≡ lists.old }
        ensures same_reference { result.lists.ghost_name ≡ lists.entry.ghost_name }
    {
        ArgumentImplTrait { parent, lists }
    }
}

impl ImplTraitMode for ErrorImplTrait {
    ghost mode = { λ it. Mode.Error };

    fn mode(&self) -> ImplTrait {
        ImplTrait::Error
    }
}

impl ImplTraitLower for ErrorImplTrait {
    ghost lists = { λ it. None };

    fn lower<E: LowerEnv>(
        &mut self,
        collector: &mut ExprCollector<'_, E>,
        ptr: AstPtr,
        bounds: Seq<TypeBound>,
    ) -> Result<TypeRefId, LowerError> {
        impl_trait_error_allocator(collector, ptr, bounds)
    }
}

impl ImplTraitMode for OpaqueImplTrait {
    ghost mode = { λ it. Mode.Opaque };

    fn mode(&self) -> ImplTrait {
        ImplTrait::Opaque
    }
}

impl ImplTraitLower for OpaqueImplTrait {
    ghost lists = { λ it. None };

    fn lower<E: LowerEnv>(
        &mut self,
        collector: &mut ExprCollector<'_, E>,
        ptr: AstPtr,
        bounds: Seq<TypeBound>,
    ) -> Result<TypeRefId, LowerError> {
        collector.add_type(TypeRef::ImplTrait(bounds), ptr)
    }
}

impl ImplTraitMode for ArgumentImplTrait<'_> {
    ghost mode = { λ it. Mode.Argument it.parent };

    fn mode(&self) -> ImplTrait {
        ImplTrait::Argument(self.parent)
    }
}

impl ImplTraitLower for ArgumentImplTrait<'_> {
    ghost lists = { λ it. Some it.lists.now };

    fn lower<E: LowerEnv>(
        &mut self,
        collector: &mut ExprCollector<'_, E>,
        ptr: AstPtr,
        bounds: Seq<TypeBound>,
    ) -> Result<TypeRefId, LowerError> {
        collector.add_param(self.lists, self.parent, &bounds, ptr)
    }
}

/// What `ArgumentImplTrait::lower` stores, answers and adds to its lists is what the walk of an item stores, answers and notes of an `impl`
/// in an argument: from the same store and behind the same lists each of the two says all of what the other does, and both are refused just
/// where there is no room for a type or for a parameter, except for memory, and after an error. A theorem, which does nothing.
pub fn arguments_are_one()
    ensures { ArgumentsAreOne }
{}

/// Stores one error type, to which the node leads from now on, and drops the bounds (upstream's function of this name).
///
/// Nothing else changes. `Memory` where a growth was refused, `Full` where the arena of types stands at its limit, `Failed`
/// after an error; the bounds are dropped then too.
pub fn impl_trait_error_allocator<E: LowerEnv>(
    collector: &mut ExprCollector<'_, E>,
    ptr: AstPtr,
    bounds: Seq<TypeBound>,
) -> Result<TypeRefId, LowerError>
    ensures calls { Calls collector.old.failed collector.old.state result collector.new.state collector.new.failed }
    ensures adds { let at = in_file collector.old.place ptr in
        IfOk result (λ i. AddsType collector.old.state.stored collector.new.state.stored i TypeRef.Error at) }
    ensures full { IsErrOf result LowerError.Full → NoRoomForType collector.old.state.stored }
    ensures fits { IfOk result (λ i. RoomForType collector.old.state.stored) }
    ensures unchanged { IsErrOf result LowerError.Full → collector.new.state.stored ≡ collector.old.state.stored }
    ensures scopes { result ≢ Err LowerError.Memory → collector.new.state.scopes ≡ collector.old.state.scopes }
    ensures names { result ≢ Err LowerError.Memory → collector.new.state.names ≡ collector.old.state.names }
    ensures tracks { result ≢ Err LowerError.Memory → collector.new.state.tracks ≡ collector.old.state.tracks }
    ensures db { collector.new.db ≡ collector.old.db }
    ensures place { collector.new.place ≡ collector.old.place }
{
    drop(bounds);
    collector.add_type(TypeRef::Error, ptr)
}
