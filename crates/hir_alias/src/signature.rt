//! What an alias is.

ghost use Rattle.std.specs.Prelude.{◌≡◌, ◌≢◌, ◌↔◌, Err, IfOk, IsTrue, slice_get, true};
ghost use Rattle.hir_alias.specs.Alias.{Flags};
ghost use Rattle.hir_alias.specs.Reaching.{Names};
ghost use Rattle.hir_store.specs.declared.error.StoreError.TheVariants.{Full};

use crate::visitor::Visitor;
use hir_base::Seq;
use hir_store::error::StoreError;
use hir_store::generics::GenericParams;
use hir_store::ids::TypeRefId;
use hir_store::store::ExpressionStore;
use std::alloc::{AllocError, Global};
use std::marker::Model;

/// What an alias was lowered to.
#[derive(Drop)]
pub(crate) struct Lowered {
    pub(crate) store: ExpressionStore,
    pub(crate) generic_params: GenericParams,
    pub(crate) ty: Option<TypeRefId>,
}

/// A type alias: its type, where it has one, in a store of its own, its generic parameters, and which of the lifetimes among them the
/// type names.
pub struct AliasSignature {
    alloc: Global,
    lowered: Lowered,
    named: Seq<bool>,
}

impl Drop for AliasSignature {
    fn drop(self) {
        let AliasSignature {
            alloc: _,
            lowered: _,
            named: _,
        } = self;
    }
}

impl Model for AliasSignature {
    ghost use Rattle.hir_alias.specs.Alias.{Alias, Flags};
    ghost use Rattle.hir_store.specs.contracts.path.GenericArgs as generic_args;
    ghost use Rattle.std.specs.Coded.{codes};

    ghost Value = { Alias };

    ghost coded = { Prim.hlevel (codes, generic_args.the_row.coded) };

    ghost view = { λ a. record {
      store = a.lowered.store;
      generic_params = a.lowered.generic_params;
      ty = a.lowered.ty;
      named = a.named;
    } };

    ghost invariant = { λ a. Flags a.lowered.store a.lowered.generic_params a.lowered.ty a.named };
}

/// Walks the type of an alias, and answers for each of its lifetime parameters whether the type names it.
fn flags_of(alloc: Global, lowered: &Lowered) -> Result<Seq<bool>, AllocError>
    ensures { IfOk result (λ named. Flags lowered.now.store lowered.now.generic_params lowered.now.ty named) }
{
    let mut visitor = Visitor::over(alloc, lowered);
    visitor.walk_all()?;
    Ok(visitor.into_named())
}

impl AliasSignature {
    /// An alias of these parts. Its type is walked once, here, and not where the alias is used. Where memory is refused there is none.
    pub fn new(
        alloc: Global,
        store: ExpressionStore,
        generic_params: GenericParams,
        ty: Option<TypeRefId>,
    ) -> Result<AliasSignature, StoreError>
        ensures store { IfOk result (λ alias. alias.store ≡ store) }
        ensures generic_params { IfOk result (λ alias. alias.generic_params ≡ generic_params) }
        ensures ty { IfOk result (λ alias. alias.ty ≡ ty) }
        ensures named { IfOk result (λ alias. Flags store generic_params ty alias.named) }
        ensures memory { result ≢ Err Full }
    {
        let lowered = Lowered {
            store,
            generic_params,
            ty,
        };
        let named = flags_of(alloc, &lowered)?;
        Ok(AliasSignature {
            alloc,
            lowered,
            named,
        })
    }

    /// The store in which the alias is lowered.
    pub fn store(&self) -> &ExpressionStore
        ensures { result.now ≡ self.now.store }
    {
        &self.lowered.store
    }

    /// What is generic in the alias, by numbers of its store.
    pub fn generic_params(&self) -> &GenericParams
        ensures { result.now ≡ self.now.generic_params }
    {
        &self.lowered.generic_params
    }

    /// The type that the alias stands for, by its number in the store; none where none is written.
    pub fn ty(&self) -> Option<TypeRefId>
        ensures { result ≡ self.now.ty }
    {
        self.lowered.ty
    }

    /// Of each lifetime parameter, in their order, whether the type names it.
    pub fn named(&self) -> &[bool]
        ensures named { result.now ≡ self.now.named }
        ensures emitted { Flags self.now.store self.now.generic_params self.now.ty result.now }
    {
        self.named.as_slice()
    }

    /// Whether the type names the lifetime parameter at this place; past the last one it doesn't.
    pub fn is_constrained(&self, place: u32) -> bool
        ensures emitted { IsTrue result ↔ Names self.now.store self.now.generic_params.lifetimes self.now.ty place }
        ensures flag { IsTrue result ↔ (slice_get self.now.named place ≡ Some true) }
    {
        match self.named.get(place as usize) {
            Some(named) => *named,
            None => false,
        }
    }

    pub(crate) fn lowered(&self) -> &Lowered
        ensures { (result.now.store ≡ self.now.store) × (result.now.generic_params ≡ self.now.generic_params)
            × (result.now.ty ≡ self.now.ty) }
    {
        &self.lowered
    }

    pub(crate) fn alloc(&self) -> Global {
        self.alloc
    }
}
