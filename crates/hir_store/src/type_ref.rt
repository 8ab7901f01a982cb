//! Types, lifetimes and bounds.

ghost use Rattle.std.specs.Prelude.{◌≡◌, IfOk};

use crate::hir::Mutability;
use crate::ids::{ExprId, LifetimeRefId, PatId, TypeParamId, TypeRefId};
use crate::name::{Name, copy_names};
use crate::path::Path;
use hir_base::Seq;
use std::alloc::AllocError;

/// A lifetime as written. `Placeholder` is `'_`; an empty text and `'` alone are errors.
pub enum LifetimeRef {
    Named(Name),
    Static,
    Placeholder,
    Error,
}

impl Drop for LifetimeRef {
    fn drop(self) {
        match self {
            LifetimeRef::Named(_) => {}
            LifetimeRef::Static => {}
            LifetimeRef::Placeholder => {}
            LifetimeRef::Error => {}
        }
    }
}

/// Whether a bound bears a `?`.
#[derive(Clone, Copy, PartialEq, Eq)]
pub enum TraitBoundModifier {
    None,
    Maybe,
}

/// What `use<..>` names.
pub enum UseArgRef {
    Name(Name),
    Lifetime(LifetimeRefId),
}

impl Drop for UseArgRef {
    fn drop(self) {
        match self {
            UseArgRef::Name(_) => {}
            UseArgRef::Lifetime(_) => {}
        }
    }
}

impl Clone for UseArgRef {
    ghost is_clone = { λ arg copy. copy ≡ arg };

    fn clone(&self) -> Result<UseArgRef, AllocError> {
        match self {
            UseArgRef::Name(name) => Ok(UseArgRef::Name(name.clone()?)),
            UseArgRef::Lifetime(id) => Ok(UseArgRef::Lifetime(*id)),
        }
    }
}

#[tactic(auto, using(crate::proofs::Copies::same_use_args))]
fn copy_use_args(args: &Seq<UseArgRef>) -> Result<Seq<UseArgRef>, AllocError>
    ensures { IfOk result (λ copy. copy ≡ args.now) }
{
    args.clone()
}

/// A bound. A path is stored as a type, and behind `for<..>` it stands beside the names of the lifetimes there, where no `?`
/// counts.
pub enum TypeBound {
    Path(TypeRefId, TraitBoundModifier),
    ForLifetime(Seq<Name>, TypeRefId),
    Lifetime(LifetimeRefId),
    Use(Seq<UseArgRef>),
    Error,
}

impl Drop for TypeBound {
    fn drop(self) {
        match self {
            TypeBound::Path(_, _) => {}
            TypeBound::ForLifetime(_, _) => {}
            TypeBound::Lifetime(_) => {}
            TypeBound::Use(_) => {}
            TypeBound::Error => {}
        }
    }
}

impl Clone for TypeBound {
    ghost is_clone = { λ bound copy. copy ≡ bound };

    fn clone(&self) -> Result<TypeBound, AllocError> {
        match self {
            TypeBound::Path(id, modifier) => Ok(TypeBound::Path(*id, *modifier)),
            TypeBound::ForLifetime(names, id) => {
                Ok(TypeBound::ForLifetime(copy_names(names)?, *id))
            }
            TypeBound::Lifetime(id) => Ok(TypeBound::Lifetime(*id)),
            TypeBound::Use(args) => Ok(TypeBound::Use(copy_use_args(args)?)),
            TypeBound::Error => Ok(TypeBound::Error),
        }
    }
}

/// The same bounds once more.
#[tactic(auto, using(crate::proofs::Copies::same_bounds))]
pub fn copy_bounds(bounds: &Seq<TypeBound>) -> Result<Seq<TypeBound>, AllocError>
    ensures { IfOk result (λ copy. copy ≡ bounds.now) }
{
    bounds.clone()
}

/// A trait, by the path that names it.
#[derive(Clone, Copy, PartialEq, Eq)]
pub struct TraitRef {
    pub path: TypeRefId,
}

/// A lowered constant.
#[derive(Clone, Copy, PartialEq, Eq)]
pub struct ConstRef {
    pub expr: ExprId,
}

/// `[T; N]`. A length that isn't written is a missing expression.
#[derive(Clone, Copy, PartialEq, Eq)]
pub struct ArrayType {
    pub ty: TypeRefId,
    pub len: ConstRef,
}

/// `&'a mut T`.
#[derive(Clone, Copy, PartialEq, Eq)]
pub struct RefType {
    pub ty: TypeRefId,
    pub lifetime: Option<LifetimeRefId>,
    pub mutability: Mutability,
}

/// The ABI of a function pointer. One that isn't written is `Rust`, one of another text `C`.
#[derive(Clone, Copy, PartialEq, Eq)]
pub enum ExternAbi {
    Rust,
    C,
    CUnwind,
    System,
    SystemUnwind,
    Cdecl,
    Stdcall,
    Fastcall,
    Vectorcall,
    Thiscall,
    Aapcs,
    Win64,
    Sysv64,
    Efiapi,
    RustCall,
}

/// A function pointer. The last of `params` is what it returns, and `names` has what each of the others is called, where it has a
/// name. `binder` has the names of the lifetimes of the `for<..>` directly around it, where one stands there.
pub struct FnType {
    pub params: Seq<TypeRefId>,
    pub names: Seq<Option<Name>>,
    pub is_varargs: bool,
    pub is_unsafe: bool,
    pub abi: ExternAbi,
    pub binder: Option<Seq<Name>>,
}

impl Drop for FnType {
    fn drop(self) {
        let FnType {
            params: _,
            names: _,
            is_varargs: _,
            is_unsafe: _,
            abi: _,
            binder: _,
        } = self;
    }
}

/// A type, whose parts stand in the same store.
pub enum TypeRef {
    Never,
    Placeholder,
    Error,
    Tuple(Seq<TypeRefId>),
    Path(Path),
    RawPtr(TypeRefId, Mutability),
    Reference(RefType),
    Slice(TypeRefId),
    Array(ArrayType),
    Fn(FnType),
    ImplTrait(Seq<TypeBound>),
    DynTrait(Seq<TypeBound>),
    /// The values of a type that a pattern fits.
    Pattern(TypeRefId, PatId),
    /// What is given for a parameter of an item. Where the parameter is an `impl` of an argument, its bounds stand among the item's
    /// predicates.
    TypeParam(TypeParamId),
}

impl Drop for TypeRef {
    fn drop(self) {
        match self {
            TypeRef::Never => {}
            TypeRef::Placeholder => {}
            TypeRef::Error => {}
            TypeRef::Tuple(_) => {}
            TypeRef::Path(_) => {}
            TypeRef::RawPtr(_, _) => {}
            TypeRef::Reference(_) => {}
            TypeRef::Slice(_) => {}
            TypeRef::Array(_) => {}
            TypeRef::Fn(_) => {}
            TypeRef::ImplTrait(_) => {}
            TypeRef::DynTrait(_) => {}
            TypeRef::Pattern(_, _) => {}
            TypeRef::TypeParam(_) => {}
        }
    }
}
