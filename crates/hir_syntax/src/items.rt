//! Items, and what is generic in them. A part that a broken text lacks is `None`.

use crate::ast::{ConstArg, Expr, ForBinder, Lifetime, Name, ParamList, RetType, Type_, TypeBound};
use hir_base::node::{NodeId, TextRange};
use hir_base::{Boxed, Seq};

/// A generic parameter.
pub enum GenericParam {
    TypeParam {
        id: NodeId,
        range: TextRange,
        name: Option<Name>,
        bounds: Seq<TypeBound>,
        default: Option<Boxed<Type_>>,
    },
    ConstParam {
        id: NodeId,
        range: TextRange,
        name: Option<Name>,
        ty: Option<Boxed<Type_>>,
        default: Option<ConstArg>,
    },
    LifetimeParam {
        id: NodeId,
        range: TextRange,
        lifetime: Option<Lifetime>,
        bounds: Seq<TypeBound>,
    },
}

impl Drop for GenericParam {
    fn drop(self) {
        match self {
            GenericParam::TypeParam {
                id: _,
                range: _,
                name: _,
                bounds: _,
                default: _,
            } => {}
            GenericParam::ConstParam {
                id: _,
                range: _,
                name: _,
                ty: _,
                default: _,
            } => {}
            GenericParam::LifetimeParam {
                id: _,
                range: _,
                lifetime: _,
                bounds: _,
            } => {}
        }
    }
}

/// `<..>` behind the name of an item.
pub type GenericParamList = Seq<GenericParam>;

/// A condition of a `where`: bounds of a type or of a lifetime.
pub struct WherePred {
    pub id: NodeId,
    pub range: TextRange,
    pub ty: Option<Boxed<Type_>>,
    pub lifetime: Option<Lifetime>,
    /// `for<..>` in front of the type.
    pub binder: Option<ForBinder>,
    pub bounds: Seq<TypeBound>,
}

impl Drop for WherePred {
    fn drop(self) {
        let WherePred {
            id: _,
            range: _,
            ty: _,
            lifetime: _,
            binder: _,
            bounds: _,
        } = self;
    }
}

/// The conditions behind a `where`.
pub type WhereClause = Seq<WherePred>;

/// A function, of which a constant or a static takes the body alone. With `async` or `gen` the body is a coroutine.
pub struct Fn {
    pub id: NodeId,
    pub range: TextRange,
    pub generics: Option<GenericParamList>,
    pub where_: Option<WhereClause>,
    pub params: Option<ParamList>,
    pub ret: Option<RetType>,
    pub body: Option<Boxed<Expr>>,
    pub async_: bool,
    pub gen_: bool,
}

impl Drop for Fn {
    fn drop(self) {
        let Fn {
            id: _,
            range: _,
            generics: _,
            where_: _,
            params: _,
            ret: _,
            body: _,
            async_: _,
            gen_: _,
        } = self;
    }
}

/// An implementation, of a trait where one is written.
pub struct Impl {
    pub id: NodeId,
    pub range: TextRange,
    pub self_ty: Option<Boxed<Type_>>,
    /// The trait, which is written as a type.
    pub trait_: Option<Boxed<Type_>>,
    pub generics: Option<GenericParamList>,
    pub where_: Option<WhereClause>,
}

impl Drop for Impl {
    fn drop(self) {
        let Impl {
            id: _,
            range: _,
            self_ty: _,
            trait_: _,
            generics: _,
            where_: _,
        } = self;
    }
}

/// A trait.
pub struct Trait {
    pub id: NodeId,
    pub range: TextRange,
    /// The bounds of `Self`.
    pub bounds: Seq<TypeBound>,
    pub generics: Option<GenericParamList>,
    pub where_: Option<WhereClause>,
}

impl Drop for Trait {
    fn drop(self) {
        let Trait {
            id: _,
            range: _,
            bounds: _,
            generics: _,
            where_: _,
        } = self;
    }
}

/// Another name for a type. One that stands in a trait may lack the type.
pub struct TypeAlias {
    pub id: NodeId,
    pub range: TextRange,
    pub bounds: Seq<TypeBound>,
    pub generics: Option<GenericParamList>,
    pub where_: Option<WhereClause>,
    pub ty: Option<Boxed<Type_>>,
}

impl Drop for TypeAlias {
    fn drop(self) {
        let TypeAlias {
            id: _,
            range: _,
            bounds: _,
            generics: _,
            where_: _,
            ty: _,
        } = self;
    }
}
