//! Types, and what stands beside them.

ghost use Rattle.json_nodes.specs.Types.{type_at};
ghost use Rattle.json_nodes.specs.Groups.{binder_of, bound_of, path_type_of, ret_of, type_of};

use crate::part::{BoxedGroup, KindGroup, SortGroup, Sorted, boxed_part, in_box};
use crate::sorts::TypeSort;
use hir_base::Boxed;
use hir_base::node::{NodeId, TextRange};
use hir_syntax::ast::{ForBinder, PathType, RetType, Type_, TypeBound, TypeKind};
use std::alloc::Global;

/// A type, or what stands beside one, whichever types they have.
pub enum TypeOf<T, P, B, F, R> {
    Type_(T),
    /// A path as a type, which may also name a trait.
    PathType(P),
    Bound(B),
    Binder(F),
    Ret(R),
}

/// A type, or what stands beside one.
pub type TypePart = TypeOf<Boxed<Type_>, PathType, Boxed<TypeBound>, ForBinder, RetType>;

/// Types.
pub struct Types;

/// Paths as types.
pub struct PathTypes;

/// Bounds of a type.
pub struct Bounds;

/// The lifetimes that `for` introduces.
pub struct Binders;

/// Types that are returned.
pub struct Rets;

impl Sorted for Types {
    type Sort = TypeSort;
}

impl<B, F, R> SortGroup<TypeOf<Boxed<Type_>, PathType, B, F, R>> for Types {
    type Part = Type_;

    ghost of_sort = { type_of };

    fn from_sort(
        part: TypeOf<Boxed<Type_>, PathType, B, F, R>,
    ) -> Result<Type_, TypeOf<Boxed<Type_>, PathType, B, F, R>> {
        match part {
            TypeOf::Type_(ty) => Ok(ty.into_inner()),
            TypeOf::PathType(PathType { id, range, path }) => Ok(Type_ {
                id,
                range,
                kind: TypeKind::PathType { path },
            }),
            other => Err(other),
        }
    }
}

impl BoxedGroup for Types {
    fn boxed(alloc: Global, refused: &mut bool, part: Type_) -> Option<Boxed<Type_>> {
        boxed_part(alloc, refused, part)
    }
}

impl Sorted for PathTypes {
    type Sort = TypeSort;
}

impl<T, P, B, F, R> SortGroup<TypeOf<T, P, B, F, R>> for PathTypes {
    type Part = P;

    ghost of_sort = { path_type_of };

    fn from_sort(part: TypeOf<T, P, B, F, R>) -> Result<P, TypeOf<T, P, B, F, R>> {
        match part {
            TypeOf::PathType(ty) => Ok(ty),
            other => Err(other),
        }
    }
}

impl Sorted for Bounds {
    type Sort = TypeSort;
}

impl<T, P, F, R> SortGroup<TypeOf<T, P, Boxed<TypeBound>, F, R>> for Bounds {
    type Part = TypeBound;

    ghost of_sort = { bound_of };

    fn from_sort(
        part: TypeOf<T, P, Boxed<TypeBound>, F, R>,
    ) -> Result<TypeBound, TypeOf<T, P, Boxed<TypeBound>, F, R>> {
        match part {
            TypeOf::Bound(bound) => Ok(bound.into_inner()),
            other => Err(other),
        }
    }
}

impl BoxedGroup for Bounds {
    fn boxed(alloc: Global, refused: &mut bool, part: TypeBound) -> Option<Boxed<TypeBound>> {
        boxed_part(alloc, refused, part)
    }
}

impl Sorted for Binders {
    type Sort = TypeSort;
}

impl<T, P, B, F, R> SortGroup<TypeOf<T, P, B, F, R>> for Binders {
    type Part = F;

    ghost of_sort = { binder_of };

    fn from_sort(part: TypeOf<T, P, B, F, R>) -> Result<F, TypeOf<T, P, B, F, R>> {
        match part {
            TypeOf::Binder(binder) => Ok(binder),
            other => Err(other),
        }
    }
}

impl Sorted for Rets {
    type Sort = TypeSort;
}

impl<T, P, B, F, R> SortGroup<TypeOf<T, P, B, F, R>> for Rets {
    type Part = R;

    ghost of_sort = { ret_of };

    fn from_sort(part: TypeOf<T, P, B, F, R>) -> Result<R, TypeOf<T, P, B, F, R>> {
        match part {
            TypeOf::Ret(ret) => Ok(ret),
            other => Err(other),
        }
    }
}

impl KindGroup for Types {
    type Kind = TypeKind;

    type Whole = TypePart;

    ghost made = { type_at };

    fn make(
        alloc: Global,
        refused: &mut bool,
        id: NodeId,
        range: TextRange,
        kind: TypeKind,
    ) -> Option<TypePart> {
        let part = in_box::<Types>(alloc, refused, Type_ { id, range, kind })?;
        Some(TypePart::Type_(part))
    }
}
