//! The sorts of parts. What is of a sort is a type parameter, since a function whose signature names trees by value is dear.

ghost use Rattle.json_nodes.specs.Groups.{code_in, expr_in, name_in, param_in, pat_in, path_in, type_in};

use crate::part::{AnyOf, PartSort, SortGroup};

/// Expressions.
pub struct ExprSort;

/// Parts of expressions and statements.
pub struct CodeSort;

/// Patterns.
pub struct PatSort;

/// Parameters.
pub struct ParamSort;

/// Types.
pub struct TypeSort;

/// Paths.
pub struct PathSort;

/// Names.
pub struct NameSort;

impl<E, C, P, M, T, H, N> PartSort<AnyOf<E, C, P, M, T, H, N>> for ExprSort {
    type Held = E;

    ghost in_part = { expr_in };

    fn served<G: SortGroup<E>>(
        part: AnyOf<E, C, P, M, T, H, N>,
    ) -> Result<G::Part, AnyOf<E, C, P, M, T, H, N>> {
        match part {
            AnyOf::Expr(part) => match G::from_sort(part) {
                Ok(part) => Ok(part),
                Err(part) => Err(AnyOf::Expr(part)),
            },
            other => Err(other),
        }
    }
}

impl<E, C, P, M, T, H, N> PartSort<AnyOf<E, C, P, M, T, H, N>> for CodeSort {
    type Held = C;

    ghost in_part = { code_in };

    fn served<G: SortGroup<C>>(
        part: AnyOf<E, C, P, M, T, H, N>,
    ) -> Result<G::Part, AnyOf<E, C, P, M, T, H, N>> {
        match part {
            AnyOf::Code(part) => match G::from_sort(part) {
                Ok(part) => Ok(part),
                Err(part) => Err(AnyOf::Code(part)),
            },
            other => Err(other),
        }
    }
}

impl<E, C, P, M, T, H, N> PartSort<AnyOf<E, C, P, M, T, H, N>> for PatSort {
    type Held = P;

    ghost in_part = { pat_in };

    fn served<G: SortGroup<P>>(
        part: AnyOf<E, C, P, M, T, H, N>,
    ) -> Result<G::Part, AnyOf<E, C, P, M, T, H, N>> {
        match part {
            AnyOf::Pat(part) => match G::from_sort(part) {
                Ok(part) => Ok(part),
                Err(part) => Err(AnyOf::Pat(part)),
            },
            other => Err(other),
        }
    }
}

impl<E, C, P, M, T, H, N> PartSort<AnyOf<E, C, P, M, T, H, N>> for ParamSort {
    type Held = M;

    ghost in_part = { param_in };

    fn served<G: SortGroup<M>>(
        part: AnyOf<E, C, P, M, T, H, N>,
    ) -> Result<G::Part, AnyOf<E, C, P, M, T, H, N>> {
        match part {
            AnyOf::Param(part) => match G::from_sort(part) {
                Ok(part) => Ok(part),
                Err(part) => Err(AnyOf::Param(part)),
            },
            other => Err(other),
        }
    }
}

impl<E, C, P, M, T, H, N> PartSort<AnyOf<E, C, P, M, T, H, N>> for TypeSort {
    type Held = T;

    ghost in_part = { type_in };

    fn served<G: SortGroup<T>>(
        part: AnyOf<E, C, P, M, T, H, N>,
    ) -> Result<G::Part, AnyOf<E, C, P, M, T, H, N>> {
        match part {
            AnyOf::Type_(part) => match G::from_sort(part) {
                Ok(part) => Ok(part),
                Err(part) => Err(AnyOf::Type_(part)),
            },
            other => Err(other),
        }
    }
}

impl<E, C, P, M, T, H, N> PartSort<AnyOf<E, C, P, M, T, H, N>> for PathSort {
    type Held = H;

    ghost in_part = { path_in };

    fn served<G: SortGroup<H>>(
        part: AnyOf<E, C, P, M, T, H, N>,
    ) -> Result<G::Part, AnyOf<E, C, P, M, T, H, N>> {
        match part {
            AnyOf::Path(part) => match G::from_sort(part) {
                Ok(part) => Ok(part),
                Err(part) => Err(AnyOf::Path(part)),
            },
            other => Err(other),
        }
    }
}

impl<E, C, P, M, T, H, N> PartSort<AnyOf<E, C, P, M, T, H, N>> for NameSort {
    type Held = N;

    ghost in_part = { name_in };

    fn served<G: SortGroup<N>>(
        part: AnyOf<E, C, P, M, T, H, N>,
    ) -> Result<G::Part, AnyOf<E, C, P, M, T, H, N>> {
        match part {
            AnyOf::Name(part) => match G::from_sort(part) {
                Ok(part) => Ok(part),
                Err(part) => Err(AnyOf::Name(part)),
            },
            other => Err(other),
        }
    }
}
