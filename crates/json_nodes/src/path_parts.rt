//! Paths, segments and arguments.

ghost use Rattle.json_nodes.specs.Groups.{const_arg_of, generic_arg_of, generic_args_of, paren_args_of};
ghost use Rattle.json_nodes.specs.Groups.{path_of, segment_of, type_arg_of};

use crate::part::{BoxedGroup, SortGroup, Sorted, boxed_part};
use crate::sorts::PathSort;
use hir_base::Boxed;
use hir_syntax::ast::{
    ConstArg, GenericArg, GenericArgList, ParenArgs, Path, PathSegment, TypeArg,
};
use std::alloc::Global;

/// A path, or what stands beside a name, whichever types they have.
pub enum PathOf<P, S, A, T, C, G, R> {
    Path(P),
    Segment(S),
    GenericArgs(A),
    /// A type as an argument, which may also stand in parentheses.
    TypeArg(T),
    /// A constant as an argument, which may also be the length of an array.
    ConstArg(C),
    GenericArg(G),
    ParenArgs(R),
}

/// A path, or what stands beside a name.
pub type PathPart = PathOf<
    Path,
    Boxed<PathSegment>,
    GenericArgList,
    TypeArg,
    ConstArg,
    Boxed<GenericArg>,
    ParenArgs,
>;

/// Paths.
pub struct Paths;

/// Segments of a path.
pub struct Segments;

/// All arguments of a name.
pub struct GenericArgLists;

/// Types as arguments.
pub struct TypeArgs;

/// Constants as arguments.
pub struct ConstArgs;

/// All types in parentheses behind a name.
pub struct ParenArgLists;

/// Arguments of a name.
pub struct GenericArgs;

impl Sorted for Paths {
    type Sort = PathSort;
}

impl<P, S, A, T, C, G, R> SortGroup<PathOf<P, S, A, T, C, G, R>> for Paths {
    type Part = P;

    ghost of_sort = { path_of };

    fn from_sort(part: PathOf<P, S, A, T, C, G, R>) -> Result<P, PathOf<P, S, A, T, C, G, R>> {
        match part {
            PathOf::Path(path) => Ok(path),
            other => Err(other),
        }
    }
}

impl BoxedGroup for Paths {
    fn boxed(alloc: Global, refused: &mut bool, part: Path) -> Option<Boxed<Path>> {
        boxed_part(alloc, refused, part)
    }
}

impl Sorted for Segments {
    type Sort = PathSort;
}

impl<P, A, T, C, G, R> SortGroup<PathOf<P, Boxed<PathSegment>, A, T, C, G, R>> for Segments {
    type Part = PathSegment;

    ghost of_sort = { segment_of };

    fn from_sort(
        part: PathOf<P, Boxed<PathSegment>, A, T, C, G, R>,
    ) -> Result<PathSegment, PathOf<P, Boxed<PathSegment>, A, T, C, G, R>> {
        match part {
            PathOf::Segment(segment) => Ok(segment.into_inner()),
            other => Err(other),
        }
    }
}

impl BoxedGroup for Segments {
    fn boxed(alloc: Global, refused: &mut bool, part: PathSegment) -> Option<Boxed<PathSegment>> {
        boxed_part(alloc, refused, part)
    }
}

impl Sorted for GenericArgLists {
    type Sort = PathSort;
}

impl<P, S, A, T, C, G, R> SortGroup<PathOf<P, S, A, T, C, G, R>> for GenericArgLists {
    type Part = A;

    ghost of_sort = { generic_args_of };

    fn from_sort(part: PathOf<P, S, A, T, C, G, R>) -> Result<A, PathOf<P, S, A, T, C, G, R>> {
        match part {
            PathOf::GenericArgs(args) => Ok(args),
            other => Err(other),
        }
    }
}

impl Sorted for TypeArgs {
    type Sort = PathSort;
}

impl<P, S, A, T, C, G, R> SortGroup<PathOf<P, S, A, T, C, G, R>> for TypeArgs {
    type Part = T;

    ghost of_sort = { type_arg_of };

    fn from_sort(part: PathOf<P, S, A, T, C, G, R>) -> Result<T, PathOf<P, S, A, T, C, G, R>> {
        match part {
            PathOf::TypeArg(arg) => Ok(arg),
            other => Err(other),
        }
    }
}

impl Sorted for ConstArgs {
    type Sort = PathSort;
}

impl<P, S, A, T, C, G, R> SortGroup<PathOf<P, S, A, T, C, G, R>> for ConstArgs {
    type Part = C;

    ghost of_sort = { const_arg_of };

    fn from_sort(part: PathOf<P, S, A, T, C, G, R>) -> Result<C, PathOf<P, S, A, T, C, G, R>> {
        match part {
            PathOf::ConstArg(arg) => Ok(arg),
            other => Err(other),
        }
    }
}

impl Sorted for ParenArgLists {
    type Sort = PathSort;
}

impl<P, S, A, T, C, G, R> SortGroup<PathOf<P, S, A, T, C, G, R>> for ParenArgLists {
    type Part = R;

    ghost of_sort = { paren_args_of };

    fn from_sort(part: PathOf<P, S, A, T, C, G, R>) -> Result<R, PathOf<P, S, A, T, C, G, R>> {
        match part {
            PathOf::ParenArgs(args) => Ok(args),
            other => Err(other),
        }
    }
}

impl Sorted for GenericArgs {
    type Sort = PathSort;
}

impl<P, S, A, R> SortGroup<PathOf<P, S, A, TypeArg, ConstArg, Boxed<GenericArg>, R>>
    for GenericArgs {
    type Part = GenericArg;

    ghost of_sort = { generic_arg_of };

    fn from_sort(
        part: PathOf<P, S, A, TypeArg, ConstArg, Boxed<GenericArg>, R>,
    ) -> Result<GenericArg, PathOf<P, S, A, TypeArg, ConstArg, Boxed<GenericArg>, R>> {
        match part {
            PathOf::GenericArg(arg) => Ok(arg.into_inner()),
            PathOf::TypeArg(arg) => Ok(GenericArg::TypeArg(arg)),
            PathOf::ConstArg(arg) => Ok(GenericArg::ConstArg(arg)),
            other => Err(other),
        }
    }
}

impl BoxedGroup for GenericArgs {
    fn boxed(alloc: Global, refused: &mut bool, part: GenericArg) -> Option<Boxed<GenericArg>> {
        boxed_part(alloc, refused, part)
    }
}
