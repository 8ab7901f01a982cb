//! Store and source map of a type that is lowered by itself are one result of its tree. Each theorem is the contract of an
//! empty function.
#![tactic(auto)]

ghost use Rattle.thm_type_result.specs.TypeResult.{TypeResults, RefusedTypes};
ghost use Rattle.thm_type_result.specs.Named.{BodyTypesReachedOnce, ExprTypesReachedOnce, PathTypesReachedOnce, TypesReachedOnce};
ghost use Rattle.thm_type_result.specs.Pats.{BodyPatsReachedOnce, ExprPatsReachedOnce, PathPatsReachedOnce, TypePatsReachedOnce};
ghost use Rattle.thm_type_result.specs.Pats.{BodyBindingsCame, ExprBindingsCame, PathBindingsCame, TypeBindingsCame};
ghost use Rattle.thm_type_result.specs.Roots.{PathRoots, TypeRoots};
ghost use Rattle.thm_type_result.specs.Inside.{BodyInsideReachedOnce, InsideReachedOnce, PathInsideReachedOnce, TypeInsideReachedOnce};

/// Each type that a lowered one reaches, through its parts, or that the expressions and patterns do which came with it, is one that its
/// lowering stored, and is reached in one way.
pub fn types_reached_once()
    ensures { TypesReachedOnce }
{}

/// So it is of a lowered path, and of the expressions and patterns of a lowered tree and of a body behind its parameters.
pub fn named_types_reached_once()
    ensures paths { PathTypesReachedOnce }
    ensures exprs { ExprTypesReachedOnce }
    ensures bodies { BodyTypesReachedOnce }
{}

/// Each pattern that the expressions and types of a lowered tree, type or path reach, through its parts, is one that its lowering
/// stored, and is reached in one way. So it is of a body behind its parameters, and the patterns that the outside hands its arguments
/// to: where the function is a coroutine, it begins with `let`s that reach what was written of them.
pub fn pats_reached_once()
    ensures exprs { ExprPatsReachedOnce }
    ensures types { TypePatsReachedOnce }
    ensures paths { PathPatsReachedOnce }
    ensures bodies { BodyPatsReachedOnce }
{}

/// Each binding that a pattern of a lowered tree, type or path makes is one that its lowering stored. So it is of a body behind its
/// parameters.
pub fn bindings_came()
    ensures exprs { ExprBindingsCame }
    ensures types { TypeBindingsCame }
    ensures paths { PathBindingsCame }
    ensures bodies { BodyBindingsCame }
{}

/// Each expression that a lowered tree reaches, or that one does which it holds and doesn't run, is one that its lowering stored, and is
/// reached in one way by one of them. So it is of what a type or a path holds, and of a body behind its parameters, with what the
/// patterns hold that the outside hands its arguments to.
pub fn inside_reached_once()
    ensures exprs { InsideReachedOnce }
    ensures types { TypeInsideReachedOnce }
    ensures paths { PathInsideReachedOnce }
    ensures bodies { BodyInsideReachedOnce }
{}

/// Where no root is being lowered, each body inside a lowered type is recorded as one, in the order in which they are done, and
/// does what the written one does; so does each that the type reaches.
pub fn type_roots()
    ensures { TypeRoots }
{}

/// So it is of a lowered path: the constants of a refused one are roots too, which nothing reaches.
pub fn path_roots()
    ensures { PathRoots }
{}

/// A type, lowered into an empty store, is one result of its tree.
pub fn type_results()
    ensures { TypeResults }
{}

/// Lowering a type into an empty store is refused only where there is no room for as many patterns, types and lifetimes as are
/// counted in it, or for as many expressions, labels and bindings as are in the bodies inside it, or where something counts further
/// than is counted.
pub fn refused_types()
    ensures { RefusedTypes }
{}
