//! The problems of small patterns, which no call refuses.

use hir_binding::binding::{BindingAnnotation, BindingProblems};
use hir_binding::list::BindingList;
use std::alloc::{AllocError, Global};
use std::test::Fail;

/// `x @ x`, and with another mode `(x, ref x)`.
fn in_product(
    alloc: Global,
    second: BindingAnnotation,
) -> Result<Option<BindingProblems>, AllocError> {
    let mut names = BindingList::new(alloc);
    names.use_name(0, BindingAnnotation::Unannotated)?;
    names.use_name(0, second)?;
    Ok(names.problem(0))
}

/// `A(x) | B(x)`, and with another mode `A(x) | B(ref x)`.
fn in_both(
    alloc: Global,
    second: BindingAnnotation,
) -> Result<Option<BindingProblems>, AllocError> {
    let mut names = BindingList::new(alloc);
    names.begin_or()?;
    names.use_name(0, BindingAnnotation::Unannotated)?;
    names.next_alternative();
    names.use_name(0, second)?;
    names.end_or()?;
    Ok(names.problem(0))
}

/// `| x`
fn in_one(alloc: Global) -> Result<Option<BindingProblems>, AllocError> {
    let mut names = BindingList::new(alloc);
    names.begin_or()?;
    names.use_name(0, BindingAnnotation::Unannotated)?;
    names.end_or()?;
    Ok(names.problem(0))
}

/// `(x, x) | _`
fn twice_in_the_first(alloc: Global) -> Result<Option<BindingProblems>, AllocError> {
    let mut names = BindingList::new(alloc);
    names.begin_or()?;
    names.use_name(0, BindingAnnotation::Unannotated)?;
    names.use_name(0, BindingAnnotation::Unannotated)?;
    names.next_alternative();
    names.end_or()?;
    Ok(names.problem(0))
}

/// `A | B(x)`
fn in_the_second(alloc: Global) -> Result<Option<BindingProblems>, AllocError> {
    let mut names = BindingList::new(alloc);
    names.begin_or()?;
    names.next_alternative();
    names.use_name(0, BindingAnnotation::Unannotated)?;
    names.end_or()?;
    Ok(names.problem(0))
}

/// `A(x) | B | C | (x, x)`: what is shown before the last alternative, and in the end.
fn left_out_twice(
    alloc: Global,
) -> Result<(Option<BindingProblems>, Option<BindingProblems>), AllocError> {
    let mut names = BindingList::new(alloc);
    names.begin_or()?;
    names.use_name(0, BindingAnnotation::Unannotated)?;
    names.next_alternative();
    names.next_alternative();
    names.next_alternative();
    let before = names.problem(0);
    names.use_name(0, BindingAnnotation::Unannotated)?;
    names.use_name(0, BindingAnnotation::Unannotated)?;
    names.end_or()?;
    Ok((before, names.problem(0)))
}

/// `A(x, y) | B(y)`
fn two_names(
    alloc: Global,
) -> Result<(Option<BindingProblems>, Option<BindingProblems>), AllocError> {
    let mut names = BindingList::new(alloc);
    names.begin_or()?;
    names.use_name(0, BindingAnnotation::Unannotated)?;
    names.use_name(1, BindingAnnotation::Unannotated)?;
    names.next_alternative();
    names.use_name(1, BindingAnnotation::Unannotated)?;
    names.end_or()?;
    Ok((names.problem(0), names.problem(1)))
}

/// Of two true problems the last stands.
#[test]
fn in_a_product(rt: HostRuntime) -> Result<(), Fail> {
    let twice = in_product(rt.alloc(), BindingAnnotation::Unannotated)?;
    assert!(rt; twice == Some(BindingProblems::BoundMoreThanOnce));
    let two_modes = in_product(rt.alloc(), BindingAnnotation::Ref)?;
    assert!(rt; two_modes == Some(BindingProblems::BoundMoreThanOnce));
    Ok(())
}

#[test]
fn in_alternatives(rt: HostRuntime) -> Result<(), Fail> {
    let one_mode = in_both(rt.alloc(), BindingAnnotation::Unannotated)?;
    assert!(rt; one_mode.is_none());
    let two_modes = in_both(rt.alloc(), BindingAnnotation::Ref)?;
    assert!(rt; two_modes == Some(BindingProblems::BoundInconsistently));
    let alone = in_one(rt.alloc())?;
    assert!(rt; alone.is_none());
    Ok(())
}

#[test]
fn in_some_alternatives(rt: HostRuntime) -> Result<(), Fail> {
    let first = twice_in_the_first(rt.alloc())?;
    assert!(rt; first == Some(BindingProblems::NotBoundAcrossAll));
    let second = in_the_second(rt.alloc())?;
    assert!(rt; second == Some(BindingProblems::NotBoundAcrossAll));
    let (before, end) = left_out_twice(rt.alloc())?;
    assert!(rt; before == Some(BindingProblems::NotBoundAcrossAll));
    assert!(rt; end == Some(BindingProblems::BoundMoreThanOnce));
    let (x, y) = two_names(rt.alloc())?;
    assert!(rt; x == Some(BindingProblems::NotBoundAcrossAll));
    assert!(rt; y.is_none());
    Ok(())
}
