//! Patterns and parameters.

ghost use Rattle.json_nodes.specs.Pats.{pat_at};
ghost use Rattle.json_nodes.specs.Groups.{param_list_of, param_of, pat_field_of, pat_of, self_param_of};

use crate::part::{BoxedGroup, KindGroup, SortGroup, Sorted, boxed_part, in_box};
use crate::sorts::{ParamSort, PatSort};
use hir_base::Boxed;
use hir_base::node::{NodeId, TextRange};
use hir_syntax::ast::{Param, ParamList, Pat, PatKind, RecordPatField, SelfParam};
use std::alloc::Global;

/// A pattern, or a field of one.
pub enum PatPart {
    Pat(Boxed<Pat>),
    PatField(RecordPatField),
}

/// What parameters are made of, whichever types they have.
pub enum ParamOf<P, S, L> {
    Param(P),
    SelfParam(S),
    ParamList(L),
}

/// What parameters are made of.
pub type ParamPart = ParamOf<Param, Boxed<SelfParam>, Boxed<ParamList>>;

/// Patterns.
pub struct Pats;

/// Fields of a pattern.
pub struct PatFields;

/// Parameters.
pub struct Params;

/// A `self` among parameters.
pub struct SelfParams;

/// All parameters of a function.
pub struct ParamLists;

impl Sorted for Pats {
    type Sort = PatSort;
}

impl SortGroup<PatPart> for Pats {
    type Part = Pat;

    ghost of_sort = { pat_of };

    fn from_sort(part: PatPart) -> Result<Pat, PatPart> {
        match part {
            PatPart::Pat(pat) => Ok(pat.into_inner()),
            other => Err(other),
        }
    }
}

impl BoxedGroup for Pats {
    fn boxed(alloc: Global, refused: &mut bool, part: Pat) -> Option<Boxed<Pat>> {
        boxed_part(alloc, refused, part)
    }
}

impl Sorted for PatFields {
    type Sort = PatSort;
}

impl SortGroup<PatPart> for PatFields {
    type Part = RecordPatField;

    ghost of_sort = { pat_field_of };

    fn from_sort(part: PatPart) -> Result<RecordPatField, PatPart> {
        match part {
            PatPart::PatField(field) => Ok(field),
            other => Err(other),
        }
    }
}

impl Sorted for Params {
    type Sort = ParamSort;
}

impl<P, S, L> SortGroup<ParamOf<P, S, L>> for Params {
    type Part = P;

    ghost of_sort = { param_of };

    fn from_sort(part: ParamOf<P, S, L>) -> Result<P, ParamOf<P, S, L>> {
        match part {
            ParamOf::Param(param) => Ok(param),
            other => Err(other),
        }
    }
}

impl Sorted for SelfParams {
    type Sort = ParamSort;
}

impl<P, L> SortGroup<ParamOf<P, Boxed<SelfParam>, L>> for SelfParams {
    type Part = SelfParam;

    ghost of_sort = { self_param_of };

    fn from_sort(
        part: ParamOf<P, Boxed<SelfParam>, L>,
    ) -> Result<SelfParam, ParamOf<P, Boxed<SelfParam>, L>> {
        match part {
            ParamOf::SelfParam(param) => Ok(param.into_inner()),
            other => Err(other),
        }
    }
}

impl BoxedGroup for SelfParams {
    fn boxed(alloc: Global, refused: &mut bool, part: SelfParam) -> Option<Boxed<SelfParam>> {
        boxed_part(alloc, refused, part)
    }
}

impl Sorted for ParamLists {
    type Sort = ParamSort;
}

impl<P, S> SortGroup<ParamOf<P, S, Boxed<ParamList>>> for ParamLists {
    type Part = ParamList;

    ghost of_sort = { param_list_of };

    fn from_sort(
        part: ParamOf<P, S, Boxed<ParamList>>,
    ) -> Result<ParamList, ParamOf<P, S, Boxed<ParamList>>> {
        match part {
            ParamOf::ParamList(params) => Ok(params.into_inner()),
            other => Err(other),
        }
    }
}

impl BoxedGroup for ParamLists {
    fn boxed(alloc: Global, refused: &mut bool, part: ParamList) -> Option<Boxed<ParamList>> {
        boxed_part(alloc, refused, part)
    }
}

impl KindGroup for Pats {
    type Kind = PatKind;

    type Whole = PatPart;

    ghost made = { pat_at };

    fn make(
        alloc: Global,
        refused: &mut bool,
        id: NodeId,
        range: TextRange,
        kind: PatKind,
    ) -> Option<PatPart> {
        let part = in_box::<Pats>(alloc, refused, Pat { id, range, kind })?;
        Some(PatPart::Pat(part))
    }
}
