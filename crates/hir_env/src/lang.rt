//! The items that the language itself names.

ghost use Rattle.std.specs.Prelude.{◌≡◌};
ghost use Rattle.hir_env.specs.Tables.{numbered_items};

use hir_store::ids::LangItemId;

/// The items that lowering puts in, none where one is not there.
#[derive(Clone, Copy, PartialEq, Eq)]
pub struct LangItems {
    pub range_full: Option<LangItemId>,
    pub range_from: Option<LangItemId>,
    pub range_from_copy: Option<LangItemId>,
    pub range_to: Option<LangItemId>,
    pub range_copy: Option<LangItemId>,
    pub range: Option<LangItemId>,
    pub range_to_inclusive_copy: Option<LangItemId>,
    pub range_to_inclusive: Option<LangItemId>,
    pub range_inclusive_copy: Option<LangItemId>,
    pub range_inclusive_new: Option<LangItemId>,
    pub try_trait_from_output: Option<LangItemId>,
    pub try_trait_branch: Option<LangItemId>,
    pub control_flow_continue: Option<LangItemId>,
    pub control_flow_break: Option<LangItemId>,
    pub residual_into_try_type: Option<LangItemId>,
    pub try_trait_from_residual: Option<LangItemId>,
    pub into_iter_into_iter: Option<LangItemId>,
    pub iterator_next: Option<LangItemId>,
    pub option_some: Option<LangItemId>,
    pub option_none: Option<LangItemId>,
    pub range_min: Option<LangItemId>,
    pub range_max: Option<LangItemId>,
    pub range_sub: Option<LangItemId>,
}

impl LangItems {
    /// All are there, numbered in their order from 0 on.
    pub fn numbered() -> LangItems
        ensures { result ≡ numbered_items }
    {
        LangItems {
            range_full: Some(LangItemId(0)),
            range_from: Some(LangItemId(1)),
            range_from_copy: Some(LangItemId(2)),
            range_to: Some(LangItemId(3)),
            range_copy: Some(LangItemId(4)),
            range: Some(LangItemId(5)),
            range_to_inclusive_copy: Some(LangItemId(6)),
            range_to_inclusive: Some(LangItemId(7)),
            range_inclusive_copy: Some(LangItemId(8)),
            range_inclusive_new: Some(LangItemId(9)),
            try_trait_from_output: Some(LangItemId(10)),
            try_trait_branch: Some(LangItemId(11)),
            control_flow_continue: Some(LangItemId(12)),
            control_flow_break: Some(LangItemId(13)),
            residual_into_try_type: Some(LangItemId(14)),
            try_trait_from_residual: Some(LangItemId(15)),
            into_iter_into_iter: Some(LangItemId(16)),
            iterator_next: Some(LangItemId(17)),
            option_some: Some(LangItemId(18)),
            option_none: Some(LangItemId(19)),
            range_min: Some(LangItemId(20)),
            range_max: Some(LangItemId(21)),
            range_sub: Some(LangItemId(22)),
        }
    }
}
