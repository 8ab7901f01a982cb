//! The items that the language itself names.

ghost use Rattle.std.specs.Prelude.{◌≡◌, option_map};
ghost use Rattle.serde_json.specs.View.{view};
ghost use Rattle.lower_json.specs.Tables.{item_in, items_in, lang_of};

use crate::tables::number_or_null;
use hir_env::lang::LangItems;
use hir_store::ids::LangItemId;
use serde_json::Value;

/// The number of an item, none where null stands; its own where nothing is said of it.
fn item(lang: &Value, name: &str, own: u32) -> Option<LangItemId>
    ensures { result ≡ item_in name.now own (view lang.now) }
{
    let said = match lang.get(name) {
        Some(value) => number_or_null(value),
        None => None,
    };
    match said {
        Some(Some(number)) => Some(LangItemId(number)),
        Some(None) => None,
        None => Some(LangItemId(own)),
    }
}

fn items(lang: &Value) -> LangItems
    ensures { result ≡ items_in (view lang.now) }
{
    LangItems {
        range_full: item(lang, "RangeFull", 0),
        range_from: item(lang, "RangeFrom", 1),
        range_from_copy: item(lang, "RangeFromCopy", 2),
        range_to: item(lang, "RangeTo", 3),
        range_copy: item(lang, "RangeCopy", 4),
        range: item(lang, "Range", 5),
        range_to_inclusive_copy: item(lang, "RangeToInclusiveCopy", 6),
        range_to_inclusive: item(lang, "RangeToInclusive", 7),
        range_inclusive_copy: item(lang, "RangeInclusiveCopy", 8),
        range_inclusive_new: item(lang, "RangeInclusiveNew", 9),
        try_trait_from_output: item(lang, "TryTraitFromOutput", 10),
        try_trait_branch: item(lang, "TryTraitBranch", 11),
        control_flow_continue: item(lang, "ControlFlowContinue", 12),
        control_flow_break: item(lang, "ControlFlowBreak", 13),
        residual_into_try_type: item(lang, "ResidualIntoTryType", 14),
        try_trait_from_residual: item(lang, "TryTraitFromResidual", 15),
        into_iter_into_iter: item(lang, "IntoIterIntoIter", 16),
        iterator_next: item(lang, "IteratorNext", 17),
        option_some: item(lang, "OptionSome", 18),
        option_none: item(lang, "OptionNone", 19),
        range_min: item(lang, "RangeMin", 20),
        range_max: item(lang, "RangeMax", 21),
        range_sub: item(lang, "RangeSub", 22),
    }
}

/// The lang items, each with its own number where nothing is said of it.
pub fn lang_items(lang: Option<&Value>) -> LangItems
    ensures { result ≡ lang_of (option_map (λ l. view l.now) lang.entry) }
{
    match lang {
        Some(lang) => items(lang),
        None => LangItems::numbered(),
    }
}
