//! What is read of a written item is what the rules of `Rules` allow, a rule for each kind, and nothing else. The theorems are the
//! contracts of empty functions.
#![tactic(auto)]

ghost use Rattle.thm_item_reading.specs.Theorems.{AliasesByRules, BodyParamsByRules, FunctionsByRules, GenericsByRules};
ghost use Rattle.thm_item_reading.specs.Theorems.{ImplsByRules, TraitsByRules};
ghost use Rattle.thm_item_reading.specs.OneItem.{OneAlias, OneBodyParams, OneFunction, OneGenerics, OneImpl, OneTrait};

/// What is generic in an item, functions, implementations, traits, aliases of types, and the parameters of bodies by what their functions
/// stand in.
pub fn items_by_rules()
    ensures generics { GenericsByRules }
    ensures functions { FunctionsByRules }
    ensures impls { ImplsByRules }
    ensures traits { TraitsByRules }
    ensures aliases { AliasesByRules }
    ensures body_params { BodyParamsByRules }
{}

/// The rules allow one item alone, of each written one, wherever it stands.
pub fn one_item_by_rules()
    ensures generics { OneGenerics }
    ensures functions { OneFunction }
    ensures impls { OneImpl }
    ensures traits { OneTrait }
    ensures aliases { OneAlias }
    ensures body_params { OneBodyParams }
{}
