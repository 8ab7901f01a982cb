//! What reading an item asks of an environment, as a list that a reader can compute, and about which nodes that is. Each theorem is the
//! contract of an empty function.
#![tactic(auto)]

ghost use Rattle.thm_item_questions.specs.Theorems.{AliasesAtNodes, AliasesByList, AliasesInFiles, AliasesKeepNodes, FunctionsAtNodes};
ghost use Rattle.thm_item_questions.specs.Theorems.{FunctionsByList, FunctionsInFiles, FunctionsKeepNodes, GenericsAtNodes};
ghost use Rattle.thm_item_questions.specs.Theorems.{GenericsByList, GenericsInFiles, GenericsKeepNodes, ImplsAtNodes, ImplsByList};
ghost use Rattle.thm_item_questions.specs.Theorems.{ImplsInFiles, ImplsKeepNodes, OfDisabledArguments, OfDisabledParams};
ghost use Rattle.thm_item_questions.specs.Theorems.{OfDisabledReceivers, TraitsAtNodes, TraitsByList, TraitsInFiles, TraitsKeepNodes};

/// Two environments that answer alike what one of them is asked by the list of an item read it as the same item, with as many macro calls
/// entered as the environment says.
pub fn items_by_list()
    ensures generics { GenericsByList }
    ensures functions { FunctionsByList }
    ensures impls { ImplsByList }
    ensures traits { TraitsByList }
    ensures aliases { AliasesByList }
{}

/// What the list of an item asks about nodes is about nodes of the item, or of what its calls stand for; what it asks in a module is asked
/// in the module of the place, or in that of a block. An alias is read in the module of what it stands in.
pub fn items_at_nodes()
    ensures generics { GenericsAtNodes }
    ensures functions { FunctionsAtNodes }
    ensures impls { ImplsAtNodes }
    ensures traits { TraitsAtNodes }
    ensures aliases { AliasesAtNodes }
{}

/// So an environment that answers alike what may be asked in such an area reads the same item there.
pub fn items_keep_nodes()
    ensures generics { GenericsKeepNodes }
    ensures functions { FunctionsKeepNodes }
    ensures impls { ImplsKeepNodes }
    ensures traits { TraitsKeepNodes }
    ensures aliases { AliasesKeepNodes }
{}

/// Where an item stands in a set of files and modules that is closed under expansions and blocks, its list is asked there.
pub fn items_in_files()
    ensures generics { GenericsInFiles }
    ensures functions { FunctionsInFiles }
    ensures impls { ImplsInFiles }
    ensures traits { TraitsInFiles }
    ensures aliases { AliasesInFiles }
{}

/// Of a disabled generic parameter, `self` and argument the list has the condition alone.
pub fn of_disabled_parameters()
    ensures params { OfDisabledParams }
    ensures receivers { OfDisabledReceivers }
    ensures arguments { OfDisabledArguments }
{}
