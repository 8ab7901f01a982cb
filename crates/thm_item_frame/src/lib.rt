//! What lowering makes of an item depends on finitely many questions, as what it makes of a body does. Each theorem is the contract of an
//! empty function.
#![tactic(auto)]

ghost use Rattle.thm_item_frame.specs.Theorems.{AliasesFramed, FunctionsFramed, GenericsFramed, ImplsFramed, TraitsFramed};
ghost use Rattle.thm_item_frame.specs.Theorems.{AliasesKeep, FunctionsKeep, GenericsKeep, ImplsKeep, TraitsKeep};

/// An item is read as the same item by each two environments that answer alike what is asked of one of them, with as many macro calls
/// entered as the environment says.
pub fn items_framed()
    ensures generics { GenericsFramed }
    ensures functions { FunctionsFramed }
    ensures impls { ImplsFramed }
    ensures traits { TraitsFramed }
    ensures aliases { AliasesFramed }
{}

/// So an environment that answers alike what may be asked in an area reads the same item there.
pub fn items_keep()
    ensures generics { GenericsKeep }
    ensures functions { FunctionsKeep }
    ensures impls { ImplsKeep }
    ensures traits { TraitsKeep }
    ensures aliases { AliasesKeep }
{}
