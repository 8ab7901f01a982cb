//! A name read at a stored expression means the binding that the scopes of the written program say. Each theorem is the contract of an
//! empty function.
#![tactic(auto)]

ghost use Rattle.thm_scoping.specs.Agree.{BodiesAgree, ScopesAgree};

/// Each expression that stands anywhere in a written body has its stored one, and where that stands each name means the binding that it
/// means in the text, or none where it means none there. This is so where the names around the two bodies mean the same.
pub fn scopes_agree()
    ensures { ScopesAgree }
{}

/// So it is of a lowered function without `async` and `gen`, from its parameters on.
pub fn bodies_agree()
    ensures { BodiesAgree }
{}
