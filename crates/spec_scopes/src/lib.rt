//! Which scopes stand around each expression of a store, and which binding a name means in them. Definitions only.
#![tactic(auto)]
