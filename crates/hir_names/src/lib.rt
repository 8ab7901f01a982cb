//! Which binding each name of a body means, resolved in one walk over its scopes; and what a closure mentions from outside.
#![tactic(auto)]

mod mentions;
mod order;
mod places;
pub mod resolutions;
mod stacks;
pub mod upvars;
