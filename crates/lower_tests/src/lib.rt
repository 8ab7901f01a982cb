//! Tests of what no document shows and no contract says. What a document shows is a golden test.
#![tactic(auto)]

#[cfg(test)]
mod alias;
#[cfg(test)]
mod arenas;
#[cfg(test)]
mod asked;
#[cfg(test)]
mod bindings;
#[cfg(test)]
mod calls;
#[cfg(test)]
mod collectors;
#[cfg(test)]
mod constants;
#[cfg(test)]
mod coroutines;
#[cfg(test)]
mod definitions;
#[cfg(test)]
mod documents;
#[cfg(test)]
mod endless;
#[cfg(test)]
mod errors;
#[cfg(test)]
mod generics;
#[cfg(test)]
mod in_range;
#[cfg(test)]
mod in_range_types;
#[cfg(test)]
mod inner;
#[cfg(test)]
mod items;
#[cfg(test)]
mod lacking;
#[cfg(test)]
mod lifetimes;
#[cfg(test)]
mod listings;
#[cfg(test)]
mod lists;
#[cfg(test)]
mod lowered;
#[cfg(test)]
mod macros;
#[cfg(test)]
mod mappings;
#[cfg(test)]
mod nodes;
#[cfg(test)]
mod objects;
#[cfg(test)]
mod odd;
#[cfg(test)]
mod owners;
#[cfg(test)]
mod paths;
#[cfg(test)]
mod patterns;
#[cfg(test)]
mod ranges;
#[cfg(test)]
mod refused;
#[cfg(test)]
mod reverse_mappings;
#[cfg(test)]
mod rewritten;
#[cfg(test)]
mod small;
#[cfg(test)]
mod stacks;
#[cfg(test)]
mod targets;
#[cfg(test)]
mod traits;
#[cfg(test)]
mod types;
