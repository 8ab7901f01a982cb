//! The result of lowering as JSON, written straight from the store. What is written reads back as the store and the source map.
#![tactic(auto)]

mod args;
mod exprs;
mod form;
mod ids;
mod kinds;
mod maps;
mod nodes;
mod ops;
mod params;
mod parts;
mod paths;
mod pats;
mod results;
mod types;
mod whole;
mod words;

pub use form::ToJson;
pub use results::{
    alias_to_json, body_to_json, function_to_json, generics_to_json, impl_to_json, path_to_json,
    type_to_json, write_alias, write_body, write_function, write_generics, write_impl, write_path,
    write_type,
};
pub use whole::{text_of, to_json, write_json};
