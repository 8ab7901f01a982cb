//! Documents: trees and tables of answers, written in JSON.
#![tactic(auto)]

mod aliases;
pub mod document;
pub mod fault;
mod heading;
mod lang;
mod letting_go;
mod macros;
mod path_text;
pub mod read;
mod resolve;
mod sorts;
mod tables;
mod tree;
