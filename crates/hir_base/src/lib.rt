//! What trees and stores are made of: boxes, lists, texts, and the numbers and ranges of nodes.
#![tactic(auto)]

mod boxed;
pub mod node;
pub mod op;
mod seq;
mod text;

pub use boxed::Boxed;
pub use seq::Seq;
pub use text::Text;
