//! Where a text stops being JSON.

use serde_json::Value;
use std::alloc::Global;

/// The first byte that can't stand there, or the last one of a text that ends too early. Both numbers count from 1, and the column is 0 if
/// there is no byte.
#[derive(Clone, Copy)]
pub struct Place {
    pub line: usize,
    pub column: usize,
}

/// Where a line stops being JSON. Nothing, if it is JSON or if memory is refused. Reading it a second time costs little, since few lines
/// aren't JSON.
pub fn place_in(alloc: Global, line: &[u8]) -> Option<Place> {
    match str::from_utf8(line) {
        Ok(text) => match Value::from_str(alloc, text) {
            Ok(_) => None,
            Err(error) if error.is_memory() => None,
            Err(error) => Some(Place {
                line: error.line(),
                column: error.column(),
            }),
        },
        Err(error) => Some(Place {
            line: 1,
            column: error.valid_up_to().saturating_add(1),
        }),
    }
}
