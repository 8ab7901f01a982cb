//! What becomes of what was read and lowered.

use std::mem::forget;

/// Whether a value is dropped where its work is done. A process that ends then has no use for it.
#[derive(Clone, Copy)]
pub enum Disposal {
    Drop,
    Forget,
}

impl Disposal {
    pub fn end<T: Drop>(self, value: T) {
        match self {
            Disposal::Drop => drop(value),
            Disposal::Forget => forget(value),
        }
    }
}
