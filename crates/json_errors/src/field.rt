//! What fields hold.

use crate::group::Group;
use crate::words::Words;

/// What a field holds.
#[derive(Clone, Copy)]
pub enum Sort {
    /// A text, which has to be there.
    Text,
    TextIfThere,
    /// A word of the set, which has to be there.
    Word(Words),
    WordIfThere(Words),
    Flag,
    /// A number of 32 bits.
    Number,
    /// Two numbers of 32 bits.
    Range,
    Part(Group),
    List(Group),
    ListWithNulls(Group),
    /// A label, which no modifier may stand beside.
    PlainLabel,
    /// A type, which stands behind `try` alone.
    TryType,
    /// The elements of an array, which counts only without a semicolon.
    Elements,
    /// What is repeated in an array, or how often, which counts only with a semicolon.
    Repeated,
    /// No value: another field excludes this one.
    Excluded,
    /// Any value: another field makes this one an unknown one.
    PassedOver,
    /// A text that fits the kind of the literal, and has to be there.
    LiteralText,
    /// A text of digits, of a number of 128 bits, which has to be there.
    Integer,
    /// `true` or `false`, as a text, which has to be there.
    Truth,
}

/// A field of a kind.
#[derive(Clone, Copy)]
pub struct Field {
    pub name: &'static str,
    pub sort: Sort,
}
