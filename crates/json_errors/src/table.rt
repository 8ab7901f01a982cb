//! The tables of an environment.

ghost use Rattle.std.specs.Prelude.{◌≡◌, map};
ghost use Rattle.json_errors.specs.Tables.{macro_tables, table_of, tables};

use crate::table::Cell::{Decision, PathText, Resolution, Small, SmallOrNull, Text, Truth};

/// What stands at one place of an entry.
#[derive(Clone, Copy)]
pub enum Cell {
    /// A number of 32 bits.
    Small,
    /// A number of 32 bits, or null.
    SmallOrNull,
    /// `true` or `false`.
    Truth,
    /// `true` or `false`, or null.
    Decision,
    /// Any text.
    Text,
    /// The text of a path without arguments.
    PathText,
    /// What a path stands for, or null.
    Resolution,
}

/// A table of an environment: its name, and what each entry holds.
#[derive(Clone, Copy)]
pub struct Table {
    pub name: &'static str,
    pub cells: &'static [Cell],
}

/// The tables in front of that of expansions, in order.
pub fn tables() -> &'static [Table]
    ensures { map table_of result.now ≡ tables }
{
    &[
        Table {
            name: "disabled",
            cells: &[Small, Small, Small],
        },
        Table {
            name: "preds",
            cells: &[Small, Decision],
        },
        Table {
            name: "hygiene",
            cells: &[Small, Small, Small],
        },
        Table {
            name: "contexts",
            cells: &[Small, Small, Small, SmallOrNull, Truth, SmallOrNull],
        },
        Table {
            name: "blocks",
            cells: &[Small, Small, Small, Small],
        },
        Table {
            name: "resolve",
            cells: &[Small, PathText, Resolution, Resolution, SmallOrNull],
        },
    ]
}

/// The tables behind that of expansions, in order.
pub fn macro_tables() -> &'static [Table]
    ensures { map table_of result.now ≡ macro_tables }
{
    &[
        Table {
            name: "macro_defs",
            cells: &[Small, Text, Small],
        },
        Table {
            name: "legacy",
            cells: &[Small, Text, Small, Small],
        },
    ]
}
