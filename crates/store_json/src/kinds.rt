//! Objects of a kind, whose word stands at `k`. Keys stand in the order of their bytes.

ghost use Rattle.std.specs.Prelude.{◌≡◌, OnOk, codes, true};
ghost use Rattle.serde_json.specs.Data.{object, string as text_of};
ghost use Rattle.serde_json.specs.Data.{member as with_member, no_members as without_members};
ghost use Rattle.store_json.specs.Append.{Appends, AppendsMember, are_in_order};

use crate::form::{ToJson, field};
use json::Writer;
use std::alloc::AllocError;

/// Writes the word of a kind, at `k`.
pub(crate) fn kind(out: &mut Writer, word: &str) -> Result<(), AllocError>
    ensures { OnOk result (AppendsMember (codes "k") (text_of word.now) out.old out.new) }
{
    out.key("k")?;
    out.string(word)
}

/// Writes a kind that has no parts.
pub(crate) fn alone(out: &mut Writer, word: &str) -> Result<(), AllocError>
    ensures { OnOk result (Appends (object (with_member (codes "k") (text_of word.now) without_members)) out.old out.new) }
{
    out.begin_object()?;
    kind(out, word)?;
    out.end_object()
}

/// Writes a kind with a part behind its word.
pub(crate) fn kind_then<T: ToJson>(
    out: &mut Writer,
    word: &str,
    key: &str,
    value: &T,
) -> Result<(), AllocError>
    requires { are_in_order (codes "k") key.now ≡ true }
    ensures { OnOk result (Appends (object (with_member (codes "k") (text_of word.now)
        (with_member key.now ((T.codec).to value.now) without_members))) out.old out.new) }
{
    out.begin_object()?;
    kind(out, word)?;
    field(out, key, value)?;
    out.end_object()
}

/// Writes a kind with a part in front of its word.
pub(crate) fn then_kind<T: ToJson>(
    out: &mut Writer,
    key: &str,
    value: &T,
    word: &str,
) -> Result<(), AllocError>
    requires { are_in_order key.now (codes "k") ≡ true }
    ensures { OnOk result (Appends (object (with_member key.now ((T.codec).to value.now)
        (with_member (codes "k") (text_of word.now) without_members))) out.old out.new) }
{
    out.begin_object()?;
    field(out, key, value)?;
    kind(out, word)?;
    out.end_object()
}

/// Writes a kind with two parts behind its word.
pub(crate) fn kind_then_two<T: ToJson, U: ToJson>(
    out: &mut Writer,
    word: &str,
    first: (&str, &T),
    second: (&str, &U),
) -> Result<(), AllocError>
    requires first { are_in_order (codes "k") first.0.now ≡ true }
    requires second { are_in_order first.0.now second.0.now ≡ true }
    ensures { OnOk result (Appends (object (with_member (codes "k") (text_of word.now)
        (with_member first.entry.0.now ((T.codec).to first.entry.1.now)
        (with_member second.entry.0.now ((U.codec).to second.entry.1.now) without_members)))) out.old out.new) }
{
    out.begin_object()?;
    kind(out, word)?;
    field(out, first.0, first.1)?;
    field(out, second.0, second.1)?;
    out.end_object()
}

/// Writes a kind with a part in front of its word and one behind.
pub(crate) fn around_kind<T: ToJson, U: ToJson>(
    out: &mut Writer,
    first: (&str, &T),
    word: &str,
    second: (&str, &U),
) -> Result<(), AllocError>
    requires first { are_in_order first.0.now (codes "k") ≡ true }
    requires second { are_in_order (codes "k") second.0.now ≡ true }
    ensures { OnOk result (Appends (object (with_member first.entry.0.now ((T.codec).to first.entry.1.now)
        (with_member (codes "k") (text_of word.now)
        (with_member second.entry.0.now ((U.codec).to second.entry.1.now) without_members)))) out.old out.new) }
{
    out.begin_object()?;
    field(out, first.0, first.1)?;
    kind(out, word)?;
    field(out, second.0, second.1)?;
    out.end_object()
}

/// Writes a kind with two parts in front of its word.
pub(crate) fn two_then_kind<T: ToJson, U: ToJson>(
    out: &mut Writer,
    first: (&str, &T),
    second: (&str, &U),
    word: &str,
) -> Result<(), AllocError>
    requires first { are_in_order first.0.now second.0.now ≡ true }
    requires second { are_in_order second.0.now (codes "k") ≡ true }
    ensures { OnOk result (Appends (object (with_member first.entry.0.now ((T.codec).to first.entry.1.now)
        (with_member second.entry.0.now ((U.codec).to second.entry.1.now)
        (with_member (codes "k") (text_of word.now) without_members)))) out.old out.new) }
{
    out.begin_object()?;
    field(out, first.0, first.1)?;
    field(out, second.0, second.1)?;
    kind(out, word)?;
    out.end_object()
}
