//! What has a form as JSON, and how forms are put together.

ghost use Rattle.std.specs.Prelude.{OnOk};
ghost use Rattle.thm_result_json.specs.Codec.{Codec, bool_codec, both, count_codec, listing, maybe, text_codec};
ghost use Rattle.store_json.specs.Append.{Appends, AppendsMember};

use hir_base::{Seq, Text};
use json::Writer;
use std::alloc::AllocError;

/// What has a form as JSON.
pub trait ToJson {
    ghost codec: { Codec Self };

    /// Writes it behind what stands there.
    fn write(&self, out: &mut Writer) -> Result<(), AllocError>
        ensures { OnOk result (Appends ((codec).to self.now) out.old out.new) };
}

impl ToJson for u32 {
    ghost codec = { count_codec };

    fn write(&self, out: &mut Writer) -> Result<(), AllocError> {
        out.u64(u64::from(*self))
    }
}

impl ToJson for u64 {
    ghost codec = { count_codec };

    fn write(&self, out: &mut Writer) -> Result<(), AllocError> {
        out.u64(*self)
    }
}

impl ToJson for bool {
    ghost codec = { bool_codec };

    fn write(&self, out: &mut Writer) -> Result<(), AllocError> {
        out.boolean(*self)
    }
}

impl ToJson for Text {
    ghost codec = { text_codec };

    fn write(&self, out: &mut Writer) -> Result<(), AllocError> {
        out.string(self.as_str())
    }
}

impl<T: ToJson> ToJson for Option<T> {
    ghost codec = { maybe T.codec };

    fn write(&self, out: &mut Writer) -> Result<(), AllocError> {
        match self {
            None => out.null(),
            Some(value) => value.write(out),
        }
    }
}

impl<A: ToJson, B: ToJson> ToJson for (A, B) {
    ghost codec = { both A.codec B.codec };

    fn write(&self, out: &mut Writer) -> Result<(), AllocError> {
        out.begin_array()?;
        self.0.write(out)?;
        self.1.write(out)?;
        out.end_array()
    }
}

impl<T: ToJson> ToJson for Seq<T> {
    ghost codec = { listing T.codec };

    fn write(&self, out: &mut Writer) -> Result<(), AllocError> {
        write_list(out, self.as_slice())
    }
}

/// Writes a list.
pub(crate) fn write_list<T: ToJson>(out: &mut Writer, items: &[T]) -> Result<(), AllocError>
    ensures { OnOk result (Appends ((listing T.codec).to items.now) out.old out.new) }
{
    out.begin_array()?;
    for item in items {
        item.write(out)?;
    }
    out.end_array()
}

/// Writes a member of an object.
pub(crate) fn field<T: ToJson>(out: &mut Writer, key: &str, value: &T) -> Result<(), AllocError>
    ensures { OnOk result (AppendsMember key.now ((T.codec).to value.now) out.old out.new) }
{
    out.key(key)?;
    value.write(out)
}

/// Writes a member of an object that is a list.
pub(crate) fn list_field<T: ToJson>(
    out: &mut Writer,
    key: &str,
    items: &[T],
) -> Result<(), AllocError>
    ensures { OnOk result (AppendsMember key.now ((listing T.codec).to items.now) out.old out.new) }
{
    out.key(key)?;
    write_list(out, items)
}
