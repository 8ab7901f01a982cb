//! Bindings and patterns.

ghost use Rattle.std.specs.Prelude.{OnOk};
ghost use Rattle.thm_result_json.specs.Pats as forms;
ghost use Rattle.store_json.specs.Append.{Appends};

use crate::form::{ToJson, field};
use crate::kinds::{alone, around_kind, kind, kind_then, kind_then_two, then_kind, two_then_kind};
use hir_base::Seq;
use hir_store::hir::{Binding, Pat, RecordFieldPat};
use hir_store::ids::PatId;
use hir_store::path::Path;
use json::Writer;
use std::alloc::AllocError;

impl ToJson for Binding {
    ghost codec = { forms.binding };

    fn write(&self, out: &mut Writer) -> Result<(), AllocError> {
        out.begin_object()?;
        field(out, "hygiene", &self.hygiene)?;
        field(out, "mode", &self.mode)?;
        field(out, "name", &self.name)?;
        field(out, "problems", &self.problems)?;
        out.end_object()
    }
}

impl ToJson for RecordFieldPat {
    ghost codec = { forms.pat_field };

    fn write(&self, out: &mut Writer) -> Result<(), AllocError> {
        out.begin_object()?;
        field(out, "name", &self.name)?;
        field(out, "pat", &self.pat)?;
        out.end_object()
    }
}

impl ToJson for Pat {
    ghost codec = { forms.pat };

    fn write(&self, out: &mut Writer) -> Result<(), AllocError> {
        match self {
            Pat::Missing => alone(out, "Missing"),
            Pat::Wild => alone(out, "Wild"),
            Pat::Rest => alone(out, "Rest"),
            Pat::NotNull => alone(out, "NotNull"),
            Pat::Bind { id, subpat } => around_kind(out, ("id", id), "Bind", ("subpat", subpat)),
            Pat::Path { path, hygiene } => {
                around_kind(out, ("hygiene", hygiene), "Path", ("path", path))
            }
            Pat::TupleStruct {
                path,
                ellipsis,
                args,
            } => write_tuple_struct(out, path, ellipsis, args),
            Pat::Tuple { ellipsis, args } => {
                two_then_kind(out, ("args", args), ("ellipsis", ellipsis), "Tuple")
            }
            Pat::Record {
                path,
                args,
                ellipsis,
            } => write_record(out, path, args, ellipsis),
            Pat::Or(pats) => kind_then(out, "Or", "pats", pats),
            _ => write_inner(self, out),
        }
    }
}

/// Writes a pattern that is none of those that have a list of parts.
fn write_inner(pat: &Pat, out: &mut Writer) -> Result<(), AllocError>
    ensures { OnOk result (Appends ((forms.pat).to pat.now) out.old out.new) }
{
    match pat {
        Pat::Slice {
            prefix,
            slice,
            suffix,
        } => write_slice(out, prefix, slice, suffix),
        Pat::Ref { mutability, pat } => {
            kind_then_two(out, "Ref", ("mutability", mutability), ("pat", pat))
        }
        Pat::Box { inner } => then_kind(out, "inner", inner, "Box"),
        Pat::Deref { inner } => then_kind(out, "inner", inner, "Deref"),
        Pat::Lit(expr) => then_kind(out, "expr", expr, "Lit"),
        Pat::Range { op, start, end } => {
            out.begin_object()?;
            field(out, "end", end)?;
            kind(out, "Range")?;
            field(out, "op", op)?;
            field(out, "start", start)?;
            out.end_object()
        }
        Pat::Expr(place) => then_kind(out, "expr", place, "Expr"),
        _ => Err(AllocError),
    }
}

/// Writes a tuple struct.
fn write_tuple_struct(
    out: &mut Writer,
    path: &Path,
    ellipsis: &Option<u32>,
    args: &Seq<PatId>,
) -> Result<(), AllocError>
    ensures { OnOk result (Appends ((forms.pat).to (Pat.TupleStruct path.now ellipsis.now args.now)) out.old out.new) }
{
    out.begin_object()?;
    field(out, "args", args)?;
    field(out, "ellipsis", ellipsis)?;
    kind(out, "TupleStruct")?;
    field(out, "path", path)?;
    out.end_object()
}

/// Writes a record.
fn write_record(
    out: &mut Writer,
    path: &Path,
    args: &Seq<RecordFieldPat>,
    ellipsis: &bool,
) -> Result<(), AllocError>
    ensures { OnOk result (Appends ((forms.pat).to (Pat.Record path.now args.now ellipsis.now)) out.old out.new) }
{
    out.begin_object()?;
    field(out, "args", args)?;
    field(out, "ellipsis", ellipsis)?;
    kind(out, "Record")?;
    field(out, "path", path)?;
    out.end_object()
}

/// Writes a slice.
fn write_slice(
    out: &mut Writer,
    prefix: &Seq<PatId>,
    slice: &Option<PatId>,
    suffix: &Seq<PatId>,
) -> Result<(), AllocError>
    ensures { OnOk result (Appends ((forms.pat).to (Pat.Slice prefix.now slice.now suffix.now)) out.old out.new) }
{
    out.begin_object()?;
    kind(out, "Slice")?;
    field(out, "prefix", prefix)?;
    field(out, "slice", slice)?;
    field(out, "suffix", suffix)?;
    out.end_object()
}
