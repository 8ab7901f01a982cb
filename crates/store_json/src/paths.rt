//! Paths, their arguments, and bounds.

ghost use Rattle.std.specs.Prelude.{OnOk};
ghost use Rattle.thm_result_json.specs.Paths as forms;
ghost use Rattle.store_json.specs.Append.{Appends};

use crate::form::{ToJson, field};
use crate::kinds::{alone, kind, kind_then, kind_then_two, then_kind};
use hir_store::path::{GenericArg, ModPath, NormalPath, Path, PathKind};
use hir_store::type_ref::{TypeBound, UseArgRef};
use json::Writer;
use std::alloc::AllocError;

impl ToJson for PathKind {
    ghost codec = { forms.path_kind };

    fn write(&self, out: &mut Writer) -> Result<(), AllocError> {
        match self {
            PathKind::Plain => alone(out, "Plain"),
            PathKind::Super(modules) => kind_then(out, "Super", "modules", modules),
            PathKind::Crate => alone(out, "Crate"),
            PathKind::Abs => alone(out, "Abs"),
            PathKind::DollarCrate(root) => kind_then(out, "DollarCrate", "root", root),
        }
    }
}

impl ToJson for ModPath {
    ghost codec = { forms.mod_path };

    fn write(&self, out: &mut Writer) -> Result<(), AllocError> {
        out.begin_object()?;
        field(out, "kind", &self.kind)?;
        field(out, "segments", &self.segments)?;
        out.end_object()
    }
}

impl ToJson for GenericArg {
    ghost codec = { forms.generic_arg };

    fn write(&self, out: &mut Writer) -> Result<(), AllocError> {
        match self {
            GenericArg::Type_(ty) => kind_then(out, "Type", "ty", ty),
            GenericArg::Lifetime(lifetime) => kind_then(out, "Lifetime", "lifetime", lifetime),
            GenericArg::Const(value) => then_kind(out, "expr", value, "Const"),
        }
    }
}

impl ToJson for UseArgRef {
    ghost codec = { forms.use_arg };

    fn write(&self, out: &mut Writer) -> Result<(), AllocError> {
        match self {
            UseArgRef::Name(name) => kind_then(out, "Name", "name", name),
            UseArgRef::Lifetime(lifetime) => kind_then(out, "Lifetime", "lifetime", lifetime),
        }
    }
}

impl ToJson for TypeBound {
    ghost codec = { forms.bound };

    fn write(&self, out: &mut Writer) -> Result<(), AllocError> {
        match self {
            TypeBound::Path(ty, modifier) => {
                kind_then_two(out, "Path", ("modifier", modifier), ("path", ty))
            }
            TypeBound::ForLifetime(names, ty) => {
                kind_then_two(out, "ForLifetime", ("lifetimes", names), ("path", ty))
            }
            TypeBound::Lifetime(lifetime) => kind_then(out, "Lifetime", "lifetime", lifetime),
            TypeBound::Use(args) => then_kind(out, "args", args, "Use"),
            TypeBound::Error => alone(out, "Error"),
        }
    }
}

impl ToJson for Path {
    ghost codec = { forms.path };

    fn write(&self, out: &mut Writer) -> Result<(), AllocError> {
        match self {
            Path::BarePath(path) => kind_then_two(
                out,
                "BarePath",
                ("kind", &path.kind),
                ("segments", &path.segments),
            ),
            Path::Normal(path) => write_normal(out, path),
            Path::LangItem(item) => then_kind(out, "item", item, "LangItem"),
        }
    }
}

/// Writes a path with an anchor or with arguments.
fn write_normal(out: &mut Writer, path: &NormalPath) -> Result<(), AllocError>
    ensures { OnOk result (Appends ((forms.path).to (Path.Normal path.now)) out.old out.new) }
{
    out.begin_object()?;
    field(out, "generic_args", &path.generic_args)?;
    kind(out, "Normal")?;
    field(out, "kind", &path.mod_path.kind)?;
    field(out, "segments", &path.mod_path.segments)?;
    field(out, "type_anchor", &path.type_anchor)?;
    out.end_object()
}
