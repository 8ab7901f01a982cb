//! Names, and nodes with their files and ranges.

ghost use Rattle.thm_result_json.specs.Numbers as numbers;

use crate::form::ToJson;
use hir_base::node::{AstPtr, HirFileId, InFile, NodeId, TextRange};
use hir_store::name::Name;
use hir_store::type_ref::ConstRef;
use json::Writer;
use std::alloc::AllocError;

impl ToJson for Name {
    ghost codec = { numbers.name };

    fn write(&self, out: &mut Writer) -> Result<(), AllocError> {
        match self {
            Name::Text(text) => text.write(out),
            Name::Missing => out.boolean(false),
            Name::Generated(number) => number.write(out),
        }
    }
}

impl ToJson for HirFileId {
    ghost codec = { numbers.file };

    fn write(&self, out: &mut Writer) -> Result<(), AllocError> {
        self.0.write(out)
    }
}

impl ToJson for TextRange {
    ghost codec = { numbers.range };

    fn write(&self, out: &mut Writer) -> Result<(), AllocError> {
        out.begin_array()?;
        self.start.write(out)?;
        self.end.write(out)?;
        out.end_array()
    }
}

impl ToJson for InFile<NodeId> {
    ghost codec = { numbers.call };

    fn write(&self, out: &mut Writer) -> Result<(), AllocError> {
        out.begin_array()?;
        self.file_id.0.write(out)?;
        self.value.0.write(out)?;
        out.end_array()
    }
}

impl ToJson for InFile<AstPtr> {
    ghost codec = { numbers.pointer };

    fn write(&self, out: &mut Writer) -> Result<(), AllocError> {
        out.begin_array()?;
        self.file_id.0.write(out)?;
        self.value.node.0.write(out)?;
        self.value.range.start.write(out)?;
        self.value.range.end.write(out)?;
        out.end_array()
    }
}

impl ToJson for ConstRef {
    ghost codec = { numbers.const_ref };

    fn write(&self, out: &mut Writer) -> Result<(), AllocError> {
        self.expr.write(out)
    }
}
