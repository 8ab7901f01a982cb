//! Entries by their numbers.

ghost use Rattle.thm_result_json.specs.Numbers as numbers;

use crate::form::ToJson;
use hir_store::ids::{
    AdtId, BindingId, BlockId, CfgId, ConstId, CrateId, ExprId, FunctionId, HygieneId, ImplId,
    LabelId, LangItemId, LifetimeRefId, LocalTypeOrConstParamId, MacroDefId, PatId, StaticId,
    TraitId, TypeAliasId, TypeRefId,
};
use json::Writer;
use std::alloc::AllocError;

impl ToJson for ExprId {
    ghost codec = { numbers.expr_id };

    fn write(&self, out: &mut Writer) -> Result<(), AllocError> {
        self.0.write(out)
    }
}

impl ToJson for PatId {
    ghost codec = { numbers.pat_id };

    fn write(&self, out: &mut Writer) -> Result<(), AllocError> {
        self.0.write(out)
    }
}

impl ToJson for BindingId {
    ghost codec = { numbers.binding_id };

    fn write(&self, out: &mut Writer) -> Result<(), AllocError> {
        self.0.write(out)
    }
}

impl ToJson for LabelId {
    ghost codec = { numbers.label_id };

    fn write(&self, out: &mut Writer) -> Result<(), AllocError> {
        self.0.write(out)
    }
}

impl ToJson for TypeRefId {
    ghost codec = { numbers.type_id };

    fn write(&self, out: &mut Writer) -> Result<(), AllocError> {
        self.0.write(out)
    }
}

impl ToJson for LifetimeRefId {
    ghost codec = { numbers.lifetime_id };

    fn write(&self, out: &mut Writer) -> Result<(), AllocError> {
        self.0.write(out)
    }
}

impl ToJson for CrateId {
    ghost codec = { numbers.crate_id };

    fn write(&self, out: &mut Writer) -> Result<(), AllocError> {
        self.0.write(out)
    }
}

impl ToJson for LangItemId {
    ghost codec = { numbers.lang_item };

    fn write(&self, out: &mut Writer) -> Result<(), AllocError> {
        self.0.write(out)
    }
}

impl ToJson for CfgId {
    ghost codec = { numbers.cfg };

    fn write(&self, out: &mut Writer) -> Result<(), AllocError> {
        self.0.write(out)
    }
}

impl ToJson for HygieneId {
    ghost codec = { numbers.hygiene };

    fn write(&self, out: &mut Writer) -> Result<(), AllocError> {
        self.0.write(out)
    }
}

impl ToJson for MacroDefId {
    ghost codec = { numbers.macro_def };

    fn write(&self, out: &mut Writer) -> Result<(), AllocError> {
        self.0.write(out)
    }
}

impl ToJson for BlockId {
    ghost codec = { numbers.block };

    fn write(&self, out: &mut Writer) -> Result<(), AllocError> {
        self.0.write(out)
    }
}

impl ToJson for LocalTypeOrConstParamId {
    ghost codec = { numbers.type_place };

    fn write(&self, out: &mut Writer) -> Result<(), AllocError> {
        self.0.write(out)
    }
}

impl ToJson for AdtId {
    ghost codec = { numbers.adt_id };

    fn write(&self, out: &mut Writer) -> Result<(), AllocError> {
        self.0.write(out)
    }
}

impl ToJson for ConstId {
    ghost codec = { numbers.const_id };

    fn write(&self, out: &mut Writer) -> Result<(), AllocError> {
        self.0.write(out)
    }
}

impl ToJson for FunctionId {
    ghost codec = { numbers.function_id };

    fn write(&self, out: &mut Writer) -> Result<(), AllocError> {
        self.0.write(out)
    }
}

impl ToJson for ImplId {
    ghost codec = { numbers.impl_id };

    fn write(&self, out: &mut Writer) -> Result<(), AllocError> {
        self.0.write(out)
    }
}

impl ToJson for StaticId {
    ghost codec = { numbers.static_id };

    fn write(&self, out: &mut Writer) -> Result<(), AllocError> {
        self.0.write(out)
    }
}

impl ToJson for TraitId {
    ghost codec = { numbers.trait_id };

    fn write(&self, out: &mut Writer) -> Result<(), AllocError> {
        self.0.write(out)
    }
}

impl ToJson for TypeAliasId {
    ghost codec = { numbers.alias_id };

    fn write(&self, out: &mut Writer) -> Result<(), AllocError> {
        self.0.write(out)
    }
}
