//! Types that stand alone.

ghost use Rattle.std.specs.Prelude.{option_copied};
ghost use Rattle.hir_env.specs.ResolvedTree.{OptionType};
ghost use Rattle.thm_reading.specs.Rules.{OptTypeAs};
ghost use Rattle.thm_calls.specs.ByRules.{in_type};
ghost use Rattle.thm_calls.specs.Promises.{TypePromise};
ghost use Rattle.thm_calls.specs.Readings.{type_reading};

use hir_base::node::InFile;
use hir_env::env::LowerEnv;
use hir_lower::LowerError;
use hir_store::ids::{ModuleId, TypeRefId};
use hir_store::source_map::ExpressionStoreSourceMap;
use hir_store::store::ExpressionStore;
use hir_syntax::ast;
use std::alloc::Global;

/// Calls `lower_type_ref`. What that promises is promised of what the rules of reading allow of the type.
pub fn lower_type_ref<E: LowerEnv>(
    alloc: Global,
    db: &E,
    inside: ModuleId,
    type_ref: InFile<Option<&ast::Type_>>,
) -> Result<(ExpressionStore, ExpressionStoreSourceMap, TypeRefId), LowerError>
    ensures promise { let t = option_copied type_ref.entry.value in
        TypePromise (type_reading type_ref.entry.file_id inside t (E.answers db.now)) result }
    ensures by_rules { let env = E.answers db.now in
        (x : OptionType) → OptTypeAs env (in_type env type_ref.entry.file_id inside) (option_copied type_ref.entry.value) x
        → TypePromise x result }
{
    hir_lower::lower_type_ref(alloc, db, inside, type_ref)
}
