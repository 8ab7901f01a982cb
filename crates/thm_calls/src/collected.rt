//! Constants and paths, which a collector lowers.

ghost use Rattle.std.specs.Prelude.{◌≡◌};
ghost use Rattle.hir_env.specs.ResolvedTree.{OptionExpr, OptionPath};
ghost use Rattle.thm_reading.specs.LowerCtx.{in_constant};
ghost use Rattle.thm_reading.specs.Rules.{OptExprAs, OptPathAs};
ghost use Rattle.thm_calls.specs.ByRules.{in_path};
ghost use Rattle.thm_calls.specs.Promises.{ConstPromise, PathPromise, outcome};
ghost use Rattle.thm_calls.specs.Readings.{const_reading_at, path_reading_at};

use hir_env::env::LowerEnv;
use hir_lower::{ExprCollector, ImplTraitLower, LowerError};
use hir_store::path::Path;
use hir_store::type_ref::ConstRef;
use hir_syntax::ast;

/// Calls `lower_const_arg` of a collector. What that promises is promised of what the rules of reading allow of the constant.
/// The collector has the same environment and reads at the same place.
pub fn lower_const_arg<'db, E: LowerEnv>(
    collector: &mut ExprCollector<'db, E>,
    arg: &ast::ConstArg,
) -> Result<ConstRef, LowerError>
    ensures promise { let x = const_reading_at collector.old.place arg.now (E.answers collector.old.db.now) in
        ConstPromise x (outcome collector.old.state collector.old.failed result collector.new.state collector.new.failed) }
    ensures by_rules { (x : OptionExpr) → OptExprAs (E.answers collector.old.db.now) (in_constant collector.old.place) arg.now x
        → ConstPromise x (outcome collector.old.state collector.old.failed result collector.new.state collector.new.failed) }
    ensures db { collector.new.db ≡ collector.old.db }
    ensures place { collector.new.place ≡ collector.old.place }
{
    collector.lower_const_arg(arg)
}

/// Calls `lower_path` of a collector. What that promises is promised of what the rules of reading allow of the path; only the arguments
/// beside its names are said to be those that are read. What the caller lends for `impl`s stays, and so do environment and place.
pub fn lower_path<'db, E: LowerEnv, I: ImplTraitLower>(
    collector: &mut ExprCollector<'db, E>,
    path: &ast::Path,
    impl_trait: &mut I,
) -> Result<Option<Path>, LowerError>
    ensures promise { let x = path_reading_at collector.old.place (I.mode impl_trait.old) path.now (E.answers collector.old.db.now) in
        PathPromise path.now x
        (outcome collector.old.state collector.old.failed result collector.new.state collector.new.failed) }
    ensures by_rules { let env = E.answers collector.old.db.now in
        let p = in_path collector.old.place (I.mode impl_trait.old) in
        let beside = (path_reading_at collector.old.place (I.mode impl_trait.old) path.now env).arguments in
        (x : OptionPath) → OptPathAs env p (Some path.now) x → PathPromise path.now (record { read = x; arguments = beside })
        (outcome collector.old.state collector.old.failed result collector.new.state collector.new.failed) }
    ensures impl_trait { impl_trait.new ≡ impl_trait.old }
    ensures db { collector.new.db ≡ collector.old.db }
    ensures place { collector.new.place ≡ collector.old.place }
{
    collector.lower_path(path, impl_trait)
}
