//! What a path stands for in an argument.

ghost use Rattle.std.specs.Prelude.{◌≡◌, option_copied, option_map};
ghost use Rattle.hir_env.specs.Paths.{alias_found, flags_of};
ghost use Rattle.hir_env.specs.Paths as spec;

use hir_alias::signature::AliasSignature;
use hir_env::ctx::{LifetimeScope, LowerCtx};
use hir_env::env::LowerEnv;
use hir_env::resolved::{BuiltinShadowMode, Resolution};
use hir_store::path::ModPath;

/// The alias that a path stands for; none of it where it isn't known.
fn alias_found<E: LowerEnv>(env: &E, found: Option<Resolution>) -> Option<Option<&AliasSignature>>
    ensures { option_map (λ alias. flags_of (option_copied alias)) result ≡ alias_found (E.answers env.now) found }
{
    match found {
        Some(Resolution::TypeAlias(id)) => Some(env.alias(id)),
        _ => None,
    }
}

/// The same of a path of these names at this place; none outside of arguments, where nothing is asked.
pub(crate) fn alias_named<'e, E: LowerEnv>(
    env: &'e E,
    place: LowerCtx,
    path: &ModPath,
) -> Option<Option<&'e AliasSignature>>
    ensures { option_map (λ alias. flags_of (option_copied alias)) result ≡ spec.alias_named (E.answers env.now) place path.now }
{
    match place.lifetimes {
        LifetimeScope::Input => {
            let found = env.resolve(place.module_id, path, BuiltinShadowMode::Module);
            alias_found(env, found.types)
        }
        _ => None,
    }
}
