//! What any environment says of an alias.

ghost use Rattle.std.specs.Prelude.{◌≡◌, ◌↔◌, IsTrue, MatchOption, false, length};
ghost use Rattle.hir_alias.specs.Alias.{Flags};
ghost use Rattle.hir_alias.specs.Reaching.{Names};

use hir_env::env::LowerEnv;
use hir_store::ids::TypeAliasId;

/// Whether the type of an alias names the alias's lifetime parameter at this place. That of an alias without answer names none.
pub fn alias_names<E: LowerEnv>(env: &E, id: TypeAliasId, place: u32) -> bool
    ensures { MatchOption ((E.answers env.now).alias id) (result ≡ false)
        (λ alias. IsTrue result ↔ Names alias.store alias.generic_params.lifetimes alias.ty place) }
{
    match env.alias(id) {
        None => false,
        Some(alias) => alias.is_constrained(place),
    }
}

/// How many lifetime parameters an alias has. Whatever the environment, the flags that lowering goes by are right.
pub fn alias_lifetimes<E: LowerEnv>(env: &E, id: TypeAliasId) -> usize
    ensures { MatchOption ((E.answers env.now).alias id) (result ≡ 0)
        (λ alias. (result ≡ length alias.named) × Flags alias.store alias.generic_params alias.ty alias.named) }
{
    match env.alias(id) {
        None => 0,
        Some(alias) => alias.named().len(),
    }
}
