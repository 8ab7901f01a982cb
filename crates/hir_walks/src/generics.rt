//! What generic parameters are counted as. A function has the name that rust-analyzer's method has.

ghost use Rattle.std.specs.Prelude.{◌≡◌, ◌↔◌, ◌+◌, IsTrue, [], length};

use hir_store::generics::GenericParams;

/// How many type and constant parameters there are.
pub fn len_type_or_consts(params: &GenericParams) -> usize
    ensures { result ≡ length params.now.type_or_consts }
{
    params.type_or_consts.len()
}

/// How many lifetime parameters there are.
pub fn len_lifetimes(params: &GenericParams) -> usize
    ensures { result ≡ length params.now.lifetimes }
{
    params.lifetimes.len()
}

/// Whether there are no parameters.
pub fn is_empty(params: &GenericParams) -> bool
    ensures { IsTrue result ↔ (length params.now.type_or_consts + length params.now.lifetimes ≡ 0) }
{
    params.type_or_consts.len() == 0 && params.lifetimes.len() == 0
}

/// Whether nothing is asked of types and lifetimes.
pub fn no_predicates(params: &GenericParams) -> bool
    ensures { IsTrue result ↔ (length params.now.where_predicates ≡ 0) }
{
    params.where_predicates.len() == 0
}
