//! A name read at an expression of what `lower_body` returns means the binding that the scopes of the written body say. The theorem is the
//! contract of an empty function.
#![tactic(auto)]

ghost use Rattle.thm_lowered_scopes.specs.Agree.{CallsAgree, LoweredScopesAgree};

/// Of what `lower_body` returns for a body that is no coroutine, each expression of the written body has its stored one, and where that
/// stands each name means the binding that it means in the text, or none where it means none there (`bodies`). The same holds of each call
/// with `is_async_fn` and `is_gen_fn` both false (`calls`). It is asked that no constant among arguments is a lone `let`.
pub fn lowered_scopes_agree()
    ensures bodies { LoweredScopesAgree }
    ensures calls { CallsAgree }
{}
