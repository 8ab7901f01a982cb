//! Texts of paths.

ghost use Rattle.std.specs.Prelude.{◌≡◌};
ghost use Rattle.serde_json.specs.View.{view};
ghost use Rattle.json_errors.specs.PathTexts as spec;

use serde_json::Value;

/// A place in the text of a path.
#[derive(Clone, Copy)]
pub enum ResolveCtx {
    Begin,
    /// In a name.
    Name,
    /// Behind a colon that another has to follow.
    Colon,
    /// Behind two colons, where a name has to begin.
    Owed,
}

/// The place behind a byte, none where it may not stand there.
fn next(rctx: ResolveCtx, byte: u8) -> Option<ResolveCtx>
    ensures { result ≡ spec.next rctx byte }
{
    if byte == b':' {
        match rctx {
            ResolveCtx::Begin | ResolveCtx::Name => Some(ResolveCtx::Colon),
            ResolveCtx::Colon => Some(ResolveCtx::Owed),
            ResolveCtx::Owed => None,
        }
    } else {
        match rctx {
            ResolveCtx::Colon => None,
            ResolveCtx::Begin | ResolveCtx::Name | ResolveCtx::Owed => Some(ResolveCtx::Name),
        }
    }
}

/// Whether the text is one of a path without arguments: names joined by double colons, which may also stand in front.
fn is_path_text(text: &[u8]) -> bool
    ensures { result ≡ spec.is_path_text text.now }
{
    let mut rctx = ResolveCtx::Begin;
    for byte in text {
        match next(rctx, *byte) {
            Some(behind) => rctx = behind,
            None => return false,
        }
    }
    matches!(rctx, ResolveCtx::Name)
}

/// Whether the value is such a text.
pub fn is_path(value: &Value) -> bool
    ensures { result ≡ spec.is_path (view value.now) }
{
    match value.as_str() {
        Some(text) => is_path_text(text.as_bytes()),
        None => false,
    }
}
