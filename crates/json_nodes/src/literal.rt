//! Literals.

ghost use Rattle.std.specs.Prelude.{◌≡◌, IfOk, codes};
ghost use Rattle.serde_json.specs.View.{view};
ghost use Rattle.json_nodes.specs.Fields.{text_in};
ghost use Rattle.json_nodes.specs.Literals.{literal_kind_of, kind_in, literal_of};

use crate::field;
use hir_base::Text;
use hir_syntax::ast::{Literal, LiteralKind};
use json_errors::members::Own;
use std::alloc::{AllocError, Global};

/// The kind with that word.
fn kind_of(word: &str) -> Option<LiteralKind>
    ensures { result ≡ literal_kind_of word.now }
{
    match word {
        "str" => Some(LiteralKind::Str),
        "bytestr" => Some(LiteralKind::ByteStr),
        "cstr" => Some(LiteralKind::CStr),
        "char" => Some(LiteralKind::Char),
        "bool" => Some(LiteralKind::Bool),
        "int" => Some(LiteralKind::Int),
        "float" => Some(LiteralKind::Float),
        _ => None,
    }
}

fn kind_in(node: &Own<'_>) -> Option<LiteralKind>
    ensures { result ≡ kind_in (view node.now.node.now) }
{
    kind_of(field::text(node, "lit")?)
}

fn suffix(alloc: Global, node: &Own<'_>) -> Result<Option<Text>, AllocError>
    ensures { IfOk result (λ suffix. suffix ≡ text_in (codes "suffix") (view node.now.node.now)) }
{
    match field::text(node, "suffix") {
        Some(text) => Ok(Some(Text::new(alloc, text)?)),
        None => Ok(None),
    }
}

/// The literal that a node writes, where it says its kind and its text.
pub fn literal(alloc: Global, node: &Own<'_>) -> Result<Option<Literal>, AllocError>
    ensures { IfOk result (λ literal. literal ≡ literal_of (view node.now.node.now)) }
{
    let Some(lit) = kind_in(node) else {
        return Ok(None);
    };
    let Some(text) = field::text(node, "t") else {
        return Ok(None);
    };
    let t = Text::new(alloc, text)?;
    let suffix = suffix(alloc, node)?;
    Ok(Some(Literal { lit, t, suffix }))
}
