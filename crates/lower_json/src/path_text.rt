//! Paths as texts.

ghost use Rattle.std.specs.Prelude.{◌≡◌, None, IfOk, map, option_map, true};
ghost use Rattle.lower_json.specs.PathTexts as spec;

use hir_base::{Seq, Text};
use hir_store::ids::CrateId;
use hir_store::name::Name;
use hir_store::path::{ModPath, PathKind};
use std::alloc::{AllocError, Global};

/// What stands between colons.
#[tactic(auto, using(crate::proofs::Pieces::one_more, crate::proofs::Pieces::the_last))]
fn pieces(alloc: Global, text: &str) -> Result<Seq<Text>, AllocError>
    ensures { IfOk result (λ pieces. pieces ≡ spec.pieces text.now) }
{
    let mut pieces = Seq::new(alloc);
    let mut rest = text;
    while let Some((piece, more)) = rest.split_once(':') {
        pieces.push(Text::new(alloc, piece)?)?;
        rest = more;
    }
    pieces.push(Text::new(alloc, rest)?)?;
    Ok(pieces)
}

/// Every second piece, since colons stand in pairs.
fn names_among(alloc: Global, pieces: &[Text]) -> Result<Seq<Text>, AllocError>
    ensures { IfOk result (λ names. names ≡ spec.names_among true pieces.now) }
{
    let mut names = Seq::new(alloc);
    let mut is_name = true;
    for piece in pieces {
        if is_name {
            names.push(Text::new(alloc, piece.as_str())?)?;
        }
        is_name = !is_name;
    }
    Ok(names)
}

/// What stands behind a text in front.
fn behind<'a>(front: &[u8], text: &'a [u8]) -> Option<&'a [u8]>
    ensures { option_map (λ rest. rest.now) result ≡ spec.behind front.now text.entry.now }
{
    let mut rest = text;
    for byte in front {
        let (first, more) = rest.split_first()?;
        if *first != *byte {
            return None;
        }
        rest = more;
    }
    Some(rest)
}

/// The number with one more digit, where it fits.
fn with_digit(number: u32, byte: u8) -> Option<u32>
    ensures { result ≡ spec.with_digit number byte }
{
    if !byte.is_ascii_digit() {
        return None;
    }
    let next = u64::from(number) * 10 + u64::from(byte - 48);
    if next <= 4_294_967_295 {
        Some(next as u32)
    } else {
        None
    }
}

/// The number so far, where nothing follows.
fn ended(number: Option<u32>, rest: &[u8]) -> Option<u32>
    ensures { result ≡ spec.ended number rest.now }
{
    match rest {
        [] => number,
        [_, ..] => None,
    }
}

/// The number up to the bracket that ends a text.
fn closed(text: &[u8]) -> Option<u32>
    ensures { result ≡ spec.closed None text.now }
{
    let mut number = None;
    let mut rest = text;
    while let Some((byte, more)) = rest.split_first() {
        if *byte == b')' {
            return ended(number, more);
        }
        number = Some(with_digit(number.unwrap_or(0), *byte)?);
        rest = more;
    }
    None
}

/// The crate that `$crate(n)` names.
fn crate_in(text: &str) -> Option<u32>
    ensures { result ≡ spec.crate_in text.now }
{
    closed(behind("$crate(".as_bytes(), text.as_bytes())?)
}

/// Where a path begins whose first name is a word of its own.
fn begun_by(word: &str) -> Option<PathKind>
    ensures { result ≡ spec.begun_by word.now }
{
    if word == "" {
        Some(PathKind::Abs)
    } else if word == "crate" {
        Some(PathKind::Crate)
    } else if word == "self" {
        Some(PathKind::Super(0))
    } else {
        None
    }
}

/// Where a path begins, by its first name; none where it begins with that name.
fn kind_by(word: &str) -> Option<PathKind>
    ensures { result ≡ spec.kind_by word.now }
{
    if let Some(kind) = begun_by(word) {
        return Some(kind);
    }
    Some(PathKind::DollarCrate(CrateId(crate_in(word)?)))
}

/// Where a path begins that goes one module up, and its names.
fn above(names: &[Text]) -> (PathKind, &[Text])
    ensures kind { result.0 ≡ (spec.above 1 names.entry.now).0 }
    ensures names { result.1.now ≡ (spec.above 1 names.entry.now).1 }
{
    let mut levels: u32 = 1;
    let mut rest = names;
    while let Some((name, more)) = rest.split_first() {
        if name.as_str() == "super" {
            levels = levels.saturating_add(1);
            rest = more;
        } else {
            return (PathKind::Super(levels), rest);
        }
    }
    (PathKind::Super(levels), rest)
}

/// Where a path begins, and its names.
fn begins(names: &[Text]) -> (PathKind, &[Text])
    ensures kind { result.0 ≡ (spec.begins names.entry.now).0 }
    ensures names { result.1.now ≡ (spec.begins names.entry.now).1 }
{
    let Some((first, rest)) = names.split_first() else {
        return (PathKind::Plain, names);
    };
    if first.as_str() == "super" {
        return above(rest);
    }
    match kind_by(first.as_str()) {
        Some(kind) => (kind, rest),
        None => (PathKind::Plain, names),
    }
}

/// The name that a text is.
fn name(alloc: Global, text: &Text) -> Result<Name, AllocError>
    ensures { IfOk result (λ name. name ≡ spec.name_of text.now) }
{
    if text.as_str() == "?" {
        return Ok(Name::Missing);
    }
    Ok(Name::Text(Text::new(alloc, text.as_str())?))
}

fn names(alloc: Global, texts: &[Text]) -> Result<Seq<Name>, AllocError>
    ensures { IfOk result (λ names. names ≡ map spec.name_of texts.now) }
{
    let mut names = Seq::new(alloc);
    for text in texts {
        names.push(name(alloc, text)?)?;
    }
    Ok(names)
}

/// The path that a text is.
pub fn mod_path(alloc: Global, text: &str) -> Result<ModPath, AllocError>
    ensures { IfOk result (λ path. path ≡ spec.path_of text.now) }
{
    let pieces = pieces(alloc, text)?;
    let texts = names_among(alloc, pieces.as_slice())?;
    let (kind, texts) = begins(texts.as_slice());
    Ok(ModPath {
        kind,
        segments: names(alloc, texts)?,
    })
}
