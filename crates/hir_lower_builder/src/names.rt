//! Names and literals of a store, from those of a tree, and the expression of a path.

ghost use Rattle.std.specs.Prelude.{◌≡◌, IfOk};
ghost use Rattle.hir_env.specs.Answering.{label_name, name_or_missing, names_of, truth};
ghost use Rattle.hir_lower_builder.specs.Lower.{path_hygiene, path_or_missing, stored_literal};

use hir_store::hir::{Expr, Literal};
use hir_store::ids::HygieneId;
use hir_store::name::Name;
use hir_store::path::Path;
use hir_syntax::{Seq, Text, ast};
use std::alloc::{AllocError, Global};

/// The literal as it is written.
#[inline(never)]
pub fn literal(written: &ast::Literal) -> Result<Literal, AllocError>
    ensures { IfOk result (λ l. l ≡ stored_literal written.now) }
{
    let text = written.t.clone()?;
    let suffix = match &written.suffix {
        None => None,
        Some(suffix) => Some(suffix.clone()?),
    };
    Ok(Literal {
        negative: false,
        kind: written.lit,
        text,
        suffix,
    })
}

/// The name of a label, which is missing where the label has no lifetime.
#[inline(never)]
pub fn name_of_label(lifetime: &Option<ast::Lifetime>) -> Result<Name, AllocError>
    ensures { IfOk result (λ n. n ≡ label_name lifetime.now) }
{
    match lifetime {
        None => Ok(Name::Missing),
        Some(lifetime) => Ok(Name::Text(lifetime.t.clone()?)),
    }
}

/// The name that a form has, which is missing where it is absent.
#[inline(never)]
pub fn name_of(name: &Option<ast::Name>) -> Result<Name, AllocError>
    ensures { IfOk result (λ n. n ≡ name_or_missing name.now) }
{
    match name {
        None => Ok(Name::Missing),
        Some(name) => Ok(Name::Text(name.t.clone()?)),
    }
}

/// The names.
#[inline(never)]
pub fn names_of(alloc: Global, mut left: &[ast::Name]) -> Result<Seq<Name>, AllocError>
    ensures { IfOk result (λ ns. ns ≡ names_of left.entry.now) }
{
    let mut names = Seq::new(alloc);
    while let [one, rest @ ..] = left {
        names.push(Name::Text(one.t.clone()?))?;
        left = rest;
    }
    Ok(names)
}

/// The literal of a predicate, which is true unless it is known not to be.
#[inline(never)]
pub fn truth_literal(alloc: Global, holds: Option<bool>) -> Result<Literal, AllocError>
    ensures { IfOk result (λ l. l ≡ stored_literal (truth holds)) }
{
    let text = match holds {
        Some(false) => Text::new(alloc, "false")?,
        _ => Text::new(alloc, "true")?,
    };
    Ok(Literal {
        negative: false,
        kind: ast::LiteralKind::Bool,
        text,
        suffix: None,
    })
}

/// The hygiene of a path whose node has this one.
fn hygiene_of_path(path: &Path, hygiene: HygieneId) -> HygieneId
    ensures { result ≡ path_hygiene path.now hygiene }
{
    match path {
        Path::BarePath(path) => {
            if path.segments.len() <= 1 {
                hygiene
            } else {
                HygieneId::ROOT
            }
        }
        Path::Normal(_) | Path::LangItem(_) => HygieneId::ROOT,
    }
}

/// The expression of a path, which is missing where the path is absent or refused.
#[inline(never)]
pub fn path_expr(path: Option<Path>, hygiene: HygieneId) -> Expr
    ensures { result ≡ path_or_missing hygiene path }
{
    match path {
        None => Expr::Missing,
        Some(path) => {
            let hygiene = hygiene_of_path(&path, hygiene);
            Expr::Path { path, hygiene }
        }
    }
}
