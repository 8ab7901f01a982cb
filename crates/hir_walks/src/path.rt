//! The parts of paths. A function has the name that rust-analyzer's method has.

ghost use Rattle.std.specs.Prelude.{◌≡◌, slice_get};
ghost use Rattle.std.specs.Option.{option_copied};
ghost use Rattle.hir_walks.specs.Paths.{anchor_of, args_at, expr_hygiene, ident_in, is_self_in, kind_of, mod_path_of};
ghost use Rattle.hir_walks.specs.Paths.{names_of, pat_hygiene};

use hir_store::hir::{Expr, Pat};
use hir_store::ids::{ExprId, HygieneId, PatId, TypeRefId};
use hir_store::name::Name;
use hir_store::path::{GenericArgs, ModPath, Path, PathKind};
use hir_store::store::ExpressionStore;

/// Where the path begins. A lang item is plain.
pub fn kind(path: &Path) -> PathKind
    ensures { result ≡ kind_of path.now }
{
    match path {
        Path::BarePath(path) => path.kind,
        Path::Normal(path) => path.mod_path.kind,
        Path::LangItem(_) => PathKind::Plain,
    }
}

/// The path without arguments. A lang item has none.
pub fn mod_path(path: &Path) -> Option<&ModPath>
    ensures { option_copied result ≡ mod_path_of path.now }
{
    match path {
        Path::BarePath(path) => Some(path),
        Path::Normal(path) => Some(&path.mod_path),
        Path::LangItem(_) => None,
    }
}

/// The type that the path is relative to.
pub fn type_anchor(path: &Path) -> Option<TypeRefId>
    ensures { result ≡ anchor_of path.now }
{
    match path {
        Path::Normal(path) => path.type_anchor,
        _ => None,
    }
}

/// The names of the segments, in order. A lang item has none.
pub fn segments(path: &Path) -> &[Name]
    ensures { result.now ≡ names_of path.now }
{
    match path {
        Path::BarePath(path) => path.segments.as_slice(),
        Path::Normal(path) => path.mod_path.segments.as_slice(),
        Path::LangItem(_) => &[],
    }
}

/// The arguments of the segment at that index.
pub fn args_and_bindings(path: &Path, index: usize) -> Option<&GenericArgs>
    ensures { option_copied result ≡ args_at path.now index }
{
    match path {
        Path::Normal(path) => match path.generic_args.get(index) {
            Some(Some(args)) => Some(args),
            _ => None,
        },
        _ => None,
    }
}

/// The name that the path is, where it is one name alone.
pub fn as_ident(path: &ModPath) -> Option<&Name>
    ensures { option_copied result ≡ ident_in path.now.kind path.now.segments }
{
    match (path.kind, path.segments.as_slice()) {
        (PathKind::Plain, [name]) => Some(name),
        _ => None,
    }
}

/// Whether the path is `self`.
pub fn is_self(path: &ModPath) -> bool
    ensures { result ≡ is_self_in path.now.kind path.now.segments }
{
    match (path.kind, path.segments.as_slice()) {
        (PathKind::Super(modules), []) => modules == 0,
        _ => false,
    }
}

/// The hygiene that the name of a path is looked up with; the root's of an expression that is no path.
pub fn expr_path_hygiene(store: &ExpressionStore, id: ExprId) -> HygieneId
    ensures { result ≡ expr_hygiene (slice_get store.now.exprs id.0) }
{
    match store.expr(id) {
        Some(Expr::Path { hygiene, .. }) => *hygiene,
        _ => HygieneId::ROOT,
    }
}

/// The same of a pattern.
pub fn pat_path_hygiene(store: &ExpressionStore, id: PatId) -> HygieneId
    ensures { result ≡ pat_hygiene (slice_get store.now.pats id.0) }
{
    match store.pat(id) {
        Some(Pat::Path { hygiene, .. }) => *hygiene,
        _ => HygieneId::ROOT,
    }
}
