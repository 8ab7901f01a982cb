//! Items that the language itself names, where lowering puts them in.

ghost use Rattle.std.specs.Prelude.{◌≡◌};
ghost use Rattle.hir_lower_builder.specs.Ranges as spec;

use hir_store::hir::Expr;
use hir_store::ids::{HygieneId, LangItemId};
use hir_store::path::Path;

/// The item as an expression, which is missing where the item isn't there.
pub fn item_expr(item: Option<LangItemId>) -> Expr
    ensures { result ≡ spec.item_expr item }
{
    match item {
        None => Expr::Missing,
        Some(item) => Expr::Path {
            path: Path::LangItem(item),
            hygiene: HygieneId::ROOT,
        },
    }
}
