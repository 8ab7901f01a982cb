//! From written nodes to what they became, and back.

ghost use Rattle.std.specs.Prelude.{◌≡◌, option_copied};
ghost use Rattle.hir_lower_uses.specs.Uses.{cast_at, there_and_back};

use hir_base::node::{AstPtr, InFile};
use hir_store::Either;
use hir_store::hir::Expr;
use hir_store::source_map::ExpressionStoreSourceMap;
use hir_store::store::ExpressionStore;
use hir_store::type_ref::TypeRef;

/// The type that is cast to at this node; none where no cast is written there.
pub fn type_of_cast<'a>(
    store: &'a ExpressionStore,
    source_map: &ExpressionStoreSourceMap,
    node: InFile<AstPtr>,
) -> Option<&'a TypeRef>
    ensures { option_copied result ≡ cast_at store.now source_map.now node }
{
    let id = source_map.node_expr(node)?.left()?;
    match store.expr(id)? {
        Expr::Cast { type_ref, .. } => store.type_ref(*type_ref),
        _ => None,
    }
}

/// The node that the expression came from which the written one at this node became: of parentheses the one in them. Where it became a
/// pattern, since it is assigned to, it is the node of that: of a macro call the one in what the call stands for.
pub fn there_and_back(
    source_map: &ExpressionStoreSourceMap,
    node: InFile<AstPtr>,
) -> Option<InFile<AstPtr>>
    ensures { result ≡ there_and_back source_map.now node }
{
    match source_map.node_expr(node)? {
        Either::Left(id) => source_map.expr_syntax(id),
        Either::Right(id) => source_map.pat_syntax(id),
    }
}
