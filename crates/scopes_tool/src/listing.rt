//! What is printed of a body: its scopes, its expressions with their scopes, and what each name means.

use hir_base::node::{AstPtr, InFile};
use hir_scopes::scope::{ExprScopes, ScopeId, ScopeKind};
use hir_store::hir::Expr;
use hir_store::ids::{BindingId, BlockId, ExprId, HygieneId, LabelId};
use hir_store::name::Name;
use hir_store::path::{ModPath, Path, PathKind};
use hir_store::source_map::ExpressionStoreSourceMap;
use hir_store::store::ExpressionStore;
use hir_tables::table::TableEnv;
use std::io::{self, Write};

/// A body with its scopes.
#[derive(Clone, Copy)]
pub(crate) struct Listed<'a> {
    pub env: &'a TableEnv,
    pub store: &'a ExpressionStore,
    pub source_map: &'a ExpressionStoreSourceMap,
    pub scopes: &'a ExprScopes,
    /// The name that `self` is sought by.
    pub self_name: &'a Name,
}

fn print_name<W: Write>(out: &mut W, name: &Name) -> io::Result<()> {
    match name {
        Name::Text(text) => write!(out, "{}", text.as_str()),
        Name::Missing => write!(out, "<missing>"),
        Name::Generated(number) => write!(out, "<gen{}>", number),
    }
}

/// The number of a node, behind that of its file if the file isn't 0.
fn print_node<W: Write>(out: &mut W, node: Option<InFile<AstPtr>>) -> io::Result<()> {
    match node {
        None => write!(out, "-"),
        Some(node) => {
            if node.file_id.0 != 0 {
                write!(out, "{}:", node.file_id.0)?;
            }
            write!(out, "{}", node.value.node.0)
        }
    }
}

/// A binding: its name, hygiene and id, and the nodes of its patterns.
fn print_binding<W: Write>(
    out: &mut W,
    store: &ExpressionStore,
    source_map: &ExpressionStoreSourceMap,
    id: BindingId,
) -> io::Result<()> {
    if let Some(binding) = store.binding(id) {
        print_name(out, &binding.name)?;
        write!(out, "/{}", binding.hygiene.0)?;
    }
    write!(out, "#{}", id.0)?;
    if let Some(pats) = source_map.binding_definitions(id) {
        for pat in pats.as_slice() {
            write!(out, "@")?;
            print_node(out, source_map.pat_syntax(*pat))?;
        }
    }
    Ok(())
}

fn print_block<W: Write>(
    out: &mut W,
    block: Option<BlockId>,
    label: Option<LabelId>,
) -> io::Result<()> {
    write!(out, " block")?;
    if let Some(block) = block {
        write!(out, " b{}", block.0)?;
    }
    print_label(out, label)
}

fn print_label<W: Write>(out: &mut W, label: Option<LabelId>) -> io::Result<()> {
    match label {
        None => Ok(()),
        Some(label) => write!(out, " l{}", label.0),
    }
}

fn print_kind<W: Write>(out: &mut W, kind: ScopeKind) -> io::Result<()> {
    match kind {
        ScopeKind::Bindings { .. } => write!(out, " names"),
        ScopeKind::Block(block, label) => print_block(out, block, label),
        ScopeKind::Loop(label) => {
            write!(out, " loop")?;
            print_label(out, label)
        }
        ScopeKind::MacroDef(def) => write!(out, " macro {}", def.0),
    }
}

fn print_scope_id<W: Write>(out: &mut W, scope: Option<ScopeId>) -> io::Result<()> {
    match scope {
        None => write!(out, " -"),
        Some(scope) => write!(out, " {}", scope.0),
    }
}

fn print_scope<W: Write>(out: &mut W, listed: &Listed<'_>, id: ScopeId) -> io::Result<()> {
    let Some(scope) = listed.scopes.scope(id) else {
        return Ok(());
    };
    write!(out, "scope {}", id.0)?;
    print_scope_id(out, scope.parent)?;
    print_kind(out, scope.kind)?;
    write!(out, " :")?;
    for binding in listed.scopes.entries(id) {
        write!(out, " ")?;
        print_binding(out, listed.store, listed.source_map, *binding)?;
    }
    writeln!(out, "")
}

fn is_self(path: &ModPath) -> bool {
    path.kind == PathKind::Super(0) && path.segments.is_empty()
}

/// The name that a path is, if it is one name or `self`.
fn name_of<'a>(path: &'a Path, self_name: &'a Name) -> Option<&'a Name> {
    let Path::BarePath(path) = path else {
        return None;
    };
    if is_self(path) {
        return Some(self_name);
    }
    if path.kind == PathKind::Plain && path.segments.len() == 1 {
        path.segments.get(0)
    } else {
        None
    }
}

fn print_read<W: Write>(
    out: &mut W,
    listed: &Listed<'_>,
    id: ExprId,
    name: &Name,
    hygiene: HygieneId,
) -> io::Result<()> {
    let scope = listed.scopes.scope_for(id);
    write!(out, "read {} ", id.0)?;
    print_node(out, listed.source_map.expr_syntax(id))?;
    write!(out, " ")?;
    print_name(out, name)?;
    print_scope_id(out, scope)?;
    write!(out, " = ")?;
    match listed
        .scopes
        .resolve_name_in_scope(listed.env, listed.store, scope, name, hygiene)
    {
        None => write!(out, "-")?,
        Some(binding) => print_binding(out, listed.store, listed.source_map, binding)?,
    }
    writeln!(out, "")
}

fn print_expr<W: Write>(
    out: &mut W,
    listed: &Listed<'_>,
    id: ExprId,
    expr: &Expr,
) -> io::Result<()> {
    write!(out, "expr {} ", id.0)?;
    print_node(out, listed.source_map.expr_syntax(id))?;
    print_scope_id(out, listed.scopes.scope_for(id))?;
    writeln!(out, "")?;
    let Expr::Path { path, hygiene } = expr else {
        return Ok(());
    };
    match name_of(path, listed.self_name) {
        None => Ok(()),
        Some(name) => print_read(out, listed, id, name, *hygiene),
    }
}

/// The number of scopes, which are no more than ids are.
fn count_of(scopes: &ExprScopes) -> u32 {
    match u32::try_from(scopes.len()) {
        Ok(count) => count,
        Err(_) => u32::MAX,
    }
}

pub(crate) fn print_listed<W: Write>(out: &mut W, listed: &Listed<'_>) -> io::Result<()> {
    for number in 0..count_of(listed.scopes) {
        print_scope(out, listed, ScopeId(number))?;
    }
    for (id, expr) in listed.store.exprs() {
        print_expr(out, listed, id, expr)?;
    }
    Ok(())
}
