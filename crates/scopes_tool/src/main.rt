//! Reads documents of functions from standard input, one a line, and prints the scopes of each body.
#![tactic(auto)]

mod listing;

use crate::listing::{Listed, print_listed};
use anyhow::Error;
use hir_base::node::{AstPtr, HirFileId};
use hir_base::{Seq, Text};
use hir_lower::{Body, BodySourceMap, LowerError, lower_body};
use hir_scopes::scope::ExprScopes;
use hir_store::error::StoreError;
use hir_store::ids::{BindingId, ExprId, ModuleId, PatId};
use hir_store::name::Name;
use hir_syntax::items::Fn;
use lower_json::document::{Document, Root, Tree};
use lower_json::read::read_tree;
use std::alloc::{AllocError, Global};
use std::io::{BufRead, BufReader, BufWriter, Write};

/// The body of a function in module 0 and file 0.
fn lowered(
    alloc: Global,
    document: &Document,
    item: &Fn,
) -> Result<(Body, BodySourceMap), LowerError> {
    let node = AstPtr {
        node: item.id,
        range: item.range,
    };
    let body = match &item.body {
        Some(body) => Some(body.get()),
        None => None,
    };
    lower_body(
        alloc,
        &document.env,
        document.owner,
        node,
        HirFileId(0),
        ModuleId(0),
        item.params.as_ref(),
        body,
        item.async_,
        item.gen_,
    )
}

/// The binding of `self`, as the body receives it.
fn self_of(body: &Body) -> Option<BindingId> {
    match body.self_param {
        Some(param) => Some(param.formal),
        None => None,
    }
}

/// The patterns that receive the arguments.
fn params_of(alloc: Global, body: &Body) -> Result<Seq<PatId>, AllocError> {
    let mut params = Seq::new(alloc);
    for param in body.params.as_slice() {
        params.push(param.formal)?;
    }
    Ok(params)
}

/// The scopes of a body.
fn scopes_of(alloc: Global, body: &Body, root: ExprId) -> Result<ExprScopes, StoreError> {
    let params = params_of(alloc, body)?;
    ExprScopes::body_scopes(alloc, &body.store, self_of(body), params.as_slice(), root)
}

/// The name that `self` is sought by.
fn self_name(alloc: Global) -> Result<Name, AllocError> {
    Ok(Name::Text(Text::new(alloc, "self")?))
}

fn print_scopes<W: Write>(
    alloc: Global,
    out: &mut W,
    document: &Document,
    body: &Body,
    source_map: &BodySourceMap,
) -> Result<(), Error> {
    let Some(root) = body.root_expr() else {
        return Ok(());
    };
    let self_name = self_name(alloc)?;
    let scopes = scopes_of(alloc, body, root)?;
    let listed = Listed {
        env: &document.env,
        store: &body.store,
        source_map: &source_map.store,
        scopes: &scopes,
        self_name: &self_name,
    };
    let printed = print_listed(out, &listed);
    drop(scopes);
    drop(self_name);
    printed?;
    Ok(())
}

/// The scopes of a function's body. Of another item nothing is printed.
fn print_document<W: Write>(alloc: Global, out: &mut W, document: &Document) -> Result<(), Error> {
    let Tree::Fn(item) = &document.tree else {
        return Ok(());
    };
    let (body, source_map) = lowered(alloc, document, item)?;
    let printed = print_scopes(alloc, out, document, &body, &source_map);
    drop(body);
    drop(source_map);
    printed
}

/// The scopes of the document, or that it isn't one.
fn print_line<W: Write>(alloc: Global, out: &mut W, line: &str) -> Result<(), Error> {
    match read_tree(alloc, Root::Fn, line.as_bytes()) {
        Err(_) => {
            writeln!(out, "refused")?;
            Ok(())
        }
        Ok(document) => {
            let printed = print_document(alloc, out, &document);
            drop(document);
            printed
        }
    }
}

fn main(rt: HostRuntime) -> Result<(), Error> {
    let alloc = rt.alloc();
    let input = BufReader::new(alloc, rt.stdin().lock())?;
    let mut out = BufWriter::new(alloc, rt.stdout())?;
    for line in input.lines(alloc) {
        let line = line?;
        print_line(alloc, &mut out, line.as_str())?;
        writeln!(&mut out, "end")?;
    }
    out.flush()?;
    Ok(())
}
