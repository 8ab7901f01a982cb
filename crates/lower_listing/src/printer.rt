//! Printing of expressions, patterns and types.

use super::numbering::Numbering;
use super::owners::Owners;
use super::pats::type_or_absent;
use super::shown::Shown;
use super::waiting::{Piece, Waiting, arg_piece};
use super::words::lang_word;
use super::writer::Writer;
use super::{Listed, expansions, lines};
use hir_store::hir::{MatchArm, RecordFieldPat, RecordLitField, Statement};
use hir_store::ids::{BindingId, ExprId, HygieneId, LabelId, LifetimeRefId, PatId, TypeRefId};
use hir_store::name::Name;
use hir_store::param::Param;
use hir_store::path::{AssociatedTypeBinding, GenericArg, GenericArgs, Path};
use hir_store::type_ref::{TypeBound, UseArgRef};
use hir_syntax::ast;
use std::alloc::{AllocError, Global};

/// Prints what a store holds: expressions, patterns, paths and types.
///
/// What is still to be printed waits in a list, so that a deep body or type takes memory and no stack, and each
/// stored part is looked at once in a printing.
pub struct Printer<'a> {
    alloc: Global,
    pub(super) listed: Listed<'a>,
    pub(super) writer: Writer,
    bindings: Numbering,
    labels: Numbering,
    pub(super) owners: Owners,
    pub(super) waiting: Waiting<'a>,
}

impl Drop for Printer<'_> {
    fn drop(self) {
        let Printer {
            alloc: _,
            listed: _,
            writer: _,
            bindings: _,
            labels: _,
            owners: _,
            waiting: _,
        } = self;
    }
}

impl<'a> Printer<'a> {
    /// A printer that has printed nothing. It takes no memory.
    pub fn new(alloc: Global, listed: Listed<'a>) -> Printer<'a> {
        Printer {
            alloc,
            listed,
            writer: Writer::new(alloc, listed.sources),
            bindings: Numbering::new(alloc),
            labels: Numbering::new(alloc),
            owners: Owners::new(alloc),
            waiting: Waiting::new(alloc),
        }
    }

    /// The text printed so far, or that memory was refused.
    pub fn finish(self) -> Result<String, AllocError> {
        let Printer {
            alloc: _,
            listed: _,
            writer,
            bindings: _,
            labels: _,
            owners: _,
            waiting,
        } = self;
        let text = writer.finish()?;
        if waiting.is_refused() {
            Err(AllocError)
        } else {
            Ok(text)
        }
    }

    /// Prints the whole listing: the lines of what is shown, then its bindings and labels by number, then what calls were
    /// expanded to, then the diagnostics.
    pub fn listing(&mut self, shown: Shown<'a>) {
        self.shown(shown);
        self.rest()
    }

    /// Prints the whole listing of a path: a line for it, or that it is refused, then one for the name of each of its segments, then
    /// the rest.
    pub fn path_listing(&mut self, path: Option<&'a Path>, written: &ast::Path) {
        self.path(path);
        if path.is_some() {
            lines::segments(&mut self.writer, written);
        }
        self.rest()
    }

    /// Prints what stands behind the lines of what is shown.
    ///
    /// Where bindings in these have owners, the owners' numbers are put into the lines when all of them are printed.
    fn rest(&mut self) {
        if self.owners.are_any() {
            match self.owners.marked(self.writer.text()) {
                Ok(text) => self.writer.replace(text),
                Err(AllocError) => self.writer.refuse(),
            }
        }
        self.others()
    }

    fn shown(&mut self, shown: Shown<'a>) {
        match shown {
            Shown::Body(self_param, params) => {
                self.self_param(self_param);
                self.params(params);
                self.body()
            }
            Shown::Params(params) => self.params(params),
            Shown::Type_(ty) => {
                self.writer.word("type ");
                self.line(Piece::Type_(ty))
            }
            Shown::Function(signature) => self.signature(signature),
        }
    }

    /// Prints a line for a `self`, where there is one.
    fn self_param(&mut self, param: Option<BindingId>) {
        if let Some(id) = param {
            self.writer.word("self ");
            self.line(Piece::Binding(id));
        }
    }

    /// Prints a line for a path, or that it is refused.
    fn path(&mut self, path: Option<&'a Path>) {
        self.writer.word("path ");
        match path {
            Some(path) => self.line(Piece::Path(path, HygieneId::ROOT)),
            None => self.writer.word("None\n"),
        }
    }

    /// Prints a piece and ends the line.
    pub(super) fn line(&mut self, piece: Piece<'a>) {
        self.whole(piece);
        self.writer.mark('\n')
    }

    /// Prints a line for each parameter.
    fn params(&mut self, params: &[Param<PatId>]) {
        for param in params {
            self.writer.word("param ");
            self.line(Piece::Pat(param.formal));
        }
    }

    /// Prints the bindings and the labels by number, then what calls were expanded to, then the diagnostics.
    fn others(&mut self) {
        lines::bindings(
            &mut self.writer,
            &mut self.owners,
            self.bindings.as_slice(),
            self.listed.store,
        );
        lines::labels(
            &mut self.writer,
            self.labels.as_slice(),
            self.listed.store,
            self.listed.source_map,
        );
        expansions::expansions(
            self.alloc,
            &mut self.writer,
            self.listed.source_map.expansions(),
        );
        lines::diagnostics(&mut self.writer, self.listed.source_map.diagnostics())
    }

    /// Prints the line of the body, which is the last recorded root.
    fn body(&mut self) {
        self.writer.word("body ");
        match self.listed.store.expr_roots().last() {
            Some(root) => self.whole(Piece::Expr(root.root)),
            None => self.writer.word("-"),
        }
        self.writer.mark('\n')
    }

    /// Whether memory was refused.
    fn is_refused(&self) -> bool {
        self.writer.is_refused() || self.waiting.is_refused()
    }

    /// Prints a piece with all that it reaches, as far as there is memory.
    ///
    /// A store is a tree, so the pieces run out; the count of turns is there for the proof that the loop ends.
    pub(super) fn whole(&mut self, piece: Piece<'a>) {
        self.waiting.push(piece);
        for _ in 0..u64::MAX {
            if self.is_refused() {
                break;
            }
            let Some(next) = self.waiting.pop() else {
                break;
            };
            if next.spaced {
                self.writer.mark(' ');
            }
            self.piece(&next.piece);
        }
    }

    fn piece(&mut self, piece: &Piece<'a>) {
        match *piece {
            Piece::Word(text) => self.writer.word(text),
            Piece::Close => self.writer.mark(')'),
            Piece::Expr(id) => self.open_expr(id),
            Piece::Exprs(exprs) => self.exprs('[', exprs, "[]"),
            Piece::MoreExprs(exprs) => self.exprs(' ', exprs, "]"),
            Piece::Statements(statements) => self.statements('[', statements, "[]"),
            Piece::MoreStatements(statements) => self.statements(' ', statements, "]"),
            Piece::Label(id) => self.label(id),
            Piece::Name(name) => self.writer.name(name),
            Piece::Names(names) => self.writer.names(names),
            Piece::Number(number) => self.writer.numbered("", number),
            Piece::FieldList(fields) => self.waiting.push_field_list(fields),
            Piece::Fields(before, fields) => self.fields(before, fields),
            Piece::Arms(arms) => self.arms('[', arms, "[]"),
            Piece::MoreArms(arms) => self.arms(' ', arms, "]"),
            _ => self.pat_piece(piece),
        }
    }

    /// A piece of a pattern, of the parameters of a closure, or of a path.
    fn pat_piece(&mut self, piece: &Piece<'a>) {
        match *piece {
            Piece::Pat(id) => self.open_pat(id),
            Piece::Pats(pats) => self.pats('[', pats, "[]"),
            Piece::MorePats(pats) => self.pats(' ', pats, "]"),
            Piece::Binding(id) => self.binding(id),
            Piece::PatFieldList(fields) => self.waiting.push_pat_field_list(fields),
            Piece::PatFields(before, fields) => self.pat_fields(before, fields),
            Piece::ClosureParamList(pats, types) => {
                self.waiting.push_closure_param_list(pats, types)
            }
            Piece::ClosureParams(before, pats, types) => self.closure_params(before, pats, types),
            Piece::Path(path, hygiene) => self.waiting.push_path_of(path, hygiene),
            Piece::PlainPath(path) => self.waiting.push_path(path),
            Piece::LangItem(item) => self.writer.word(lang_word(self.listed.lang_items, item)),
            Piece::Hygiene(hygiene) => self.writer.hygiene(hygiene),
            Piece::PathKind(kind) => self.writer.path_kind(kind),
            Piece::ModPath(path) => self.writer.mod_path(path),
            Piece::Segments(before, names, args) => self.segments(before, names, args),
            _ => self.type_piece(piece),
        }
    }

    /// A piece of a list of arguments, or of a type.
    fn type_piece(&mut self, piece: &Piece<'a>) {
        match *piece {
            Piece::GenericArgs(args) => self.waiting.push_generic_args(args),
            Piece::Args(before, args) => self.args(before, args),
            Piece::TypeBindings(before, bindings) => self.type_bindings(before, bindings),
            Piece::TypeBinding(binding) => self.waiting.push_binding(binding),
            Piece::Type_(id) => self.open_type(id),
            Piece::Types(before, types) => self.types(before, types),
            Piece::Params(before, types, names) => self.fn_params(before, types, names),
            Piece::Lifetime(id) => self.lifetime(id),
            Piece::Binder(names) => self.writer.binder(names),
            Piece::Bounds(before, bounds) => self.bounds(before, bounds),
            Piece::Bound(bound) => self.waiting.push_bound(bound),
            Piece::UseArgs(before, args) => self.use_args(before, args),
            _ => {}
        }
    }

    /// Prints what stands before the first of these, and lets it wait with its type, and the others.
    fn closure_params(
        &mut self,
        before: &'static str,
        pats: &'a [PatId],
        types: &'a [Option<TypeRefId>],
    ) {
        let Some((first, pats)) = pats.split_first() else {
            return;
        };
        let (ty, types) = match types.split_first() {
            Some((ty, types)) => (*ty, types),
            None => (None, types),
        };
        self.waiting.push_all(&[
            Piece::Pat(*first),
            Piece::Word(" "),
            type_or_absent(ty),
            Piece::Word(")"),
            Piece::ClosureParams(" ", pats, types),
        ]);
        self.writer.word(before);
        self.writer.mark('(')
    }

    /// Prints what stands before the first of these, and lets them wait.
    fn fields(&mut self, before: &'static str, fields: &'a [RecordLitField]) {
        let Some((first, rest)) = fields.split_first() else {
            return;
        };
        self.waiting.push_all(&[
            Piece::Name(&first.name),
            Piece::Word(" "),
            Piece::Expr(first.expr),
            Piece::Word(")"),
            Piece::Fields(" ", rest),
        ]);
        self.writer.word(before);
        self.writer.mark('(')
    }

    /// Prints what stands before the first of these names, and lets it wait with its arguments, and the others.
    fn segments(
        &mut self,
        before: &'static str,
        names: &'a [Name],
        args: &'a [Option<GenericArgs>],
    ) {
        let Some((name, names)) = names.split_first() else {
            return;
        };
        let (of_name, args) = match args.split_first() {
            Some((of_name, args)) => (of_name.as_ref(), args),
            None => (None, args),
        };
        self.waiting.push(Piece::Segments("::", names, args));
        if let Some(of_name) = of_name {
            self.waiting.push(Piece::GenericArgs(of_name));
        }
        self.writer.word(before);
        self.writer.name(name)
    }

    /// Prints what stands before the first of these arguments, and lets them wait; likewise below.
    fn args(&mut self, before: &'static str, args: &'a [GenericArg]) {
        let Some((first, rest)) = args.split_first() else {
            return;
        };
        self.waiting.push(Piece::Args(", ", rest));
        self.waiting.push(arg_piece(*first));
        self.writer.word(before)
    }

    fn type_bindings(&mut self, before: &'static str, bindings: &'a [AssociatedTypeBinding]) {
        let Some((first, rest)) = bindings.split_first() else {
            return;
        };
        self.waiting.push(Piece::TypeBindings(", ", rest));
        self.waiting.push(Piece::TypeBinding(first));
        self.writer.word(before)
    }

    fn types(&mut self, before: &'static str, types: &'a [TypeRefId]) {
        let Some((first, rest)) = types.split_first() else {
            return;
        };
        self.waiting.push(Piece::Types(", ", rest));
        self.waiting.push(Piece::Type_(*first));
        self.writer.word(before)
    }

    /// Prints the name of the first of these parameters, and lets its type and the others wait.
    fn fn_params(
        &mut self,
        before: &'static str,
        types: &'a [TypeRefId],
        names: &'a [Option<Name>],
    ) {
        let Some((first, types)) = types.split_first() else {
            return;
        };
        let (name, names) = match names.split_first() {
            Some((name, names)) => (name.as_ref(), names),
            None => (None, names),
        };
        self.waiting.push(Piece::Params(", ", types, names));
        self.waiting.push(Piece::Type_(*first));
        self.writer.word(before);
        if let Some(name) = name {
            self.writer.name(name);
            self.writer.word(": ");
        }
    }

    fn bounds(&mut self, before: &'static str, bounds: &'a [TypeBound]) {
        let Some((first, rest)) = bounds.split_first() else {
            return;
        };
        self.waiting.push(Piece::Bounds(" + ", rest));
        self.waiting.push(Piece::Bound(first));
        self.writer.word(before)
    }

    fn use_args(&mut self, before: &'static str, args: &'a [UseArgRef]) {
        let Some((first, rest)) = args.split_first() else {
            return;
        };
        self.waiting.push(Piece::UseArgs(", ", rest));
        self.waiting.push(match first {
            UseArgRef::Name(name) => Piece::Name(name),
            UseArgRef::Lifetime(id) => Piece::Lifetime(*id),
        });
        self.writer.word(before)
    }

    /// Prints a lifetime. A number past the store's end, which no store holds, prints as an error.
    pub(super) fn lifetime(&mut self, id: LifetimeRefId) {
        match self.listed.store.lifetime(id) {
            Some(lifetime) => self.writer.lifetime(lifetime),
            None => self.writer.word("'{error}"),
        }
    }

    /// Prints what stands before the first of these, opens it, and lets the others wait; prints the end where there are none.
    fn exprs(&mut self, before: char, exprs: &'a [ExprId], end: &str) {
        let Some((first, rest)) = exprs.split_first() else {
            return self.writer.word(end);
        };
        self.waiting.push(Piece::MoreExprs(rest));
        self.writer.mark(before);
        self.open_expr(*first)
    }

    /// The same of statements.
    fn statements(&mut self, before: char, statements: &'a [Statement], end: &str) {
        let Some((first, rest)) = statements.split_first() else {
            return self.writer.word(end);
        };
        self.waiting.push(Piece::MoreStatements(rest));
        self.writer.mark(before);
        self.open_statement(first)
    }

    /// The same of patterns, and of arms.
    fn pats(&mut self, before: char, pats: &'a [PatId], end: &str) {
        let Some((first, rest)) = pats.split_first() else {
            return self.writer.word(end);
        };
        self.waiting.push(Piece::MorePats(rest));
        self.writer.mark(before);
        self.open_pat(*first)
    }

    fn arms(&mut self, before: char, arms: &'a [MatchArm], end: &str) {
        let Some((first, rest)) = arms.split_first() else {
            return self.writer.word(end);
        };
        self.waiting.push(Piece::MoreArms(rest));
        self.writer.mark(before);
        self.open_arm(first)
    }

    /// Prints what stands before the first of these fields, and lets them wait.
    fn pat_fields(&mut self, before: &'static str, fields: &'a [RecordFieldPat]) {
        let Some((first, rest)) = fields.split_first() else {
            return;
        };
        self.waiting.push_all(&[
            Piece::Name(&first.name),
            Piece::Word(" "),
            Piece::Pat(first.pat),
            Piece::Word(")"),
            Piece::PatFields(" ", rest),
        ]);
        self.writer.word(before);
        self.writer.mark('(')
    }

    pub(super) fn binding(&mut self, id: BindingId) {
        let found = self.owners.find(self.listed.store.binding_owner(id));
        self.writer.track(found);
        self.writer.found("#", self.bindings.number(id.0))
    }

    pub(super) fn label(&mut self, id: LabelId) {
        self.writer.found("L", self.labels.number(id.0))
    }
}
