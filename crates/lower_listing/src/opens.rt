//! The beginnings of forms: what is printed of a form at once, before any of its parts that wait.

use super::pats::{dots_or_absent, pat_or_absent, type_or_absent};
use super::printer::Printer;
use super::waiting::{Piece, expr_or_absent};
use super::words::{
    binary_word, capture_word, closure_word, expr_word, lang_word, mutability_word, pat_word,
    range_word, rawness_word, statement_word, type_word, unary_word, unsafe_word,
};
use hir_store::hir::{Expr, MatchArm, Mutability, Pat, Statement};
use hir_store::ids::{BlockId, ExprId, HygieneId, LabelId, PatId, TypeRefId};
use hir_store::path::Path;
use hir_store::type_ref::{RefType, TypeBound, TypeRef};

/// A statement opens an expression, and this a pattern; what else has parts of its own waits. So none of these calls itself.
impl<'a> Printer<'a> {
    /// Prints what stands before an expression's parts, and lets the parts wait. A number past the store's end, which
    /// no store holds, prints as a missing expression.
    pub fn open_expr(&mut self, id: ExprId) {
        self.root_mark(id);
        let tracked = self.owners.track(self.writer.text().len(), id);
        self.writer.track(tracked);
        let Some(expr) = self.listed.store.expr(id) else {
            return self.writer.word("(Missing)");
        };
        self.writer
            .open(expr_word(expr), self.listed.source_map.expr_syntax(id));
        self.expr_parts(expr)
    }

    fn expr_parts(&mut self, expr: &'a Expr) {
        match expr {
            Expr::Missing | Expr::Underscore | Expr::IncludeBytes => self.writer.mark(')'),
            Expr::Literal(literal) => {
                self.writer.mark(' ');
                self.writer.literal(literal);
                self.writer.mark(')')
            }
            Expr::Path { path, hygiene } => self.only_path(path, *hygiene),
            Expr::Block { .. } | Expr::Continue { .. } | Expr::Break { .. } => self.open_flow(expr),
            Expr::UnaryOp { .. } | Expr::BinaryOp { .. } | Expr::Ref { .. } => self.open_operation(
                expr,
            ),
            Expr::Let { .. } | Expr::Assignment { .. } | Expr::Closure { .. } => self.open_branch(
                expr,
            ),
            Expr::Call { .. } | Expr::MethodCall { .. } | Expr::Field { .. } | Expr::Index { .. } =>
                self.waiting.push_operation_parts(expr),
            Expr::If { .. } | Expr::Loop { .. } | Expr::Match { .. } => {
                self.waiting.push_control_parts(expr)
            }
            Expr::Cast { .. } | Expr::RecordLit { .. } | Expr::OffsetOf { .. } => {
                self.waiting.push_typed_parts(expr)
            }
            Expr::Become { .. }
            | Expr::Await { .. }
            | Expr::Return { .. }
            | Expr::Yield { .. }
            | Expr::Yeet { .. }
            | Expr::Const(_)
            | Expr::Tuple { .. }
            | Expr::Array(_) => self.waiting.push_expr_parts(expr),
        }
    }

    /// Prints `rk=` where the expression is the k-th recorded root.
    ///
    /// What a root reaches is stored behind all of the root before it, so that the numbers of the roots grow.
    fn root_mark(&mut self, id: ExprId) {
        let number = self
            .listed
            .store
            .expr_roots()
            .binary_search_by_key(&id.0, |root| root.root.0);
        if let Ok(number) = number {
            self.writer.numbered("r", number);
            self.writer.mark('=');
        }
    }

    /// Prints the path that is all of a form's parts, or lets it wait where it has types in it.
    fn only_path(&mut self, path: &'a Path, hygiene: HygieneId) {
        if let Path::Normal(_) = path {
            return self.waiting.push_parts(&[Piece::Path(path, hygiene)]);
        }
        self.part_path(path);
        self.writer.hygiene(hygiene);
        self.writer.mark(')')
    }

    /// Prints a path without types in it, and a space before it.
    fn part_path(&mut self, path: &'a Path) {
        match path {
            Path::BarePath(path) => {
                self.writer.mark(' ');
                self.writer.mod_path(path)
            }
            Path::LangItem(item) => self.part(lang_word(self.listed.lang_items, *item)),
            Path::Normal(_) => {}
        }
    }

    /// Prints a word, and a space before it.
    fn part(&mut self, word: &str) {
        self.writer.mark(' ');
        self.writer.word(word)
    }

    fn part_label(&mut self, label: Option<LabelId>) {
        match label {
            Some(id) => {
                self.writer.mark(' ');
                self.label(id)
            }
            None => self.part("-"),
        }
    }

    fn part_block(&mut self, block: Option<BlockId>) {
        match block {
            Some(id) => self.writer.numbered(" b", id.0),
            None => self.part("-"),
        }
    }

    /// Prints where two dots stand.
    fn part_place(&mut self, ellipsis: Option<u32>) {
        match ellipsis {
            Some(place) => self.writer.numbered(" ", place),
            None => self.part("-"),
        }
    }

    /// Prints the last part of a form where there is none, or lets it wait.
    fn last_expr(&mut self, expr: Option<ExprId>) {
        match expr {
            Some(id) => self.waiting.push_parts(&[Piece::Expr(id)]),
            None => self.writer.word(" -)"),
        }
    }

    fn open_flow(&mut self, expr: &'a Expr) {
        match expr {
            Expr::Block {
                is_unsafe,
                label,
                id,
                statements,
                tail,
            } => {
                self.part(unsafe_word(*is_unsafe));
                self.part_label(*label);
                self.part_block(*id);
                if statements.is_empty() {
                    self.part("[]");
                    return self.last_expr(*tail);
                }
                self.waiting.push_parts(&[
                    Piece::Statements(statements.as_slice()),
                    expr_or_absent(*tail),
                ])
            }
            Expr::Continue { label } => {
                self.part_label(*label);
                self.writer.mark(')')
            }
            Expr::Break { label, expr } => {
                self.part_label(*label);
                self.last_expr(*expr)
            }
            _ => self.waiting.push_parts(&[]),
        }
    }

    fn open_operation(&mut self, expr: &'a Expr) {
        match expr {
            Expr::UnaryOp { op, expr } => {
                self.part(unary_word(*op));
                self.waiting.push_parts(&[Piece::Expr(*expr)])
            }
            Expr::BinaryOp { op, lhs, rhs } => {
                self.part(binary_word(*op));
                self.waiting
                    .push_parts(&[Piece::Expr(*lhs), Piece::Expr(*rhs)])
            }
            Expr::Ref {
                rawness,
                mutability,
                expr,
            } => {
                self.part(rawness_word(*rawness));
                self.part(mutability_word(*mutability));
                self.waiting.push_parts(&[Piece::Expr(*expr)])
            }
            _ => self.waiting.push_parts(&[]),
        }
    }

    /// Opens what holds a pattern.
    fn open_branch(&mut self, expr: &'a Expr) {
        match expr {
            Expr::Let { pat, expr } => {
                self.waiting.push_parts(&[Piece::Expr(*expr)]);
                self.first_pat(*pat)
            }
            Expr::Assignment { target, value } => {
                self.waiting.push_parts(&[Piece::Expr(*value)]);
                self.first_pat(*target)
            }
            Expr::Closure {
                args,
                arg_types,
                ret_type,
                body,
                closure_kind,
                capture_by,
            } => {
                self.part(closure_word(*closure_kind));
                self.part(capture_word(*capture_by));
                self.waiting.push_parts(&[
                    Piece::ClosureParamList(args.as_slice(), arg_types.as_slice()),
                    type_or_absent(*ret_type),
                    Piece::Expr(*body),
                ])
            }
            _ => self.waiting.push_parts(&[]),
        }
    }

    /// Opens the first part of a form, whose other parts wait.
    fn first_pat(&mut self, id: PatId) {
        self.writer.mark(' ');
        self.open_pat(id)
    }

    /// The same of a pattern as of an expression.
    pub fn open_pat(&mut self, id: PatId) {
        let Some(pat) = self.listed.store.pat(id) else {
            return self.writer.word("(Missing)");
        };
        self.writer
            .open(pat_word(pat), self.listed.source_map.pat_syntax(id));
        match pat {
            Pat::Missing | Pat::Wild | Pat::Rest | Pat::NotNull => self.writer.mark(')'),
            Pat::Bind { id, subpat } => {
                self.writer.mark(' ');
                self.binding(*id);
                self.last_pat(*subpat)
            }
            Pat::Path { path, hygiene } => self.only_path(path, *hygiene),
            Pat::Ref { mutability, pat } => {
                self.part(mutability_word(*mutability));
                self.waiting.push_parts(&[Piece::Pat(*pat)])
            }
            Pat::Range { op, start, end } => {
                self.part(range_word(*op));
                self.waiting
                    .push_parts(&[expr_or_absent(*start), expr_or_absent(*end)])
            }
            Pat::TupleStruct { .. } | Pat::Tuple { .. } | Pat::Record { .. } | Pat::Slice { .. } =>
                self.open_pats(pat),
            Pat::Or(pats) => self.waiting.push_parts(&[Piece::Pats(pats.as_slice())]),
            Pat::Box { inner } | Pat::Deref { inner } => self
                .waiting
                .push_parts(&[Piece::Pat(*inner)]),
            Pat::Lit(expr) | Pat::Expr(expr) => self.waiting.push_parts(&[Piece::Expr(*expr)]),
        }
    }

    fn last_pat(&mut self, pat: Option<PatId>) {
        match pat {
            Some(id) => self.waiting.push_parts(&[Piece::Pat(id)]),
            None => self.writer.word(" -)"),
        }
    }

    /// Opens a pattern that is made of many.
    fn open_pats(&mut self, pat: &'a Pat) {
        match pat {
            Pat::TupleStruct {
                path,
                ellipsis,
                args,
            } => {
                if let Path::Normal(_) = path {
                    return self
                        .waiting
                        .push_tuple_struct(path, *ellipsis, args.as_slice());
                }
                self.part_path(path);
                self.part_place(*ellipsis);
                self.waiting.push_parts(&[Piece::Pats(args.as_slice())])
            }
            Pat::Tuple { ellipsis, args } => {
                self.part_place(*ellipsis);
                self.waiting.push_parts(&[Piece::Pats(args.as_slice())])
            }
            Pat::Record {
                path,
                args,
                ellipsis,
            } => self.waiting.push_parts(&[
                Piece::PlainPath(path),
                Piece::PatFieldList(args.as_slice()),
                dots_or_absent(*ellipsis),
            ]),
            Pat::Slice {
                prefix,
                slice,
                suffix,
            } => self.waiting.push_parts(&[
                Piece::Pats(prefix.as_slice()),
                pat_or_absent(*slice),
                Piece::Pats(suffix.as_slice()),
            ]),
            _ => self.waiting.push_parts(&[]),
        }
    }

    /// Prints how an arm begins, and what stands first in it; the rest waits.
    pub fn open_arm(&mut self, arm: &'a MatchArm) {
        self.writer.open("(Arm", None);
        self.waiting
            .push_parts(&[expr_or_absent(arm.guard), Piece::Expr(arm.expr)]);
        self.first_pat(arm.pat)
    }

    /// Prints how a statement begins, and what stands first in it; the rest waits.
    pub fn open_statement(&mut self, statement: &'a Statement) {
        self.writer.open(statement_word(statement), None);
        match statement {
            Statement::Let {
                pat,
                type_ref,
                initializer,
                else_branch,
            } => {
                self.waiting.push_parts(&[
                    type_or_absent(*type_ref),
                    expr_or_absent(*initializer),
                    expr_or_absent(*else_branch),
                ]);
                self.first_pat(*pat)
            }
            Statement::Expr { expr, .. } => {
                self.waiting.push_parts(&[]);
                self.writer.mark(' ');
                self.open_expr(*expr)
            }
            Statement::Item => self.writer.mark(')'),
            Statement::MacroDef(definition) => {
                self.writer.numbered(" ", definition.0);
                self.writer.mark(')')
            }
        }
    }

    /// Prints what stands before a type's parts, and lets the parts wait. A number past the store's end, which no store holds, prints
    /// as an error.
    pub fn open_type(&mut self, id: TypeRefId) {
        match self.listed.store.type_ref(id) {
            Some(ty) => self.type_parts(ty),
            None => self.writer.word("{error}"),
        }
    }

    fn type_parts(&mut self, ty: &'a TypeRef) {
        match ty {
            TypeRef::Never | TypeRef::Placeholder | TypeRef::Error => {
                self.writer.word(type_word(ty))
            }
            TypeRef::Path(Path::BarePath(path)) => self.writer.mod_path(path),
            TypeRef::Path(path) => self.waiting.push_path(path),
            TypeRef::Reference(reference) => self.open_reference(reference),
            TypeRef::RawPtr(ty, mutability) => self.open_pointer(*ty, *mutability),
            TypeRef::TypeParam(id) => self.type_param(*id),
            TypeRef::ImplTrait(bounds) => self.open_bounds("impl", bounds.as_slice()),
            TypeRef::DynTrait(bounds) => self.open_bounds("dyn", bounds.as_slice()),
            TypeRef::Fn(pointer) => self.waiting.push_function(pointer),
            TypeRef::Tuple(types) => self.waiting.push_tuple(types.as_slice()),
            TypeRef::Slice(ty) => self.waiting.push_slice(*ty),
            TypeRef::Array(array) => self.waiting.push_array(array),
            TypeRef::Pattern(ty, pat) => self.waiting.push_all(&[
                Piece::Type_(*ty),
                Piece::Word(" is "),
                Piece::Pat(*pat),
            ]),
        }
    }

    /// The word stands alone where there are no bounds.
    fn open_bounds(&mut self, word: &'static str, bounds: &'a [TypeBound]) {
        self.writer.word(word);
        self.waiting.push(Piece::Bounds(" ", bounds))
    }

    fn open_pointer(&mut self, ty: TypeRefId, mutability: Mutability) {
        self.writer.word(match mutability {
            Mutability::Shared => "*const ",
            Mutability::Mut => "*mut ",
        });
        self.waiting.push(Piece::Type_(ty))
    }

    fn open_reference(&mut self, reference: &RefType) {
        self.writer.mark('&');
        if let Some(id) = reference.lifetime {
            self.lifetime(id);
            self.writer.mark(' ');
        }
        if let Mutability::Mut = reference.mutability {
            self.writer.word("mut ");
        }
        self.waiting.push(Piece::Type_(reference.ty))
    }
}
