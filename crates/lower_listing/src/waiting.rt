//! What is still to be printed, and the order in which the parts of a form are.

use super::words::loop_word;
use hir_store::hir::{
    Array, Expr, MatchArm, RecordFieldPat, RecordLitField, RecordSpread, Statement,
};
use hir_store::ids::{
    BindingId, ExprId, HygieneId, LabelId, LangItemId, LifetimeRefId, PatId, TypeRefId,
};
use hir_store::name::Name;
use hir_store::path::{AssociatedTypeBinding, GenericArg, GenericArgs, ModPath, Path, PathKind};
use hir_store::type_ref::{TypeBound, UseArgRef};
use std::alloc::Global;

/// A piece of a listing.
#[derive(Clone, Copy)]
pub enum Piece<'a> {
    /// A text that stands for itself.
    Word(&'static str),
    /// The bracket behind the parts of a form.
    Close,
    Expr(ExprId),
    /// A list.
    Exprs(&'a [ExprId]),
    /// What is left of a list after its first items.
    MoreExprs(&'a [ExprId]),
    Statements(&'a [Statement]),
    MoreStatements(&'a [Statement]),
    Pat(PatId),
    Pats(&'a [PatId]),
    MorePats(&'a [PatId]),
    /// The arms of a `match` as a list.
    Arms(&'a [MatchArm]),
    MoreArms(&'a [MatchArm]),
    Number(u32),
    Binding(BindingId),
    Label(LabelId),
    Name(&'a Name),
    Path(&'a Path, HygieneId),
    /// A path that no hygiene follows.
    PlainPath(&'a Path),
    /// Names as a list.
    Names(&'a [Name]),
    /// The fields of a record as a list.
    FieldList(&'a [RecordLitField]),
    /// Those of a record pattern.
    PatFieldList(&'a [RecordFieldPat]),
    Hygiene(HygieneId),
    PathKind(PathKind),
    /// A path without arguments.
    ModPath(&'a ModPath),
    LangItem(LangItemId),
    /// What stands before the first of these names, the names, and the arguments of each.
    Segments(&'static str, &'a [Name], &'a [Option<GenericArgs>]),
    GenericArgs(&'a GenericArgs),
    /// What stands before the first of these, and they; likewise below.
    Args(&'static str, &'a [GenericArg]),
    Fields(&'static str, &'a [RecordLitField]),
    PatFields(&'static str, &'a [RecordFieldPat]),
    TypeBindings(&'static str, &'a [AssociatedTypeBinding]),
    TypeBinding(&'a AssociatedTypeBinding),
    Type_(TypeRefId),
    Types(&'static str, &'a [TypeRefId]),
    /// The parameters of a closure as a list, and a type for each that has one.
    ClosureParamList(&'a [PatId], &'a [Option<TypeRefId>]),
    /// What stands before the first of these, and they.
    ClosureParams(&'static str, &'a [PatId], &'a [Option<TypeRefId>]),
    /// The types of parameters, and the name of each that has one.
    Params(&'static str, &'a [TypeRefId], &'a [Option<Name>]),
    Lifetime(LifetimeRefId),
    Bounds(&'static str, &'a [TypeBound]),
    Bound(&'a TypeBound),
    UseArgs(&'static str, &'a [UseArgRef]),
    /// The names of the lifetimes of a `for<..>`.
    Binder(&'a [Name]),
}

/// What stands for a part that isn't there.
pub const ABSENT: Piece<'static> = Piece::Word("-");

/// An expression that is there or isn't, as what waits.
pub fn expr_or_absent(expr: Option<ExprId>) -> Piece<'static> {
    match expr {
        Some(id) => Piece::Expr(id),
        None => ABSENT,
    }
}

fn label_or_absent(label: Option<LabelId>) -> Piece<'static> {
    match label {
        Some(id) => Piece::Label(id),
        None => ABSENT,
    }
}

fn args_or_absent(args: &Option<GenericArgs>) -> Piece<'_> {
    match args {
        Some(args) => Piece::GenericArgs(args),
        None => ABSENT,
    }
}

/// An argument as it is printed: a constant as its expression.
pub fn arg_piece(arg: GenericArg) -> Piece<'static> {
    match arg {
        GenericArg::Type_(id) => Piece::Type_(id),
        GenericArg::Lifetime(id) => Piece::Lifetime(id),
        GenericArg::Const(constant) => Piece::Expr(constant.expr),
    }
}

fn spread_or_absent(spread: RecordSpread) -> Piece<'static> {
    match spread {
        RecordSpread::None => ABSENT,
        RecordSpread::FieldDefaults => Piece::Word(".."),
        RecordSpread::Expr(id) => Piece::Expr(id),
    }
}

/// A piece that waits, and whether a space stands before it.
#[derive(Clone, Copy)]
pub struct Next<'a> {
    pub spaced: bool,
    pub piece: Piece<'a>,
}

/// The pieces that wait. The next one stands last. Where memory is refused some are lacking.
#[derive(Drop)]
pub struct Waiting<'a> {
    pieces: Vec<Next<'a>>,
    is_refused: bool,
}

impl<'a> Waiting<'a> {
    /// Nothing waits.
    pub fn new(alloc: Global) -> Waiting<'a> {
        Waiting {
            pieces: Vec::new(alloc),
            is_refused: false,
        }
    }

    /// Whether memory was refused for a piece.
    pub fn is_refused(&self) -> bool {
        self.is_refused
    }

    /// Takes the next piece.
    pub fn pop(&mut self) -> Option<Next<'a>> {
        self.pieces.pop()
    }

    fn add(&mut self, next: Next<'a>) {
        if self.pieces.push(next).is_err() {
            self.is_refused = true;
        }
    }

    /// Lets a piece wait before all others.
    pub fn push(&mut self, piece: Piece<'a>) {
        self.add(Next {
            spaced: false,
            piece,
        })
    }

    /// Lets these wait before all others, in their order.
    pub fn push_all(&mut self, pieces: &[Piece<'a>]) {
        for piece in pieces.iter().rev() {
            self.push(*piece);
        }
    }

    /// Lets a list of the fields of a record wait.
    pub fn push_field_list(&mut self, fields: &'a [RecordLitField]) {
        self.push_all(&[
            Piece::Word("["),
            Piece::Fields("", fields),
            Piece::Word("]"),
        ])
    }

    /// Lets a path of an expression wait, and its hygiene behind it.
    pub fn push_path_of(&mut self, path: &'a Path, hygiene: HygieneId) {
        self.push(Piece::Hygiene(hygiene));
        self.push_path(path)
    }

    /// Lets the parts of an expression wait, and the bracket after them: of one that has at most one, or many of one sort.
    pub fn push_expr_parts(&mut self, expr: &'a Expr) {
        match expr {
            Expr::Become { expr } | Expr::Await { expr } => self.push_parts(&[Piece::Expr(*expr)]),
            Expr::Return { expr } | Expr::Yield { expr } | Expr::Yeet { expr } => self.push_parts(&[
                expr_or_absent(*expr),
            ]),
            Expr::Const(constant) => self.push_parts(&[Piece::Expr(constant.expr)]),
            Expr::Tuple { exprs } => self.push_parts(&[Piece::Exprs(exprs.as_slice())]),
            Expr::Array(array) => self.push_array_parts(array),
            _ => self.push_parts(&[]),
        }
    }

    /// The same of an array.
    fn push_array_parts(&mut self, array: &'a Array) {
        match array {
            Array::ElementList { elements } => self.push_parts(&[Piece::Exprs(
                elements.as_slice(),
            )]),
            Array::Repeat {
                initializer,
                repeat,
            } => self.push_parts(&[Piece::Expr(*initializer), Piece::Expr(repeat.expr)]),
        }
    }

    /// The same of what begins with an expression.
    pub fn push_operation_parts(&mut self, expr: &'a Expr) {
        match expr {
            Expr::Call { callee, args } => self.push_parts(&[
                Piece::Expr(*callee),
                Piece::Exprs(args.as_slice()),
            ]),
            Expr::MethodCall {
                receiver,
                method_name,
                generic_args,
                args,
            } => self.push_parts(&[
                Piece::Expr(*receiver),
                Piece::Name(method_name),
                args_or_absent(generic_args),
                Piece::Exprs(args.as_slice()),
            ]),
            Expr::Field { expr, name } => self.push_parts(&[Piece::Expr(*expr), Piece::Name(name)]),
            Expr::Index { base, index } => self.push_parts(&[
                Piece::Expr(*base),
                Piece::Expr(*index),
            ]),
            _ => self.push_parts(&[]),
        }
    }

    /// The same of what goes on in one of several ways, or again.
    pub fn push_control_parts(&mut self, expr: &'a Expr) {
        match expr {
            Expr::If {
                condition,
                then_branch,
                else_branch,
            } => self.push_parts(&[
                Piece::Expr(*condition),
                Piece::Expr(*then_branch),
                expr_or_absent(*else_branch),
            ]),
            Expr::Loop {
                body,
                label,
                source,
            } => self.push_parts(&[
                Piece::Expr(*body),
                label_or_absent(*label),
                Piece::Word(loop_word(*source)),
            ]),
            Expr::Match { expr, arms } => self.push_parts(&[
                Piece::Expr(*expr),
                Piece::Arms(arms.as_slice()),
            ]),
            _ => self.push_parts(&[]),
        }
    }

    /// The same of what holds a type or a path beside its operands.
    pub fn push_typed_parts(&mut self, expr: &'a Expr) {
        match expr {
            Expr::Cast { expr, type_ref } => self.push_parts(&[
                Piece::Expr(*expr),
                Piece::Type_(*type_ref),
            ]),
            Expr::RecordLit {
                path,
                fields,
                spread,
            } => self.push_parts(&[
                Piece::PlainPath(path),
                Piece::FieldList(fields.as_slice()),
                spread_or_absent(*spread),
            ]),
            Expr::OffsetOf { container, fields } => self.push_parts(&[
                Piece::Type_(*container),
                Piece::Names(fields.as_slice()),
            ]),
            _ => self.push_parts(&[]),
        }
    }

    /// Lets these parts wait, each after a space, and then a bracket.
    pub fn push_parts(&mut self, parts: &[Piece<'a>]) {
        self.push(Piece::Close);
        for part in parts.iter().rev() {
            self.add(Next {
                spaced: true,
                piece: *part,
            });
        }
    }
}
