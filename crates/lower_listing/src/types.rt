//! The parts of types, paths, arguments and bounds, in the order in which they are printed.

use super::waiting::{Piece, Waiting};
use super::words::extern_word;
use hir_store::ids::TypeRefId;
use hir_store::path::{
    AssociatedTypeBinding, GenericArgs, GenericArgsParentheses, NormalPath, Path, PathKind,
};
use hir_store::type_ref::{ArrayType, FnType, TraitBoundModifier, TypeBound};

const NOTHING: Piece<'static> = Piece::Word("");

/// What joins the first name to what a path begins with.
pub fn before_first_name(kind: PathKind) -> &'static str {
    match kind {
        PathKind::Plain | PathKind::Abs => "",
        PathKind::Super(_) | PathKind::Crate | PathKind::DollarCrate(_) => "::",
    }
}

/// What is let wait here waits before all others.
impl<'a> Waiting<'a> {
    /// Lets a tuple wait, with its types between parentheses.
    pub fn push_tuple(&mut self, types: &'a [TypeRefId]) {
        self.push_all(&[Piece::Word("("), Piece::Types("", types), Piece::Word(")")])
    }

    /// Lets a slice wait, with its type between brackets.
    pub fn push_slice(&mut self, ty: TypeRefId) {
        self.push_all(&[Piece::Word("["), Piece::Type_(ty), Piece::Word("]")])
    }

    /// The length is an expression of the same store.
    pub fn push_array(&mut self, array: &ArrayType) {
        self.push_all(&[
            Piece::Word("["),
            Piece::Type_(array.ty),
            Piece::Word("; "),
            Piece::Expr(array.len.expr),
            Piece::Word("]"),
        ])
    }

    /// The last of the types is what the function answers.
    pub fn push_function(&mut self, pointer: &'a FnType) {
        let Some((answer, params)) = pointer.params.as_slice().split_last() else {
            return;
        };
        let binder = match &pointer.binder {
            Some(names) => Piece::Binder(names.as_slice()),
            None => NOTHING,
        };
        let dots = match (pointer.is_varargs, params.is_empty()) {
            (false, _) => "",
            (true, true) => "...",
            (true, false) => ", ...",
        };
        self.push_all(&[
            binder,
            Piece::Word(if pointer.is_unsafe { "unsafe " } else { "" }),
            Piece::Word(extern_word(pointer.abi)),
            Piece::Word("fn("),
            Piece::Params("", params, pointer.names.as_slice()),
            Piece::Word(dots),
            Piece::Word(") -> "),
            Piece::Type_(*answer),
        ])
    }

    /// Lets the parts of a bound wait.
    pub fn push_bound(&mut self, bound: &'a TypeBound) {
        match bound {
            TypeBound::Path(path, TraitBoundModifier::None) => self.push(Piece::Type_(*path)),
            TypeBound::Path(path, TraitBoundModifier::Maybe) => self.push_all(&[
                Piece::Word("?"),
                Piece::Type_(*path),
            ]),
            TypeBound::ForLifetime(names, path) => self.push_all(&[
                Piece::Binder(names.as_slice()),
                Piece::Type_(*path),
            ]),
            TypeBound::Lifetime(id) => self.push(Piece::Lifetime(*id)),
            TypeBound::Use(args) => self.push_all(&[
                Piece::Word("use<"),
                Piece::UseArgs("", args.as_slice()),
                Piece::Word(">"),
            ]),
            TypeBound::Error => self.push(Piece::Word("{error}")),
        }
    }

    /// Lets the parts of a path wait: its anchor or where it begins, then its names, each with its arguments.
    pub fn push_path(&mut self, path: &'a Path) {
        match path {
            Path::BarePath(path) => self.push(Piece::ModPath(path)),
            Path::Normal(path) => self.push_normal_path(path),
            Path::LangItem(item) => self.push(Piece::LangItem(*item)),
        }
    }

    fn push_normal_path(&mut self, path: &'a NormalPath) {
        let kind = path.mod_path.kind;
        let names = path.mod_path.segments.as_slice();
        let args = path.generic_args.as_slice();
        match path.type_anchor {
            Some(ty) => self.push_all(&[
                Piece::Word("<"),
                Piece::Type_(ty),
                Piece::Word(">"),
                Piece::Segments("::", names, args),
            ]),
            None => self.push_all(&[
                Piece::PathKind(kind),
                Piece::Segments(before_first_name(kind), names, args),
            ]),
        }
    }

    /// Lets the parts of a list of arguments wait, as it stands behind a name.
    pub fn push_generic_args(&mut self, args: &'a GenericArgs) {
        if let GenericArgsParentheses::ReturnTypeNotation = args.parenthesized {
            return self.push(Piece::Word("::(..)"));
        }
        let before_bindings = if args.args.is_empty() { "" } else { ", " };
        self.push_all(&[
            Piece::Word("::<"),
            Piece::Word(if args.has_self_type { "Self = " } else { "" }),
            Piece::Args("", args.args.as_slice()),
            Piece::TypeBindings(before_bindings, args.bindings.as_slice()),
            Piece::Word(">"),
        ])
    }

    /// Lets the parts of a binding wait: its name and what it has of arguments, type and bounds.
    pub fn push_binding(&mut self, binding: &'a AssociatedTypeBinding) {
        let args = match &binding.args {
            Some(args) => Piece::GenericArgs(args),
            None => NOTHING,
        };
        let (equals, ty) = match binding.type_ref {
            Some(ty) => (Piece::Word(" = "), Piece::Type_(ty)),
            None => (NOTHING, NOTHING),
        };
        self.push_all(&[
            Piece::Name(&binding.name),
            args,
            equals,
            ty,
            Piece::Bounds(": ", binding.bounds.as_slice()),
        ])
    }
}
