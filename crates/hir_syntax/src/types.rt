//! Types, and the arguments and bounds in them.

use crate::ast::{ConstArg, Lifetime, Name, Path};
use crate::macros::MacroCall;
use crate::pats::Pat;
use hir_base::node::{NodeId, TextRange};
use hir_base::{Boxed, Seq, Text};

/// A type.
#[cycle(ast)]
pub struct Type_ {
    pub id: NodeId,
    pub range: TextRange,
    pub kind: TypeKind,
}

impl Drop for Type_ {
    #[cycle(ast_drop)]
    fn drop(self) {
        let Type_ {
            id: _,
            range: _,
            kind: _,
        } = self;
    }
}

/// The kind of a type, with its parts.
#[derive(Drop)]
#[cycle(ast)]
pub enum TypeKind {
    ParenType {
        ty: Option<Boxed<Type_>>,
    },
    SliceType {
        ty: Option<Boxed<Type_>>,
    },
    ArrayType {
        ty: Option<Boxed<Type_>>,
        len: Option<ConstArg>,
    },
    TupleType {
        fields: Seq<Type_>,
    },
    PathType {
        path: Option<Boxed<Path>>,
    },
    PtrType {
        mut_: bool,
        ty: Option<Boxed<Type_>>,
    },
    RefType {
        lifetime: Option<Lifetime>,
        mut_: bool,
        ty: Option<Boxed<Type_>>,
    },
    FnPtrType {
        unsafe_: bool,
        /// The text of an `extern`, empty where it has none.
        abi: Option<Text>,
        params: Option<Seq<Param>>,
        ret: Option<RetType>,
    },
    ForType {
        binder: Option<ForBinder>,
        ty: Option<Boxed<Type_>>,
    },
    ImplTraitType {
        bounds: Seq<TypeBound>,
    },
    DynTraitType {
        bounds: Seq<TypeBound>,
    },
    /// `T is p`.
    PatternType {
        ty: Option<Boxed<Type_>>,
        pat: Option<Boxed<Pat>>,
    },
    MacroType {
        call: Option<MacroCall>,
    },
    NeverType,
    InferType,
}

/// A parameter of a function or of a function pointer. A variadic one is `...`.
#[cycle(ast)]
pub struct Param {
    pub id: NodeId,
    pub range: TextRange,
    pub pat: Option<Boxed<Pat>>,
    pub ty: Option<Boxed<Type_>>,
    pub variadic: bool,
}

impl Drop for Param {
    #[cycle(ast_drop)]
    fn drop(self) {
        let Param {
            id: _,
            range: _,
            pat: _,
            ty: _,
            variadic: _,
        } = self;
    }
}

/// A bound of a type. One without a kind, a path without `ty` and a lifetime without `lifetime` are errors.
#[cycle(ast)]
pub struct TypeBound {
    pub id: NodeId,
    pub range: TextRange,
    pub b: Option<BoundKind>,
    /// The path of a trait.
    pub ty: Option<PathType>,
    /// `for<..>` in front of the path.
    pub binder: Option<ForBinder>,
    /// Whether `?` stands in front of the path.
    pub maybe: bool,
    pub lifetime: Option<Lifetime>,
    /// What a `use<..>` names.
    pub uses: Seq<UseArg>,
}

impl Drop for TypeBound {
    #[cycle(ast_drop)]
    fn drop(self) {
        let TypeBound {
            id: _,
            range: _,
            b: _,
            ty: _,
            binder: _,
            maybe: _,
            lifetime: _,
            uses: _,
        } = self;
    }
}

/// What a bound is written as.
#[derive(Clone, Copy, PartialEq, Eq)]
pub enum BoundKind {
    Path,
    Use,
    Lifetime,
}

/// The lifetimes that `for` introduces. One that a broken text lacks is `None`.
pub struct ForBinder {
    pub id: NodeId,
    pub range: TextRange,
    pub params: Seq<Option<Lifetime>>,
}

impl Drop for ForBinder {
    fn drop(self) {
        let ForBinder {
            id: _,
            range: _,
            params: _,
        } = self;
    }
}

/// What a `use<..>` names.
pub enum UseArg {
    Lifetime(Lifetime),
    Name(Name),
}

impl Drop for UseArg {
    fn drop(self) {
        match self {
            UseArg::Lifetime(_) => {}
            UseArg::Name(_) => {}
        }
    }
}

/// The path of a trait.
#[derive(Drop)]
#[cycle(ast)]
pub struct PathType {
    pub id: NodeId,
    pub range: TextRange,
    pub path: Option<Boxed<Path>>,
}

/// An argument of a path's segment, of a called method, or of the name in `N = T` or `N: B`.
#[cycle(ast)]
pub enum GenericArg {
    TypeArg(TypeArg),
    AssocTypeArg(AssocTypeArg),
    LifetimeArg(LifetimeArg),
    ConstArg(ConstArg),
}

impl Drop for GenericArg {
    #[cycle(ast_drop)]
    fn drop(self) {
        match self {
            GenericArg::TypeArg(_) => {}
            GenericArg::AssocTypeArg(_) => {}
            GenericArg::LifetimeArg(_) => {}
            GenericArg::ConstArg(_) => {}
        }
    }
}

/// `N = T` or `N: B` as an argument.
#[derive(Drop)]
#[cycle(ast)]
pub struct AssocTypeArg {
    pub id: NodeId,
    pub range: TextRange,
    pub name: Option<Name>,
    /// Whether `(..)` with types in it stands behind the name.
    pub params: bool,
    /// `<..>` behind the name.
    pub generics: Option<GenericArgList>,
    /// Whether `(..)` with two dots in it stands behind the name.
    pub rtn: bool,
    pub ty: Option<Boxed<Type_>>,
    pub bounds: Seq<TypeBound>,
}

/// A lifetime as an argument.
pub struct LifetimeArg {
    pub id: NodeId,
    pub range: TextRange,
    pub lifetime: Option<Lifetime>,
}

impl Drop for LifetimeArg {
    fn drop(self) {
        let LifetimeArg {
            id: _,
            range: _,
            lifetime: _,
        } = self;
    }
}

/// `-> T`.
pub type RetType = Option<Boxed<Type_>>;

/// A type as an argument.
pub type TypeArg = Option<Boxed<Type_>>;

/// `<..>` behind a name.
pub type GenericArgList = Seq<GenericArg>;

/// `(A, B)` behind a name.
pub type ParenArgs = Seq<TypeArg>;
