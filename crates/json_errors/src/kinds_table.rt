//! The table of kinds: the groups that each serves in, its fields in order, and its word.

ghost use Rattle.std.specs.Prelude.{◌≡◌, map};
ghost use Rattle.json_errors.specs.Exprs.{expr_row};
ghost use Rattle.json_errors.specs.Items.{item_row};
ghost use Rattle.json_errors.specs.Parts.{part_row};
ghost use Rattle.json_errors.specs.Paths.{path_row};
ghost use Rattle.json_errors.specs.Pats.{pat_row};
ghost use Rattle.json_errors.specs.Rows.{named_sort};
ghost use Rattle.json_errors.specs.Stmts.{stmt_row};
ghost use Rattle.json_errors.specs.Table.{row};
ghost use Rattle.json_errors.specs.Types.{type_row};

use crate::field::Field;
use crate::field::Sort::{
    Elements, Flag, List, ListWithNulls, LiteralText, Number, Part, PlainLabel, Repeated, Text,
    TextIfThere, TryType, Word, WordIfThere,
};
use crate::group::Group;
use crate::group::Group::{
    Arm, Binder, Block, Bound, ConstArg, Else, Expr, Fn, GenericArg, GenericArgs, GenericParam,
    GenericParams, Guard, Label, LetElse, Lifetime, Literal, MacroCall, MacroStmts, Name, Param,
    ParamList, ParenArgs, Pat, PatField, Path, PathType, RecordField, RecordList, Ret, Segment,
    SelfParam, Stmt, Type_, TypeAlias, TypeArg, UseArg, Where, WherePred,
};
use crate::kind::{ExprNode, ItemNode, Kind, PartNode, PatNode, PathNode, StmtNode, TypeNode};
use crate::words::Words;

macro_rules! exprs {
    ($use:ident $at:expr) => {
        $use! { ExprNode $at;
            LetExpr [Expr] { "pat": Part(Pat), "expr": Part(Expr) }
            LoopExpr [Expr] { "label": Part(Label), "body": Part(Block) }
            WhileExpr [Expr] { "label": Part(Label), "condition": Part(Expr), "body": Part(Block) }
            ForExpr [Expr] { "label": Part(Label), "pat": Part(Pat), "iterable": Part(Expr), "body": Part(Block) }
            TryExpr [Expr] { "expr": Part(Expr) }
            CallExpr [Expr] { "expr": Part(Expr), "args": List(Expr) }
            MethodCallExpr [Expr] {
                "receiver": Part(Expr), "name": Part(Name), "generics": Part(GenericArgs), "args": List(Expr)
            }
            MatchExpr [Expr] { "expr": Part(Expr), "arms": List(Arm) }
            PathExpr [Expr] { "path": Part(Path) }
            ContinueExpr [Expr] { "lifetime": Part(Lifetime) }
            BreakExpr [Expr] { "lifetime": Part(Lifetime), "expr": Part(Expr) }
            ParenExpr [Expr] { "expr": Part(Expr) }
            ReturnExpr [Expr] { "expr": Part(Expr) }
            BecomeExpr [Expr] { "expr": Part(Expr) }
            YieldExpr [Expr] { "expr": Part(Expr) }
            YeetExpr [Expr] { "expr": Part(Expr) }
            AwaitExpr [Expr] { "expr": Part(Expr) }
            RecordExpr [Expr] { "path": Part(Path), "list": Part(RecordList) }
            FieldExpr [Expr] { "expr": Part(Expr), "name": Part(Name) }
            CastExpr [Expr] { "expr": Part(Expr), "ty": Part(Type_) }
            RefExpr [Expr] { "raw": Flag, "mut": Flag, "expr": Part(Expr) }
            PrefixExpr [Expr] { "op": WordIfThere(Words::UnaryOps), "expr": Part(Expr) }
            BinExpr [Expr] { "op": WordIfThere(Words::BinaryOps), "lhs": Part(Expr), "rhs": Part(Expr) }
            TupleExpr [Expr] { "leading_comma": Flag, "fields": List(Expr) }
            ArrayExpr [Expr] { "semi": Flag, "elems": Elements, "init": Repeated, "len": Repeated }
            IndexExpr [Expr] { "base": Part(Expr), "index": Part(Expr) }
            RangeExpr [Expr] { "op": WordIfThere(Words::RangeOps), "start": Part(Expr), "end": Part(Expr) }
            OffsetOfExpr [Expr] { "ty": Part(Type_), "fields": List(Name) }
            ClosureExpr [Expr] {
                "params": List(Param), "ret": Part(Ret), "body": Part(Expr), "async": Flag, "gen": Flag, "move": Flag,
                "static": Flag
            }
            CfgPredExpr [Expr] { "pred": Number }
            MacroExpr [Expr] { "call": Part(MacroCall) }
            UnderscoreExpr [Expr] {  }
            IncludeBytesExpr [Expr] {  }
            AsmExpr [Expr] {  }
            FormatArgsExpr [Expr] {  }
        }
    };
}

macro_rules! stmts {
    ($use:ident $at:expr) => {
        $use! { StmtNode $at;
            LetStmt [Stmt] { "pat": Part(Pat), "ty": Part(Type_), "init": Part(Expr), "else": Part(LetElse) }
            ExprStmt [Stmt] { "expr": Part(Expr), "semi": Flag }
            MacroRules [Stmt] { "name": Part(Name) }
            MacroDef [Stmt] { "name": Part(Name) }
            Item [Stmt] {  }
        }
    };
}

macro_rules! pats {
    ($use:ident $at:expr) => {
        $use! { PatNode $at;
            IdentPat [Pat] { "name": Part(Name), "ref": Flag, "mut": Flag, "pat": Part(Pat) }
            TupleStructPat [Pat] { "path": Part(Path), "leading_comma": Flag, "fields": List(Pat) }
            TuplePat [Pat] { "leading_comma": Flag, "fields": List(Pat) }
            RefPat [Pat] { "mut": Flag, "pat": Part(Pat) }
            PathPat [Pat] { "path": Part(Path) }
            OrPat [Pat] { "pats": List(Pat) }
            ParenPat [Pat] { "pat": Part(Pat) }
            BoxPat [Pat] { "pat": Part(Pat) }
            DerefPat [Pat] { "pat": Part(Pat) }
            RecordPat [Pat] { "path": Part(Path), "fields": List(PatField), "rest": Flag }
            SlicePat [Pat] { "prefix": List(Pat), "slice": Part(Pat), "suffix": List(Pat) }
            LiteralPat [Pat] { "lit": Part(Literal), "minus": Flag }
            RangePat [Pat] { "op": WordIfThere(Words::RangeOps), "start": Part(Pat), "end": Part(Pat) }
            CfgPredPat [Pat] { "pred": Number }
            MacroPat [Pat] { "call": Part(MacroCall) }
            WildcardPat [Pat] {  }
            RestPat [Pat] {  }
            NotNullPat [Pat] {  }
            ConstBlockPat [Pat] {  }
        }
    };
}

macro_rules! types {
    ($use:ident $at:expr) => {
        $use! { TypeNode $at;
            ParenType [Type_] { "ty": Part(Type_) }
            SliceType [Type_] { "ty": Part(Type_) }
            TupleType [Type_] { "fields": List(Type_) }
            PtrType [Type_] { "mut": Flag, "ty": Part(Type_) }
            ArrayType [Type_] { "ty": Part(Type_), "len": Part(ConstArg) }
            RefType [Type_] { "lifetime": Part(Lifetime), "mut": Flag, "ty": Part(Type_) }
            FnPtrType [Type_] { "unsafe": Flag, "abi": TextIfThere, "params": List(Param), "ret": Part(Ret) }
            ForType [Type_] { "binder": Part(Binder), "ty": Part(Type_) }
            ImplTraitType [Type_] { "bounds": List(Bound) }
            DynTraitType [Type_] { "bounds": List(Bound) }
            PatternType [Type_] { "ty": Part(Type_), "pat": Part(Pat) }
            MacroType [Type_] { "call": Part(MacroCall) }
            NeverType [Type_] {  }
            InferType [Type_] {  }
        }
    };
}

macro_rules! paths {
    ($use:ident $at:expr) => {
        $use! { PathNode $at;
            Path [Path] { "leading": Flag, "in_macro": Flag, "use": Part(Path), "segs": ListWithNulls(Segment) }
            PathSegment [Segment] {
                "seg": WordIfThere(Words::Segments), "name": Part(Name), "generics": Part(GenericArgs),
                "parens": Part(ParenArgs), "ret": Part(Ret), "rtn": Flag, "ty": Part(Type_), "trait": Part(PathType)
            }
            GenericArgList [GenericArgs] { "args": List(GenericArg) }
            TypeArg [GenericArg TypeArg] { "ty": Part(Type_) }
            AssocTypeArg [GenericArg] {
                "name": Part(Name), "params": Flag, "generics": Part(GenericArgs), "rtn": Flag, "ty": Part(Type_),
                "bounds": List(Bound)
            }
            LifetimeArg [GenericArg] { "lifetime": Part(Lifetime) }
            ConstArg [GenericArg ConstArg] { "expr": Part(Expr) }
            ParenArgs [ParenArgs] { "args": List(TypeArg) }
        }
    };
}

macro_rules! items {
    ($use:ident $at:expr) => {
        $use! { ItemNode $at;
            TypeParam [GenericParam] { "name": Part(Name), "bounds": List(Bound), "default": Part(Type_) }
            ConstParam [GenericParam] { "name": Part(Name), "ty": Part(Type_), "default": Part(ConstArg) }
            LifetimeParam [GenericParam] { "lifetime": Part(Lifetime), "bounds": List(Bound) }
            GenericParamList [GenericParams] { "params": List(GenericParam) }
            WherePred [WherePred] {
                "ty": Part(Type_), "lifetime": Part(Lifetime), "binder": Part(Binder), "bounds": List(Bound)
            }
            WhereClause [Where] { "preds": List(WherePred) }
            Fn [Fn] {
                "generics": Part(GenericParams), "where": Part(Where), "params": Part(ParamList), "ret": Part(Ret),
                "body": Part(Expr), "async": Flag, "gen": Flag
            }
            Impl [] {
                "self_ty": Part(Type_), "trait": Part(Type_), "generics": Part(GenericParams), "where": Part(Where)
            }
            Trait [] { "bounds": List(Bound), "generics": Part(GenericParams), "where": Part(Where) }
            TypeAlias [TypeAlias] {
                "bounds": List(Bound), "generics": Part(GenericParams), "where": Part(Where), "ty": Part(Type_)
            }
        }
    };
}

macro_rules! parts {
    ($use:ident $at:expr) => {
        $use! { PartNode $at;
            TypeBound [Bound] {
                "b": WordIfThere(Words::Bounds), "ty": Part(PathType), "binder": Part(Binder), "maybe": Flag,
                "lifetime": Part(Lifetime), "uses": List(UseArg)
            }
            ForBinder [Binder] { "params": ListWithNulls(Lifetime) }
            RetType [Ret] { "ty": Part(Type_) }
            MatchArm [Arm] { "pat": Part(Pat), "guard": Part(Guard), "expr": Part(Expr) }
            Guard [Guard] { "condition": Part(Expr) }
            LetElse [LetElse] { "block": Part(Block) }
            RecordExprFieldList [RecordList] { "fields": List(RecordField), "spread": Part(Expr), "dotdot": Flag }
            RecordExprField [RecordField] { "name": Part(Name), "expr": Part(Expr) }
            RecordPatField [PatField] { "name": Part(Name), "pat": Part(Pat) }
            MacroCall [MacroCall] { "path": Part(Path) }
            MacroStmts [MacroStmts] { "stmts": List(Stmt), "expr": Part(Expr) }
            Param [Param] { "pat": Part(Pat), "ty": Part(Type_), "variadic": Flag }
            SelfParam [SelfParam] { "name": Part(Name), "ref": Flag, "mut": Flag, "lifetime": Part(Lifetime), "ty": Part(Type_) }
            ParamList [ParamList] { "self": Part(SelfParam), "params": List(Param) }
            Label [Label] { "lifetime": Part(Lifetime) }
            Lifetime [Lifetime UseArg] { "t": Text }
            Name [Name UseArg] { "t": Text }
        }
    };
}

macro_rules! groups_of {
    ($of:ident $at:expr; $($kind:ident [$($group:ident)*] { $($name:literal: $sort:expr),* })*) => {
        match $at { $($of::$kind => &[$($group),*]),* }
    };
}

macro_rules! fields_of {
    ($of:ident $at:expr; $($kind:ident [$($group:ident)*] { $($name:literal: $sort:expr),* })*) => {
        match $at { $($of::$kind => &[$(Field { name: $name, sort: $sort }),*]),* }
    };
}

macro_rules! listed {
    ($($name:literal: $sort:expr),*) => {
        &[$(Field { name: $name, sort: $sort }),*]
    };
}

impl ExprNode {
    fn groups(self) -> &'static [Group]
        ensures { result.now ≡ (expr_row self).groups }
    {
        exprs!(groups_of self)
    }

    fn fields(self) -> &'static [Field]
        ensures { map named_sort result.now ≡ (expr_row self).fields }
    {
        exprs!(fields_of self)
    }
}

impl StmtNode {
    fn groups(self) -> &'static [Group]
        ensures { result.now ≡ (stmt_row self).groups }
    {
        stmts!(groups_of self)
    }

    fn fields(self) -> &'static [Field]
        ensures { map named_sort result.now ≡ (stmt_row self).fields }
    {
        stmts!(fields_of self)
    }
}

impl PatNode {
    fn groups(self) -> &'static [Group]
        ensures { result.now ≡ (pat_row self).groups }
    {
        pats!(groups_of self)
    }

    fn fields(self) -> &'static [Field]
        ensures { map named_sort result.now ≡ (pat_row self).fields }
    {
        pats!(fields_of self)
    }
}

impl TypeNode {
    fn groups(self) -> &'static [Group]
        ensures { result.now ≡ (type_row self).groups }
    {
        types!(groups_of self)
    }

    fn fields(self) -> &'static [Field]
        ensures { map named_sort result.now ≡ (type_row self).fields }
    {
        types!(fields_of self)
    }
}

impl PathNode {
    fn groups(self) -> &'static [Group]
        ensures { result.now ≡ (path_row self).groups }
    {
        paths!(groups_of self)
    }

    fn fields(self) -> &'static [Field]
        ensures { map named_sort result.now ≡ (path_row self).fields }
    {
        paths!(fields_of self)
    }
}

impl ItemNode {
    fn groups(self) -> &'static [Group]
        ensures { result.now ≡ (item_row self).groups }
    {
        items!(groups_of self)
    }

    fn fields(self) -> &'static [Field]
        ensures { map named_sort result.now ≡ (item_row self).fields }
    {
        items!(fields_of self)
    }
}

impl PartNode {
    fn groups(self) -> &'static [Group]
        ensures { result.now ≡ (part_row self).groups }
    {
        parts!(groups_of self)
    }

    fn fields(self) -> &'static [Field]
        ensures { map named_sort result.now ≡ (part_row self).fields }
    {
        parts!(fields_of self)
    }
}

impl Kind {
    /// The groups that a kind serves in.
    pub fn groups(self) -> &'static [Group]
        ensures { result.now ≡ (row self).groups }
    {
        match self {
            Kind::IfExpr => &[Expr, Else],
            Kind::BlockExpr => &[Expr, Block, Else],
            Kind::Literal => &[Expr, Literal],
            Kind::PathType => &[Type_, PathType],
            Kind::Expr(kind) => kind.groups(),
            Kind::Stmt(kind) => kind.groups(),
            Kind::Pat(kind) => kind.groups(),
            Kind::Type_(kind) => kind.groups(),
            Kind::Path(kind) => kind.groups(),
            Kind::Item(kind) => kind.groups(),
            Kind::Part(kind) => kind.groups(),
        }
    }

    /// The fields of a kind, in order.
    pub fn fields(self) -> &'static [Field]
        ensures { map named_sort result.now ≡ (row self).fields }
    {
        match self {
            Kind::IfExpr =>
                listed!("condition": Part(Expr), "then": Part(Block), "else": Part(Else)),
            Kind::BlockExpr => listed!(
                "mod": WordIfThere(Words::Modifiers), "label": PlainLabel, "move": Flag, "ty": TryType,
                "stmts": List(Stmt), "tail": Part(Expr)
            ),
            Kind::Literal =>
                listed!("lit": Word(Words::Literals), "t": LiteralText, "suffix": TextIfThere),
            Kind::PathType => listed!("path": Part(Path)),
            Kind::Expr(kind) => kind.fields(),
            Kind::Stmt(kind) => kind.fields(),
            Kind::Pat(kind) => kind.fields(),
            Kind::Type_(kind) => kind.fields(),
            Kind::Path(kind) => kind.fields(),
            Kind::Item(kind) => kind.fields(),
            Kind::Part(kind) => kind.fields(),
        }
    }
}
