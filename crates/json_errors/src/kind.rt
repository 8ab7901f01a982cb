//! The kinds of nodes.

/// A kind of nodes that a document may use. Kinds that are read alike stand together, so that a function over a few of them
/// tells these from their neighbours alone.
#[derive(Clone, Copy)]
pub enum Kind {
    IfExpr,
    BlockExpr,
    Literal,
    PathType,
    /// Any other expression.
    Expr(ExprNode),
    Stmt(StmtNode),
    Pat(PatNode),
    /// Any other type.
    Type_(TypeNode),
    /// A path, or what stands beside a name.
    Path(PathNode),
    /// An item, or what is generic in one.
    Item(ItemNode),
    /// A part of any other.
    Part(PartNode),
}

/// A kind of expressions, except for those that serve elsewhere too.
#[derive(Clone, Copy)]
pub enum ExprNode {
    LetExpr,
    LoopExpr,
    WhileExpr,
    ForExpr,
    TryExpr,
    CallExpr,
    MethodCallExpr,
    MatchExpr,
    PathExpr,
    ContinueExpr,
    BreakExpr,
    ParenExpr,
    ReturnExpr,
    BecomeExpr,
    YieldExpr,
    YeetExpr,
    AwaitExpr,
    RecordExpr,
    FieldExpr,
    CastExpr,
    RefExpr,
    PrefixExpr,
    BinExpr,
    TupleExpr,
    ArrayExpr,
    IndexExpr,
    RangeExpr,
    OffsetOfExpr,
    ClosureExpr,
    CfgPredExpr,
    MacroExpr,
    UnderscoreExpr,
    IncludeBytesExpr,
    AsmExpr,
    FormatArgsExpr,
}

/// A kind of statements.
#[derive(Clone, Copy)]
pub enum StmtNode {
    LetStmt,
    ExprStmt,
    MacroRules,
    MacroDef,
    Item,
}

/// A kind of patterns.
#[derive(Clone, Copy)]
pub enum PatNode {
    IdentPat,
    TupleStructPat,
    TuplePat,
    RefPat,
    PathPat,
    OrPat,
    ParenPat,
    BoxPat,
    DerefPat,
    RecordPat,
    SlicePat,
    LiteralPat,
    RangePat,
    CfgPredPat,
    MacroPat,
    WildcardPat,
    RestPat,
    NotNullPat,
    ConstBlockPat,
}

/// A kind of types, except for paths.
#[derive(Clone, Copy)]
pub enum TypeNode {
    ParenType,
    SliceType,
    TupleType,
    PtrType,
    ArrayType,
    RefType,
    FnPtrType,
    ForType,
    ImplTraitType,
    DynTraitType,
    PatternType,
    MacroType,
    NeverType,
    InferType,
}

/// A path, its segments, and the kinds of arguments.
#[derive(Clone, Copy)]
pub enum PathNode {
    Path,
    PathSegment,
    GenericArgList,
    TypeArg,
    AssocTypeArg,
    LifetimeArg,
    ConstArg,
    ParenArgs,
}

/// An item that is read by itself, or what is generic in one.
#[derive(Clone, Copy)]
pub enum ItemNode {
    TypeParam,
    ConstParam,
    LifetimeParam,
    GenericParamList,
    WherePred,
    WhereClause,
    Fn,
    Impl,
    Trait,
    TypeAlias,
}

/// A kind of parts that are none of these.
#[derive(Clone, Copy)]
pub enum PartNode {
    TypeBound,
    ForBinder,
    RetType,
    MatchArm,
    Guard,
    LetElse,
    RecordExprFieldList,
    RecordExprField,
    RecordPatField,
    MacroCall,
    MacroStmts,
    Param,
    SelfParam,
    ParamList,
    Label,
    Lifetime,
    Name,
}
