//! Operators, and the kinds of literals.

/// The kind of a literal.
#[derive(Clone, Copy, PartialEq, Eq)]
pub enum LiteralKind {
    Str,
    ByteStr,
    CStr,
    Char,
    Bool,
    Int,
    Float,
}

/// The operator of a prefix expression.
#[derive(Clone, Copy, PartialEq, Eq)]
pub enum UnaryOp {
    Deref,
    Not,
    Neg,
}

/// The operator of a lazy boolean expression.
#[derive(Clone, Copy, PartialEq, Eq)]
pub enum LogicOp {
    And,
    Or,
}

/// The side that an operator of order asks for.
#[derive(Clone, Copy, PartialEq, Eq)]
pub enum Ordering {
    Less,
    Greater,
}

/// The operator of a comparison: `Eq` of `==` and `!=`, `Ord` of the four of order, `<` and `>` of which are strict.
#[derive(Clone, Copy, PartialEq, Eq)]
pub enum CmpOp {
    Eq { negated: bool },
    Ord { ordering: Ordering, strict: bool },
}

/// The operator of arithmetic, of shifts or of bits.
#[derive(Clone, Copy, PartialEq, Eq)]
pub enum ArithOp {
    Add,
    Mul,
    Sub,
    Div,
    Rem,
    Shl,
    Shr,
    BitXor,
    BitOr,
    BitAnd,
}

/// The operator of a binary expression. The left side of `Assign` is no operand.
#[derive(Clone, Copy, PartialEq, Eq)]
pub enum BinaryOp {
    LogicOp(LogicOp),
    ArithOp(ArithOp),
    CmpOp(CmpOp),
    Assignment { op: ArithOp },
    Assign,
}

/// The operator of a range.
#[derive(Clone, Copy, PartialEq, Eq)]
pub enum RangeOp {
    /// `..`
    Exclusive,
    /// `..=`
    Inclusive,
}
