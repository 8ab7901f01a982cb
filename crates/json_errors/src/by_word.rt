//! The kinds of nodes by their words.

ghost use Rattle.std.specs.Prelude.{◌≡◌};
ghost use Rattle.json_errors.specs.Table.{kind_of};
ghost use Rattle.json_errors.specs.ByLength.{kind_of_length};

use crate::kind::{ExprNode, ItemNode, Kind, PartNode, PatNode, PathNode, StmtNode, TypeNode};

fn of_2(word: &str) -> Option<Kind>
    ensures { result ≡ kind_of_length 2 word.now }
{
    match word {
        "Fn" => Some(Kind::Item(ItemNode::Fn)),
        _ => None,
    }
}

fn of_4(word: &str) -> Option<Kind>
    ensures { result ≡ kind_of_length 4 word.now }
{
    match word {
        "Path" => Some(Kind::Path(PathNode::Path)),
        "Name" => Some(Kind::Part(PartNode::Name)),
        "Item" => Some(Kind::Stmt(StmtNode::Item)),
        "Impl" => Some(Kind::Item(ItemNode::Impl)),
        _ => None,
    }
}

fn of_5(word: &str) -> Option<Kind>
    ensures { result ≡ kind_of_length 5 word.now }
{
    match word {
        "Param" => Some(Kind::Part(PartNode::Param)),
        "Guard" => Some(Kind::Part(PartNode::Guard)),
        "OrPat" => Some(Kind::Pat(PatNode::OrPat)),
        "Label" => Some(Kind::Part(PartNode::Label)),
        "Trait" => Some(Kind::Item(ItemNode::Trait)),
        _ => None,
    }
}

fn of_6(word: &str) -> Option<Kind>
    ensures { result ≡ kind_of_length 6 word.now }
{
    match word {
        "IfExpr" => Some(Kind::IfExpr),
        "RefPat" => Some(Kind::Pat(PatNode::RefPat)),
        "BoxPat" => Some(Kind::Pat(PatNode::BoxPat)),
        _ => None,
    }
}

fn of_7(word: &str) -> Option<Kind>
    ensures { result ≡ kind_of_length 7 word.now }
{
    match word {
        "Literal" => Some(Kind::Literal),
        "BinExpr" => Some(Kind::Expr(ExprNode::BinExpr)),
        "LetStmt" => Some(Kind::Stmt(StmtNode::LetStmt)),
        "RefExpr" => Some(Kind::Expr(ExprNode::RefExpr)),
        "RefType" => Some(Kind::Type_(TypeNode::RefType)),
        "TypeArg" => Some(Kind::Path(PathNode::TypeArg)),
        "RetType" => Some(Kind::Part(PartNode::RetType)),
        "ForExpr" => Some(Kind::Expr(ExprNode::ForExpr)),
        "TryExpr" => Some(Kind::Expr(ExprNode::TryExpr)),
        "AsmExpr" => Some(Kind::Expr(ExprNode::AsmExpr)),
        "LetExpr" => Some(Kind::Expr(ExprNode::LetExpr)),
        "LetElse" => Some(Kind::Part(PartNode::LetElse)),
        "PathPat" => Some(Kind::Pat(PatNode::PathPat)),
        "RestPat" => Some(Kind::Pat(PatNode::RestPat)),
        "PtrType" => Some(Kind::Type_(TypeNode::PtrType)),
        "ForType" => Some(Kind::Type_(TypeNode::ForType)),
        _ => None,
    }
}

fn of_8(word: &str) -> Option<Kind>
    ensures { result ≡ kind_of_length 8 word.now }
{
    match word {
        "ExprStmt" => Some(Kind::Stmt(StmtNode::ExprStmt)),
        "PathExpr" => Some(Kind::Expr(ExprNode::PathExpr)),
        "CallExpr" => Some(Kind::Expr(ExprNode::CallExpr)),
        "IdentPat" => Some(Kind::Pat(PatNode::IdentPat)),
        "MatchArm" => Some(Kind::Part(PartNode::MatchArm)),
        "PathType" => Some(Kind::PathType),
        "Lifetime" => Some(Kind::Part(PartNode::Lifetime)),
        "TuplePat" => Some(Kind::Pat(PatNode::TuplePat)),
        "LoopExpr" => Some(Kind::Expr(ExprNode::LoopExpr)),
        "YeetExpr" => Some(Kind::Expr(ExprNode::YeetExpr)),
        "CastExpr" => Some(Kind::Expr(ExprNode::CastExpr)),
        "ParenPat" => Some(Kind::Pat(PatNode::ParenPat)),
        "DerefPat" => Some(Kind::Pat(PatNode::DerefPat)),
        "SlicePat" => Some(Kind::Pat(PatNode::SlicePat)),
        "RangePat" => Some(Kind::Pat(PatNode::RangePat)),
        "MacroPat" => Some(Kind::Pat(PatNode::MacroPat)),
        "MacroDef" => Some(Kind::Stmt(StmtNode::MacroDef)),
        "ConstArg" => Some(Kind::Path(PathNode::ConstArg)),
        _ => None,
    }
}

fn of_9(word: &str) -> Option<Kind>
    ensures { result ≡ kind_of_length 9 word.now }
{
    match word {
        "BlockExpr" => Some(Kind::BlockExpr),
        "FieldExpr" => Some(Kind::Expr(ExprNode::FieldExpr)),
        "ParenExpr" => Some(Kind::Expr(ExprNode::ParenExpr)),
        "ParamList" => Some(Kind::Part(PartNode::ParamList)),
        "TupleType" => Some(Kind::Type_(TypeNode::TupleType)),
        "TypeBound" => Some(Kind::Part(PartNode::TypeBound)),
        "MatchExpr" => Some(Kind::Expr(ExprNode::MatchExpr)),
        "WhileExpr" => Some(Kind::Expr(ExprNode::WhileExpr)),
        "BreakExpr" => Some(Kind::Expr(ExprNode::BreakExpr)),
        "IndexExpr" => Some(Kind::Expr(ExprNode::IndexExpr)),
        "RangeExpr" => Some(Kind::Expr(ExprNode::RangeExpr)),
        "TupleExpr" => Some(Kind::Expr(ExprNode::TupleExpr)),
        "ArrayExpr" => Some(Kind::Expr(ExprNode::ArrayExpr)),
        "YieldExpr" => Some(Kind::Expr(ExprNode::YieldExpr)),
        "AwaitExpr" => Some(Kind::Expr(ExprNode::AwaitExpr)),
        "RecordPat" => Some(Kind::Pat(PatNode::RecordPat)),
        "MacroExpr" => Some(Kind::Expr(ExprNode::MacroExpr)),
        "MacroType" => Some(Kind::Type_(TypeNode::MacroType)),
        "MacroCall" => Some(Kind::Part(PartNode::MacroCall)),
        "ParenType" => Some(Kind::Type_(TypeNode::ParenType)),
        "SliceType" => Some(Kind::Type_(TypeNode::SliceType)),
        "ArrayType" => Some(Kind::Type_(TypeNode::ArrayType)),
        "FnPtrType" => Some(Kind::Type_(TypeNode::FnPtrType)),
        "NeverType" => Some(Kind::Type_(TypeNode::NeverType)),
        "InferType" => Some(Kind::Type_(TypeNode::InferType)),
        "ParenArgs" => Some(Kind::Path(PathNode::ParenArgs)),
        "ForBinder" => Some(Kind::Part(PartNode::ForBinder)),
        "SelfParam" => Some(Kind::Part(PartNode::SelfParam)),
        "TypeParam" => Some(Kind::Item(ItemNode::TypeParam)),
        "WherePred" => Some(Kind::Item(ItemNode::WherePred)),
        "TypeAlias" => Some(Kind::Item(ItemNode::TypeAlias)),
        _ => None,
    }
}

fn of_10(word: &str) -> Option<Kind>
    ensures { result ≡ kind_of_length 10 word.now }
{
    match word {
        "PrefixExpr" => Some(Kind::Expr(ExprNode::PrefixExpr)),
        "ReturnExpr" => Some(Kind::Expr(ExprNode::ReturnExpr)),
        "BecomeExpr" => Some(Kind::Expr(ExprNode::BecomeExpr)),
        "RecordExpr" => Some(Kind::Expr(ExprNode::RecordExpr)),
        "LiteralPat" => Some(Kind::Pat(PatNode::LiteralPat)),
        "CfgPredPat" => Some(Kind::Pat(PatNode::CfgPredPat)),
        "NotNullPat" => Some(Kind::Pat(PatNode::NotNullPat)),
        "MacroStmts" => Some(Kind::Part(PartNode::MacroStmts)),
        "MacroRules" => Some(Kind::Stmt(StmtNode::MacroRules)),
        "ConstParam" => Some(Kind::Item(ItemNode::ConstParam)),
        _ => None,
    }
}

fn of_11(word: &str) -> Option<Kind>
    ensures { result ≡ kind_of_length 11 word.now }
{
    match word {
        "PathSegment" => Some(Kind::Path(PathNode::PathSegment)),
        "ClosureExpr" => Some(Kind::Expr(ExprNode::ClosureExpr)),
        "CfgPredExpr" => Some(Kind::Expr(ExprNode::CfgPredExpr)),
        "WildcardPat" => Some(Kind::Pat(PatNode::WildcardPat)),
        "PatternType" => Some(Kind::Type_(TypeNode::PatternType)),
        "LifetimeArg" => Some(Kind::Path(PathNode::LifetimeArg)),
        "WhereClause" => Some(Kind::Item(ItemNode::WhereClause)),
        _ => None,
    }
}

fn of_12(word: &str) -> Option<Kind>
    ensures { result ≡ kind_of_length 12 word.now }
{
    match word {
        "ContinueExpr" => Some(Kind::Expr(ExprNode::ContinueExpr)),
        "OffsetOfExpr" => Some(Kind::Expr(ExprNode::OffsetOfExpr)),
        "DynTraitType" => Some(Kind::Type_(TypeNode::DynTraitType)),
        "AssocTypeArg" => Some(Kind::Path(PathNode::AssocTypeArg)),
        _ => None,
    }
}

fn of_13(word: &str) -> Option<Kind>
    ensures { result ≡ kind_of_length 13 word.now }
{
    match word {
        "ConstBlockPat" => Some(Kind::Pat(PatNode::ConstBlockPat)),
        "ImplTraitType" => Some(Kind::Type_(TypeNode::ImplTraitType)),
        "LifetimeParam" => Some(Kind::Item(ItemNode::LifetimeParam)),
        _ => None,
    }
}

fn of_14(word: &str) -> Option<Kind>
    ensures { result ≡ kind_of_length 14 word.now }
{
    match word {
        "GenericArgList" => Some(Kind::Path(PathNode::GenericArgList)),
        "MethodCallExpr" => Some(Kind::Expr(ExprNode::MethodCallExpr)),
        "RecordPatField" => Some(Kind::Part(PartNode::RecordPatField)),
        "TupleStructPat" => Some(Kind::Pat(PatNode::TupleStructPat)),
        "UnderscoreExpr" => Some(Kind::Expr(ExprNode::UnderscoreExpr)),
        "FormatArgsExpr" => Some(Kind::Expr(ExprNode::FormatArgsExpr)),
        _ => None,
    }
}

fn of_15(word: &str) -> Option<Kind>
    ensures { result ≡ kind_of_length 15 word.now }
{
    match word {
        "RecordExprField" => Some(Kind::Part(PartNode::RecordExprField)),
        _ => None,
    }
}

fn of_16(word: &str) -> Option<Kind>
    ensures { result ≡ kind_of_length 16 word.now }
{
    match word {
        "IncludeBytesExpr" => Some(Kind::Expr(ExprNode::IncludeBytesExpr)),
        "GenericParamList" => Some(Kind::Item(ItemNode::GenericParamList)),
        _ => None,
    }
}

fn of_19(word: &str) -> Option<Kind>
    ensures { result ≡ kind_of_length 19 word.now }
{
    match word {
        "RecordExprFieldList" => Some(Kind::Part(PartNode::RecordExprFieldList)),
        _ => None,
    }
}

impl Kind {
    /// The kind with that word. It is sought among those of its length, since a word costs less to compare with one of
    /// another length than with one of its own.
    pub fn from_word(word: &str) -> Option<Kind>
        ensures { result ≡ kind_of word.now }
    {
        if word.len() == 2 {
            return of_2(word);
        }
        if word.len() == 4 {
            return of_4(word);
        }
        if word.len() == 5 {
            return of_5(word);
        }
        if word.len() == 6 {
            return of_6(word);
        }
        if word.len() == 7 {
            return of_7(word);
        }
        if word.len() == 8 {
            return of_8(word);
        }
        if word.len() == 9 {
            return of_9(word);
        }
        if word.len() == 10 {
            return of_10(word);
        }
        if word.len() == 11 {
            return of_11(word);
        }
        if word.len() == 12 {
            return of_12(word);
        }
        if word.len() == 13 {
            return of_13(word);
        }
        if word.len() == 14 {
            return of_14(word);
        }
        if word.len() == 15 {
            return of_15(word);
        }
        if word.len() == 16 {
            return of_16(word);
        }
        if word.len() == 19 {
            return of_19(word);
        }
        None
    }
}
