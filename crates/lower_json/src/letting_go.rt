//! Parts that serve nowhere.

use crate::tree::Level;
use json_nodes::code_parts::{CodePart, ExprPart};
use json_nodes::name_parts::NamePart;
use json_nodes::param_parts::{ParamPart, PatPart};
use json_nodes::part::{AnyPart, LetsGo};
use json_nodes::path_parts::PathPart;
use json_nodes::type_parts::TypePart;

impl<F> LetsGo<AnyPart> for Level<'_, '_, F> {
    fn let_go(&self, part: AnyPart) {
        match part {
            AnyPart::Expr(ExprPart::Expr(expr)) => drop(expr),
            AnyPart::Expr(ExprPart::If(expr)) => drop(expr),
            AnyPart::Expr(ExprPart::Block(block)) => drop(block),
            AnyPart::Expr(ExprPart::Literal(_, _, literal)) => drop(literal),
            AnyPart::Code(CodePart::Stmt(stmt)) => drop(stmt),
            AnyPart::Code(CodePart::LetElse(let_else)) => drop(let_else),
            AnyPart::Code(CodePart::Arm(arm)) => drop(arm),
            AnyPart::Code(CodePart::Guard(guard)) => drop(guard),
            AnyPart::Code(CodePart::RecordList(list)) => drop(list),
            AnyPart::Code(CodePart::RecordField(field)) => drop(field),
            AnyPart::Code(CodePart::MacroCall(call)) => drop(call),
            AnyPart::Code(CodePart::MacroStmts(stmts)) => drop(stmts),
            AnyPart::Pat(PatPart::Pat(pat)) => drop(pat),
            AnyPart::Pat(PatPart::PatField(field)) => drop(field),
            AnyPart::Param(ParamPart::Param(param)) => drop(param),
            AnyPart::Param(ParamPart::SelfParam(param)) => drop(param),
            AnyPart::Param(ParamPart::ParamList(params)) => drop(params),
            AnyPart::Type_(TypePart::Type_(ty)) => drop(ty),
            AnyPart::Type_(TypePart::PathType(ty)) => drop(ty),
            AnyPart::Type_(TypePart::Bound(bound)) => drop(bound),
            AnyPart::Type_(TypePart::Binder(binder)) => drop(binder),
            AnyPart::Type_(TypePart::Ret(ret)) => drop(ret),
            AnyPart::Path(PathPart::Path(path)) => drop(path),
            AnyPart::Path(PathPart::Segment(segment)) => drop(segment),
            AnyPart::Path(PathPart::GenericArgs(args)) => drop(args),
            AnyPart::Path(PathPart::TypeArg(arg)) => drop(arg),
            AnyPart::Path(PathPart::ConstArg(arg)) => drop(arg),
            AnyPart::Path(PathPart::GenericArg(arg)) => drop(arg),
            AnyPart::Path(PathPart::ParenArgs(args)) => drop(args),
            AnyPart::Name(NamePart::Label(label)) => drop(label),
            AnyPart::Name(NamePart::Lifetime(lifetime)) => drop(lifetime),
            AnyPart::Name(NamePart::Name(name)) => drop(name),
            AnyPart::Name(NamePart::Text(_, _, text)) => drop(text),
        }
    }
}
