//! The words that stored forms are printed with.

use hir_env::lang::LangItems;
use hir_store::diagnostics::{AwaitLocation, MissingBodyItemKind};
use hir_store::hir::{
    Array, BindingAnnotation, BindingProblems, CaptureBy, ClosureKind, CoroutineKind,
    CoroutineSource, Expr, LoopSource, Movability, Mutability, Pat, Rawness, Statement,
};
use hir_store::ids::LangItemId;
use hir_store::type_ref::{ExternAbi, TypeRef};
use hir_syntax::ast::{ArithOp, BinaryOp, CmpOp, LogicOp, Ordering, RangeOp, UnaryOp};

/// The bracket and the kind that an expression begins with.
pub fn expr_word(expr: &Expr) -> &'static str {
    match expr {
        Expr::Missing => "(Missing",
        Expr::Path { .. } => "(Path",
        Expr::If { .. } => "(If",
        Expr::Let { .. } => "(Let",
        Expr::Block { .. } => "(Block",
        Expr::Const(_) => "(Const",
        Expr::Loop { .. } => "(Loop",
        Expr::Call { .. } => "(Call",
        Expr::Match { .. } => "(Match",
        Expr::Continue { .. } => "(Continue",
        Expr::Break { .. } => "(Break",
        Expr::Literal(_) => "(Literal",
        Expr::MethodCall { .. } => "(MethodCall",
        Expr::Field { .. } => "(Field",
        Expr::UnaryOp { .. } => "(UnaryOp",
        Expr::BinaryOp { .. } => "(BinaryOp",
        Expr::Assignment { .. } => "(Assignment",
        Expr::Index { .. } => "(Index",
        Expr::Ref { .. } => "(Ref",
        Expr::Closure { .. } => "(Closure",
        Expr::Tuple { .. } => "(Tuple",
        Expr::Array(Array::ElementList { .. }) => "(Array",
        Expr::Array(Array::Repeat { .. }) => "(Repeat",
        Expr::Return { .. } => "(Return",
        Expr::Become { .. } => "(Become",
        Expr::Yield { .. } => "(Yield",
        Expr::Yeet { .. } => "(Yeet",
        Expr::Await { .. } => "(Await",
        Expr::Cast { .. } => "(Cast",
        Expr::RecordLit { .. } => "(RecordLit",
        Expr::OffsetOf { .. } => "(OffsetOf",
        Expr::Underscore => "(Underscore",
        Expr::IncludeBytes => "(IncludeBytes",
    }
}

/// The bracket and the kind that a pattern begins with.
pub fn pat_word(pat: &Pat) -> &'static str {
    match pat {
        Pat::Missing => "(Missing",
        Pat::Wild => "(Wild",
        Pat::Rest => "(Rest",
        Pat::NotNull => "(NotNull",
        Pat::Bind { .. } => "(Bind",
        Pat::Path { .. } => "(Path",
        Pat::TupleStruct { .. } => "(TupleStruct",
        Pat::Tuple { .. } => "(Tuple",
        Pat::Record { .. } => "(Record",
        Pat::Or(_) => "(Or",
        Pat::Slice { .. } => "(Slice",
        Pat::Ref { .. } => "(Ref",
        Pat::Box { .. } => "(Box",
        Pat::Deref { .. } => "(Deref",
        Pat::Lit(_) => "(Lit",
        Pat::Range { .. } => "(Range",
        Pat::Expr(_) => "(Expr",
    }
}

/// The bracket and the kind that a statement begins with: an expression's with a semicolon or without one.
pub fn statement_word(statement: &Statement) -> &'static str {
    match statement {
        Statement::Let { .. } => "(LetStmt",
        Statement::Expr { has_semi: true, .. } => "(Semi",
        Statement::Expr { .. } => "(Expr",
        Statement::Item => "(Item",
        Statement::MacroDef(_) => "(MacroDef",
    }
}

/// What a loop was written as.
pub fn loop_word(source: LoopSource) -> &'static str {
    match source {
        LoopSource::Loop => "loop",
        LoopSource::While => "while",
        LoopSource::ForLoop => "for",
    }
}

/// What a closure is: one that is called, a coroutine, or one that makes a coroutine.
pub fn closure_word(kind: ClosureKind) -> &'static str {
    match kind {
        ClosureKind::Closure => "closure",
        ClosureKind::OldCoroutine(Movability::Movable) => "old:movable",
        ClosureKind::OldCoroutine(Movability::Static) => "old:static",
        ClosureKind::Coroutine { kind, source } => coroutine_word(kind, source),
        ClosureKind::CoroutineClosure(CoroutineKind::Async) => "coclosure:async",
        ClosureKind::CoroutineClosure(CoroutineKind::Gen) => "coclosure:gen",
        ClosureKind::CoroutineClosure(CoroutineKind::AsyncGen) => "coclosure:asyncgen",
    }
}

fn coroutine_word(kind: CoroutineKind, source: CoroutineSource) -> &'static str {
    match (kind, source) {
        (CoroutineKind::Async, CoroutineSource::Block) => "co:async:block",
        (CoroutineKind::Async, CoroutineSource::Closure) => "co:async:closure",
        (CoroutineKind::Async, CoroutineSource::Fn) => "co:async:fn",
        (CoroutineKind::Gen, CoroutineSource::Block) => "co:gen:block",
        (CoroutineKind::Gen, CoroutineSource::Closure) => "co:gen:closure",
        (CoroutineKind::Gen, CoroutineSource::Fn) => "co:gen:fn",
        (CoroutineKind::AsyncGen, CoroutineSource::Block) => "co:asyncgen:block",
        (CoroutineKind::AsyncGen, CoroutineSource::Closure) => "co:asyncgen:closure",
        (CoroutineKind::AsyncGen, CoroutineSource::Fn) => "co:asyncgen:fn",
    }
}

/// How a closure captures.
pub fn capture_word(capture: CaptureBy) -> &'static str {
    match capture {
        CaptureBy::Ref => "ref",
        CaptureBy::Value => "move",
    }
}

/// Whether a block is unsafe.
pub fn unsafe_word(is_unsafe: bool) -> &'static str {
    if is_unsafe { "unsafe" } else { "-" }
}

/// Whether a reference is raw.
pub fn rawness_word(rawness: Rawness) -> &'static str {
    match rawness {
        Rawness::RawPtr => "raw",
        Rawness::Ref => "ref",
    }
}

/// Whether what is referred to may be changed.
pub fn mutability_word(mutability: Mutability) -> &'static str {
    match mutability {
        Mutability::Mut => "mut",
        Mutability::Shared => "shared",
    }
}

/// A unary operator, as it is written.
pub fn unary_word(op: UnaryOp) -> &'static str {
    match op {
        UnaryOp::Deref => "*",
        UnaryOp::Not => "!",
        UnaryOp::Neg => "-",
    }
}

/// An operator that is absent prints as any absent part does.
pub fn binary_word(op: Option<BinaryOp>) -> &'static str {
    match op {
        Some(BinaryOp::LogicOp(op)) => logic_word(op),
        Some(BinaryOp::CmpOp(op)) => cmp_word(op),
        Some(BinaryOp::ArithOp(op)) => arith_word(op),
        Some(BinaryOp::Assignment { op }) => assignment_word(op),
        Some(BinaryOp::Assign) => "=",
        None => "-",
    }
}

/// The operator of a range, as it is written.
pub fn range_word(op: RangeOp) -> &'static str {
    match op {
        RangeOp::Exclusive => "..",
        RangeOp::Inclusive => "..=",
    }
}

/// How a name is bound, behind it.
pub fn mode_word(mode: BindingAnnotation) -> &'static str {
    match mode {
        BindingAnnotation::Unannotated => " plain",
        BindingAnnotation::Mutable => " mut",
        BindingAnnotation::Ref => " ref",
        BindingAnnotation::RefMut => " refmut",
    }
}

/// What is wrong with a binding, behind its mode.
pub fn problem_word(problem: Option<BindingProblems>) -> &'static str {
    match problem {
        None => " -",
        Some(BindingProblems::BoundMoreThanOnce) => " more",
        Some(BindingProblems::BoundInconsistently) => " inconsistent",
        Some(BindingProblems::NotBoundAcrossAll) => " notall",
    }
}

/// The first of the language's items, in their order, that has the number.
pub fn lang_word(items: &LangItems, item: LangItemId) -> &'static str {
    let named = [
        (items.range_full, "lang:RangeFull"),
        (items.range_from, "lang:RangeFrom"),
        (items.range_from_copy, "lang:RangeFromCopy"),
        (items.range_to, "lang:RangeTo"),
        (items.range_copy, "lang:RangeCopy"),
        (items.range, "lang:Range"),
        (items.range_to_inclusive_copy, "lang:RangeToInclusiveCopy"),
        (items.range_to_inclusive, "lang:RangeToInclusive"),
        (items.range_inclusive_copy, "lang:RangeInclusiveCopy"),
        (items.range_inclusive_new, "lang:RangeInclusiveNew"),
        (items.try_trait_from_output, "lang:TryTraitFromOutput"),
        (items.try_trait_branch, "lang:TryTraitBranch"),
        (items.control_flow_continue, "lang:ControlFlowContinue"),
        (items.control_flow_break, "lang:ControlFlowBreak"),
        (items.residual_into_try_type, "lang:ResidualIntoTryType"),
        (items.try_trait_from_residual, "lang:TryTraitFromResidual"),
        (items.into_iter_into_iter, "lang:IntoIterIntoIter"),
        (items.iterator_next, "lang:IteratorNext"),
        (items.option_some, "lang:OptionSome"),
        (items.option_none, "lang:OptionNone"),
        (items.range_min, "lang:RangeMin"),
        (items.range_max, "lang:RangeMax"),
        (items.range_sub, "lang:RangeSub"),
    ];
    for (number, word) in named.as_slice() {
        if *number == Some(item) {
            return *word;
        }
    }
    "lang:?"
}

fn logic_word(op: LogicOp) -> &'static str {
    match op {
        LogicOp::Or => "||",
        LogicOp::And => "&&",
    }
}

fn cmp_word(op: CmpOp) -> &'static str {
    match op {
        CmpOp::Eq { negated: false } => "==",
        CmpOp::Eq { negated: true } => "!=",
        CmpOp::Ord { ordering, strict } => order_word(ordering, strict),
    }
}

fn order_word(ordering: Ordering, strict: bool) -> &'static str {
    match (ordering, strict) {
        (Ordering::Less, false) => "<=",
        (Ordering::Less, true) => "<",
        (Ordering::Greater, false) => ">=",
        (Ordering::Greater, true) => ">",
    }
}

fn arith_word(op: ArithOp) -> &'static str {
    match op {
        ArithOp::Add => "+",
        ArithOp::Mul => "*",
        ArithOp::Sub => "-",
        ArithOp::Div => "/",
        ArithOp::Rem => "%",
        ArithOp::Shl => "<<",
        ArithOp::Shr => ">>",
        ArithOp::BitXor => "^",
        ArithOp::BitOr => "|",
        ArithOp::BitAnd => "&",
    }
}

fn assignment_word(op: ArithOp) -> &'static str {
    match op {
        ArithOp::Add => "+=",
        ArithOp::Mul => "*=",
        ArithOp::Sub => "-=",
        ArithOp::Div => "/=",
        ArithOp::Rem => "%=",
        ArithOp::Shl => "<<=",
        ArithOp::Shr => ">>=",
        ArithOp::BitXor => "^=",
        ArithOp::BitOr => "|=",
        ArithOp::BitAnd => "&=",
    }
}

/// The line of an `await` outside of `async`, by where it stands.
pub fn await_word(location: AwaitLocation) -> &'static str {
    match location {
        AwaitLocation::NonAsyncFunction => "diag AwaitOutsideOfAsync non-async function",
        AwaitLocation::Static => "diag AwaitOutsideOfAsync static",
        AwaitLocation::Constant => "diag AwaitOutsideOfAsync constant",
        AwaitLocation::EnumVariant => "diag AwaitOutsideOfAsync enum variant",
        AwaitLocation::NonAsyncGenBlock => "diag AwaitOutsideOfAsync non-async gen block",
        AwaitLocation::ConstantBlock => "diag AwaitOutsideOfAsync constant block",
        AwaitLocation::NonAsyncClosure => "diag AwaitOutsideOfAsync non-async closure",
        AwaitLocation::Unknown => "diag AwaitOutsideOfAsync unknown",
    }
}

/// The fault of an item of this kind that has no body.
pub fn missing_body_word(kind: MissingBodyItemKind) -> &'static str {
    match kind {
        MissingBodyItemKind::Static => "diag MissingBody Static",
        MissingBodyItemKind::Const => "diag MissingBody Const",
        MissingBodyItemKind::AssocConst => "diag MissingBody AssocConst",
        MissingBodyItemKind::TypeAlias => "diag MissingBody TypeAlias",
        MissingBodyItemKind::AssocType => "diag MissingBody AssocType",
    }
}

/// The word of a type that is one.
pub fn type_word(ty: &TypeRef) -> &'static str {
    match ty {
        TypeRef::Never => "!",
        TypeRef::Placeholder => "_",
        _ => "{error}",
    }
}

/// What stands before a function pointer of the ABI.
pub fn extern_word(abi: ExternAbi) -> &'static str {
    match abi {
        ExternAbi::Rust => "",
        ExternAbi::C => "extern \"C\" ",
        ExternAbi::CUnwind => "extern \"C-unwind\" ",
        ExternAbi::System => "extern \"system\" ",
        ExternAbi::SystemUnwind => "extern \"system-unwind\" ",
        ExternAbi::Cdecl => "extern \"cdecl\" ",
        ExternAbi::Stdcall => "extern \"stdcall\" ",
        ExternAbi::Fastcall => "extern \"fastcall\" ",
        ExternAbi::Vectorcall => "extern \"vectorcall\" ",
        ExternAbi::Thiscall => "extern \"thiscall\" ",
        ExternAbi::Aapcs => "extern \"aapcs\" ",
        ExternAbi::Win64 => "extern \"win64\" ",
        ExternAbi::Sysv64 => "extern \"sysv64\" ",
        ExternAbi::Efiapi => "extern \"efiapi\" ",
        ExternAbi::RustCall => "extern \"rust-call\" ",
    }
}
