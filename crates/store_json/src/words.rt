//! What has no parts is a word.

ghost use Rattle.std.specs.Prelude.{◌≡◌, codes};
ghost use Rattle.thm_result_json.specs.Words as words;

use crate::form::ToJson;
use hir_base::op::{LiteralKind, RangeOp, UnaryOp};
use hir_binding::binding::{BindingAnnotation, BindingProblems};
use hir_store::diagnostics::{AwaitLocation, MissingBodyItemKind};
use hir_store::generics::{LifetimeBoundType, TypeParamProvenance};
use hir_store::hir::{CaptureBy, LoopSource, Mutability, Rawness};
use hir_store::path::GenericArgsParentheses;
use hir_store::type_ref::{ExternAbi, TraitBoundModifier};
use json::Writer;
use std::alloc::AllocError;

/// The word of how a name is bound.
fn mode_word(value: BindingAnnotation) -> &'static str
    ensures { result.now ≡ codes (words.mode_word value) }
{
    match value {
        BindingAnnotation::Unannotated => "plain",
        BindingAnnotation::Mutable => "mut",
        BindingAnnotation::Ref => "ref",
        BindingAnnotation::RefMut => "refmut",
    }
}

impl ToJson for BindingAnnotation {
    ghost codec = { words.mode };

    fn write(&self, out: &mut Writer) -> Result<(), AllocError> {
        out.string(mode_word(*self))
    }
}

/// The word of what is wrong with a binding.
fn problem_word(value: BindingProblems) -> &'static str
    ensures { result.now ≡ codes (words.problem_word value) }
{
    match value {
        BindingProblems::BoundMoreThanOnce => "more",
        BindingProblems::BoundInconsistently => "inconsistent",
        BindingProblems::NotBoundAcrossAll => "notall",
    }
}

impl ToJson for BindingProblems {
    ghost codec = { words.problem };

    fn write(&self, out: &mut Writer) -> Result<(), AllocError> {
        out.string(problem_word(*self))
    }
}

/// The word of the kind of a literal.
fn literal_kind_word(value: LiteralKind) -> &'static str
    ensures { result.now ≡ codes (words.literal_kind_word value) }
{
    match value {
        LiteralKind::Str => "Str",
        LiteralKind::ByteStr => "ByteStr",
        LiteralKind::CStr => "CStr",
        LiteralKind::Char => "Char",
        LiteralKind::Bool => "Bool",
        LiteralKind::Int => "Int",
        LiteralKind::Float => "Float",
    }
}

impl ToJson for LiteralKind {
    ghost codec = { words.literal_kind };

    fn write(&self, out: &mut Writer) -> Result<(), AllocError> {
        out.string(literal_kind_word(*self))
    }
}

/// The word of an operator of one operand.
fn unary_op_word(value: UnaryOp) -> &'static str
    ensures { result.now ≡ codes (words.unary_op_word value) }
{
    match value {
        UnaryOp::Deref => "*",
        UnaryOp::Not => "!",
        UnaryOp::Neg => "-",
    }
}

impl ToJson for UnaryOp {
    ghost codec = { words.unary_op };

    fn write(&self, out: &mut Writer) -> Result<(), AllocError> {
        out.string(unary_op_word(*self))
    }
}

/// The word of an operator of a range.
fn range_op_word(value: RangeOp) -> &'static str
    ensures { result.now ≡ codes (words.range_op_word value) }
{
    match value {
        RangeOp::Exclusive => "..",
        RangeOp::Inclusive => "..=",
    }
}

impl ToJson for RangeOp {
    ghost codec = { words.range_op };

    fn write(&self, out: &mut Writer) -> Result<(), AllocError> {
        out.string(range_op_word(*self))
    }
}

/// The word of what a reference allows.
fn mutability_word(value: Mutability) -> &'static str
    ensures { result.now ≡ codes (words.mutability_word value) }
{
    match value {
        Mutability::Shared => "shared",
        Mutability::Mut => "mut",
    }
}

impl ToJson for Mutability {
    ghost codec = { words.mutability };

    fn write(&self, out: &mut Writer) -> Result<(), AllocError> {
        out.string(mutability_word(*self))
    }
}

/// The word of what a reference expression makes.
fn rawness_word(value: Rawness) -> &'static str
    ensures { result.now ≡ codes (words.rawness_word value) }
{
    match value {
        Rawness::RawPtr => "raw",
        Rawness::Ref => "ref",
    }
}

impl ToJson for Rawness {
    ghost codec = { words.rawness };

    fn write(&self, out: &mut Writer) -> Result<(), AllocError> {
        out.string(rawness_word(*self))
    }
}

/// The word of what a loop was written as.
fn loop_source_word(value: LoopSource) -> &'static str
    ensures { result.now ≡ codes (words.loop_source_word value) }
{
    match value {
        LoopSource::Loop => "loop",
        LoopSource::While => "while",
        LoopSource::ForLoop => "for",
    }
}

impl ToJson for LoopSource {
    ghost codec = { words.loop_source };

    fn write(&self, out: &mut Writer) -> Result<(), AllocError> {
        out.string(loop_source_word(*self))
    }
}

/// The word of how a closure captures.
fn capture_word(value: CaptureBy) -> &'static str
    ensures { result.now ≡ codes (words.capture_word value) }
{
    match value {
        CaptureBy::Value => "move",
        CaptureBy::Ref => "ref",
    }
}

impl ToJson for CaptureBy {
    ghost codec = { words.capture };

    fn write(&self, out: &mut Writer) -> Result<(), AllocError> {
        out.string(capture_word(*self))
    }
}

/// The word of the mark of a bound.
fn modifier_word(value: TraitBoundModifier) -> &'static str
    ensures { result.now ≡ codes (words.modifier_word value) }
{
    match value {
        TraitBoundModifier::None => "None",
        TraitBoundModifier::Maybe => "Maybe",
    }
}

impl ToJson for TraitBoundModifier {
    ghost codec = { words.modifier };

    fn write(&self, out: &mut Writer) -> Result<(), AllocError> {
        out.string(modifier_word(*self))
    }
}

/// The word of an ABI.
fn abi_word(value: ExternAbi) -> &'static str
    ensures { result.now ≡ codes (words.abi_word value) }
{
    match value {
        ExternAbi::Rust => "Rust",
        ExternAbi::C => "C",
        ExternAbi::CUnwind => "C-unwind",
        ExternAbi::System => "system",
        ExternAbi::SystemUnwind => "system-unwind",
        ExternAbi::Cdecl => "cdecl",
        ExternAbi::Stdcall => "stdcall",
        ExternAbi::Fastcall => "fastcall",
        ExternAbi::Vectorcall => "vectorcall",
        ExternAbi::Thiscall => "thiscall",
        ExternAbi::Aapcs => "aapcs",
        ExternAbi::Win64 => "win64",
        ExternAbi::Sysv64 => "sysv64",
        ExternAbi::Efiapi => "efiapi",
        ExternAbi::RustCall => "rust-call",
    }
}

impl ToJson for ExternAbi {
    ghost codec = { words.abi };

    fn write(&self, out: &mut Writer) -> Result<(), AllocError> {
        out.string(abi_word(*self))
    }
}

/// The word of how arguments were written.
fn parentheses_word(value: GenericArgsParentheses) -> &'static str
    ensures { result.now ≡ codes (words.parentheses_word value) }
{
    match value {
        GenericArgsParentheses::No => "No",
        GenericArgsParentheses::ReturnTypeNotation => "ReturnTypeNotation",
        GenericArgsParentheses::ParenSugar => "ParenSugar",
    }
}

impl ToJson for GenericArgsParentheses {
    ghost codec = { words.parentheses };

    fn write(&self, out: &mut Writer) -> Result<(), AllocError> {
        out.string(parentheses_word(*self))
    }
}

/// The word of where a type parameter comes from.
fn provenance_word(value: TypeParamProvenance) -> &'static str
    ensures { result.now ≡ codes (words.provenance_word value) }
{
    match value {
        TypeParamProvenance::TypeParamList => "TypeParamList",
        TypeParamProvenance::TraitSelf => "TraitSelf",
        TypeParamProvenance::ArgumentImplTrait => "ArgumentImplTrait",
    }
}

impl ToJson for TypeParamProvenance {
    ghost codec = { words.provenance };

    fn write(&self, out: &mut Writer) -> Result<(), AllocError> {
        out.string(provenance_word(*self))
    }
}

/// The word of when a lifetime is bound.
fn bound_type_word(value: LifetimeBoundType) -> &'static str
    ensures { result.now ≡ codes (words.bound_type_word value) }
{
    match value {
        LifetimeBoundType::EarlyBound => "EarlyBound",
        LifetimeBoundType::LateBound => "LateBound",
    }
}

impl ToJson for LifetimeBoundType {
    ghost codec = { words.bound_type };

    fn write(&self, out: &mut Writer) -> Result<(), AllocError> {
        out.string(bound_type_word(*self))
    }
}

/// The word of where an `await` stands.
fn await_location_word(value: AwaitLocation) -> &'static str
    ensures { result.now ≡ codes (words.await_location_word value) }
{
    match value {
        AwaitLocation::NonAsyncFunction => "non-async function",
        AwaitLocation::Static => "static",
        AwaitLocation::Constant => "constant",
        AwaitLocation::EnumVariant => "enum variant",
        AwaitLocation::NonAsyncGenBlock => "non-async gen block",
        AwaitLocation::ConstantBlock => "constant block",
        AwaitLocation::NonAsyncClosure => "non-async closure",
        AwaitLocation::Unknown => "unknown",
    }
}

impl ToJson for AwaitLocation {
    ghost codec = { words.await_location };

    fn write(&self, out: &mut Writer) -> Result<(), AllocError> {
        out.string(await_location_word(*self))
    }
}

/// The word of the kind of an item without a body.
fn missing_body_word(value: MissingBodyItemKind) -> &'static str
    ensures { result.now ≡ codes (words.missing_body_word value) }
{
    match value {
        MissingBodyItemKind::Static => "Static",
        MissingBodyItemKind::Const => "Const",
        MissingBodyItemKind::AssocConst => "AssocConst",
        MissingBodyItemKind::TypeAlias => "TypeAlias",
        MissingBodyItemKind::AssocType => "AssocType",
    }
}

impl ToJson for MissingBodyItemKind {
    ghost codec = { words.missing_body };

    fn write(&self, out: &mut Writer) -> Result<(), AllocError> {
        out.string(missing_body_word(*self))
    }
}
