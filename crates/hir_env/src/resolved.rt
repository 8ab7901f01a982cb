//! What a path stands for.

pub use hir_store::ids::TypeAliasId;

/// What comes before what where the language itself has a type of a name.
#[derive(Clone, Copy, PartialEq, Eq)]
pub enum BuiltinShadowMode {
    /// The language's own types before modules.
    Other,
    /// The same, and nothing of the modules around a block.
    Local,
    /// Modules before the language's own types.
    Module,
}

/// What a path may stand for.
#[derive(Clone, Copy, PartialEq, Eq)]
pub enum Resolution {
    Module,
    Function,
    Struct,
    Union,
    Enum,
    Variant,
    Const,
    Static,
    Trait,
    BuiltinType,
    TypeAlias(TypeAliasId),
}

/// What a path stands for as a type and as a value. Where only the segments in front stand for something, `rest` is the
/// place of the first of the others.
#[derive(Clone, Copy, PartialEq, Eq)]
pub struct Resolved {
    pub types: Option<Resolution>,
    pub values: Option<Resolution>,
    pub rest: Option<u32>,
}
