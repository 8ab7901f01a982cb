//! Parameters of functions.

use crate::ast::{Lifetime, Name};
use crate::types::{Param, Type_};
use hir_base::node::{NodeId, TextRange};
use hir_base::{Boxed, Seq};

/// A `self` among the parameters.
#[derive(Drop)]
pub struct SelfParam {
    pub id: NodeId,
    pub range: TextRange,
    pub name: Option<Name>,
    /// Whether `&` stands in front of it.
    pub ref_: bool,
    pub mut_: bool,
    pub lifetime: Option<Lifetime>,
    pub ty: Option<Boxed<Type_>>,
}

/// The parameters of a function.
#[derive(Drop)]
pub struct ParamList {
    pub id: NodeId,
    pub range: TextRange,
    pub self_: Option<SelfParam>,
    pub params: Seq<Param>,
}
