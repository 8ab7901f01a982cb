//! The types of a function, with its generic parameters.

use super::pats::type_or_absent;
use super::printer::Printer;
use super::waiting::Piece;
use hir_store::generics::{
    GenericParams, LifetimeBoundType, TypeOrConstParamData, TypeParamData, TypeParamProvenance,
    WherePredicate,
};
use hir_store::ids::{TypeParamId, TypeRefId};
use hir_store::name::Name;

/// What is listed of a function.
#[derive(Clone, Copy)]
pub struct Signature<'a> {
    pub params: &'a GenericParams,
    pub args: &'a [TypeRefId],
    pub ret: Option<TypeRefId>,
    pub has_self: bool,
    pub has_variadic: bool,
}

/// What stands behind the name of a lifetime parameter.
fn kind_word(kind: LifetimeBoundType) -> &'static str {
    match kind {
        LifetimeBoundType::EarlyBound => " early\n",
        LifetimeBoundType::LateBound => " late\n",
    }
}

/// What stands behind the name of a type parameter.
fn provenance_word(provenance: TypeParamProvenance) -> &'static str {
    match provenance {
        TypeParamProvenance::TypeParamList | TypeParamProvenance::TraitSelf => " list",
        TypeParamProvenance::ArgumentImplTrait => " impl",
    }
}

impl<'a> Printer<'a> {
    /// Prints the lines of a function.
    pub fn signature(&mut self, shown: Signature<'a>) {
        self.lifetime_params(shown.params);
        self.type_params(shown.params);
        self.predicates(shown.params);
        if shown.has_self {
            self.writer.word("self\n");
        }
        self.arguments(shown.args);
        if shown.has_variadic {
            self.writer.word("variadic\n");
        }
        self.writer.word("ret ");
        self.line(type_or_absent(shown.ret))
    }

    fn lifetime_params(&mut self, params: &'a GenericParams) {
        for param in params.lifetimes() {
            self.writer.named("lifetime ", &param.name);
            self.writer.word(kind_word(param.bound_type));
        }
    }

    fn type_params(&mut self, params: &'a GenericParams) {
        for (number, param) in params.type_or_consts().iter().enumerate() {
            self.param(number, param);
        }
    }

    fn predicates(&mut self, params: &'a GenericParams) {
        for predicate in params.where_predicates() {
            self.predicate(predicate);
        }
    }

    fn arguments(&mut self, args: &'a [TypeRefId]) {
        for arg in args {
            self.writer.word("arg ");
            self.line(Piece::Type_(*arg));
        }
    }

    /// Prints the line of the parameter of a number.
    fn param(&mut self, number: usize, param: &'a TypeOrConstParamData) {
        match param {
            TypeOrConstParamData::TypeParamData(param) => {
                self.writer.numbered("type ", number);
                self.type_param_line(param)
            }
            TypeOrConstParamData::ConstParamData(param) => {
                self.writer.numbered("const ", number);
                self.writer.named(" ", &param.name);
                self.writer.word(" ");
                self.whole(Piece::Type_(param.ty));
                match param.default {
                    Some(constant) => self.default(Piece::Expr(constant.expr)),
                    None => self.writer.word("\n"),
                }
            }
        }
    }

    /// Prints what stands behind the number of a type parameter.
    fn type_param_line(&mut self, param: &'a TypeParamData) {
        match &param.name {
            Some(name) => self.writer.named(" ", name),
            None => self.writer.word(" -"),
        }
        self.writer.word(provenance_word(param.provenance));
        match param.default {
            Some(ty) => self.default(Piece::Type_(ty)),
            None => self.writer.word("\n"),
        }
    }

    /// Prints a default, and ends the line.
    fn default(&mut self, piece: Piece<'a>) {
        self.writer.word(" = ");
        self.line(piece)
    }

    /// Prints the line of a predicate.
    fn predicate(&mut self, predicate: &'a WherePredicate) {
        self.writer.word("where ");
        match predicate {
            WherePredicate::TypeBound {
                lifetimes,
                target,
                bound,
            } => {
                if let Some(names) = lifetimes {
                    self.writer.binder(names.as_slice());
                }
                self.asked(Piece::Type_(*target), Piece::Bound(bound))
            }
            WherePredicate::Lifetime { target, bound } => {
                self.asked(Piece::Lifetime(*target), Piece::Lifetime(*bound))
            }
        }
    }

    /// Prints what a predicate is of, and what is asked of it.
    fn asked(&mut self, target: Piece<'a>, bound: Piece<'a>) {
        self.whole(target);
        self.writer.word(": ");
        self.line(bound)
    }

    /// The name of a parameter of the item that is listed.
    fn param_name(&self, id: TypeParamId) -> Option<&'a Name> {
        self.listed.params?.type_or_const(id.local_id)?.name()
    }

    /// Prints the name of a type parameter, and the number of one that has none, as one that an `impl` became.
    pub fn type_param(&mut self, id: TypeParamId) {
        match self.param_name(id) {
            Some(name) => self.writer.name(name),
            None => {
                self.writer.numbered("Param[", id.local_id.0);
                self.writer.word("]")
            }
        }
    }
}
