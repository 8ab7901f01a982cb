//! Theorems of the public calls of `hir_lower`, beside them: what a call takes from its environment, how long what it promised holds, and
//! that what it read is what is written. `bodies`, `types`, `collected` and `items` hand on each call, with what is promised of it said so.
#![tactic(auto)]

pub mod bodies;
pub mod collected;
pub mod items;
pub mod types;

ghost use Rattle.thm_calls.specs.AtNodes.{BodyLastsAtNodes, ConstArgLastsAtNodes, FunctionLastsAtNodes, GenericParamsLastAtNodes};
ghost use Rattle.thm_calls.specs.AtNodes.{ImplLastsAtNodes, PathLastsAtNodes, TraitLastsAtNodes, TypeAliasLastsAtNodes};
ghost use Rattle.thm_calls.specs.AtNodes.{TypeRefLastsAtNodes};
ghost use Rattle.thm_calls.specs.ByList.{BodyLastsByList, ConstArgLastsByList, FunctionLastsByList};
ghost use Rattle.thm_calls.specs.ByList.{GenericParamsLastByList, ImplLastsByList, PathLastsByList, TraitLastsByList};
ghost use Rattle.thm_calls.specs.ByList.{TypeAliasLastsByList, TypeRefLastsByList};
ghost use Rattle.thm_calls.specs.Outside.{BodyLastsOutside};
ghost use Rattle.thm_calls.specs.ByRules.{BodyByRules, ConstArgByRules, FunctionByRules, GenericParamsByRules, ImplByRules};
ghost use Rattle.thm_calls.specs.ByRules.{PathByRules, TraitByRules, TypeAliasByRules, TypeRefByRules};
ghost use Rattle.thm_calls.specs.Frames.{BodyFramed, ConstArgFramed, FunctionFramed, GenericParamsFramed, ImplFramed, PathFramed};
ghost use Rattle.thm_calls.specs.Frames.{BodyLasts, ConstArgLasts, FunctionLasts, GenericParamsLast, ImplLasts, PathLasts};
ghost use Rattle.thm_calls.specs.Frames.{TraitFramed, TraitLasts, TypeAliasFramed, TypeAliasLasts, TypeRefFramed, TypeRefLasts};

use thm_enabled::outside_lists;

/// What a call takes from its environment depends on finitely many questions: it is the same of each two environments that answer alike
/// what is asked of one of them. What is asked about nodes is about files and modules of each area that the call begins in.
pub fn calls_framed()
    ensures body { BodyFramed }
    ensures type_ref { TypeRefFramed }
    ensures const_arg { ConstArgFramed }
    ensures path { PathFramed }
    ensures generic_params { GenericParamsFramed }
    ensures impl_ { ImplFramed }
    ensures trait_ { TraitFramed }
    ensures type_alias { TypeAliasFramed }
    ensures function { FunctionFramed }
{}

/// So what a call promised of what it answered, all clauses of its contract, is so by each environment that answers alike what was asked.
pub fn results_last()
    ensures body { BodyLasts }
    ensures type_ref { TypeRefLasts }
    ensures const_arg { ConstArgLasts }
    ensures path { PathLasts }
    ensures generic_params { GenericParamsLast }
    ensures impl_ { ImplLasts }
    ensures trait_ { TraitLasts }
    ensures type_alias { TypeAliasLasts }
    ensures function { FunctionLasts }
{}

/// The list that a reader can compute is enough: who answers it alike has all so that was promised. Of a path it names what is asked for
/// its arguments, too.
pub fn results_last_by_list()
    ensures bodies { BodyLastsByList }
    ensures types { TypeRefLastsByList }
    ensures consts { ConstArgLastsByList }
    ensures paths { PathLastsByList }
    ensures generics { GenericParamsLastByList }
    ensures impls { ImplLastsByList }
    ensures traits { TraitLastsByList }
    ensures aliases { TypeAliasLastsByList }
    ensures functions { FunctionLastsByList }
{}

/// So has who answers alike what may be asked about the nodes of what a call is handed, of a body with those of its parameters, and of what
/// their calls stand for, and what of the list is about no node and asked in no module.
pub fn results_last_at_nodes()
    ensures bodies { BodyLastsAtNodes }
    ensures types { TypeRefLastsAtNodes }
    ensures consts { ConstArgLastsAtNodes }
    ensures paths { PathLastsAtNodes }
    ensures generics { GenericParamsLastAtNodes }
    ensures impls { ImplLastsAtNodes }
    ensures traits { TraitLastsAtNodes }
    ensures aliases { TypeAliasLastsAtNodes }
    ensures functions { FunctionLastsAtNodes }
{
    results_last_by_list();
}

/// So has who answers alike what is asked of a body and its parameters outside of what a condition disables: of what the steps of lowering
/// leave by the one environment (clause `lowered` of `bodies::lower_body`) all is promised by the other one.
pub fn results_last_outside()
    ensures { BodyLastsOutside }
{
    outside_lists();
}

/// What a call reads is what the rules of reading allow of what it is handed, and they allow nothing else.
pub fn calls_by_rules()
    ensures body { BodyByRules }
    ensures type_ref { TypeRefByRules }
    ensures const_arg { ConstArgByRules }
    ensures path { PathByRules }
    ensures generic_params { GenericParamsByRules }
    ensures impl_ { ImplByRules }
    ensures trait_ { TraitByRules }
    ensures type_alias { TypeAliasByRules }
    ensures function { FunctionByRules }
{}
