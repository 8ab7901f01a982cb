//! What is stored, as JSON that reads back: definitions, and their theorems as the contracts of empty functions.
#![tactic(auto)]

ghost use Rattle.std.specs.Prelude.{◌≡◌};
ghost use Rattle.hir_store.specs.Stored.{SourceMap, Store};
ghost use Rattle.thm_result_json.specs.Codec.{Faithful};
ghost use Rattle.thm_result_json.specs.Exprs.{expr, label, statement};
ghost use Rattle.thm_result_json.specs.Maps.{diagnostic, source_map, store};
ghost use Rattle.thm_result_json.specs.Params.{generic_params};
ghost use Rattle.thm_result_json.specs.Paths.{generic_args, path};
ghost use Rattle.thm_result_json.specs.Pats.{binding, pat};
ghost use Rattle.thm_result_json.specs.Whole.{whole};
ghost use Rattle.thm_result_json.specs.Results.{alias, body, function, generics, impl_result, path_result, type_result};
ghost use Rattle.thm_result_json.specs.Types.{lifetime, type_ref};

/// What is written of a store and its source map reads back as these, and nests far less than JSON may.
pub fn result_reads_back()
    ensures { Faithful whole 14 }
{}

/// What is written of the result of each entry function reads back, too.
pub fn answers_read_back()
    ensures bodies { Faithful body 14 }
    ensures types { Faithful type_result 14 }
    ensures paths { Faithful path_result 14 }
    ensures generics { Faithful generics 14 }
    ensures impls { Faithful impl_result 14 }
    ensures aliases { Faithful alias 14 }
    ensures functions { Faithful function 14 }
{}

/// Two results that are written alike are one: nothing is lost of the store or the map, also not of what nothing reaches.
pub fn results_stay_apart()
    ensures { (a b : Store × SourceMap) → (whole).to a ≡ (whole).to b → a ≡ b }
{}

/// What is written of each form by itself reads back, too.
pub fn forms_read_back()
    ensures arguments { Faithful generic_args 8 }
    ensures paths { Faithful path 10 }
    ensures lifetimes { Faithful lifetime 1 }
    ensures types { Faithful type_ref 11 }
    ensures bindings { Faithful binding 1 }
    ensures patterns { Faithful pat 11 }
    ensures labels { Faithful label 1 }
    ensures statements { Faithful statement 1 }
    ensures expressions { Faithful expr 11 }
    ensures diagnostics { Faithful diagnostic 3 }
    ensures stores { Faithful store 13 }
    ensures source_maps { Faithful source_map 5 }
    ensures params { Faithful generic_params 6 }
{}
