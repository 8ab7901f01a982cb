//! All that a document is lowered to, as JSON.

ghost use Rattle.std.specs.Prelude.{◌≡◌, IfOk, string_bytes};
ghost use Rattle.serde_json.specs.Written.{compact_text};
ghost use Rattle.lower_c.specs.Results.{result_data};

use lower_run::results::LoweringResult;
use std::alloc::{AllocError, Global};
use store_json::{body_to_json, function_to_json, path_to_json, type_to_json};

pub fn result_json(alloc: Global, lowered: &LoweringResult) -> Result<String, AllocError>
    ensures { IfOk result (λ s. string_bytes s ≡ compact_text (result_data lowered.now)) }
{
    match lowered {
        LoweringResult::Body(it) => body_to_json(
            alloc,
            &it.body.store,
            &it.source_map.store,
            &it.body.params,
            &it.body.self_param,
            &it.source_map.self_param,
        ),
        LoweringResult::Path(it) => path_to_json(alloc, &it.store, &it.source_map, &it.path),
        LoweringResult::Type_(it) => type_to_json(alloc, &it.store, &it.source_map, it.type_ref),
        LoweringResult::Function(it) => function_to_json(
            alloc,
            &it.store,
            &it.source_map,
            &it.generic_params,
            &it.args,
            it.ret,
            it.has_self,
            it.has_variadic,
        ),
    }
}
