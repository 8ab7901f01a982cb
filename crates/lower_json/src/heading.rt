//! What a document says of itself.

ghost use Rattle.std.specs.Prelude.{◌≡◌, option_map};
ghost use Rattle.serde_json.specs.View.{view};
ghost use Rattle.lower_json.specs.Documents.{owner_word, owners, owner_of, container_word, containers, container_of, skip_of, mode_of};
ghost use Rattle.json_nodes.specs.Fields.{text_in};
ghost use Rattle.json_errors.specs.ByWord.{with_word};

use hir_env::ctx::LoweringMode;
use hir_store::ids::{
    ConstId, DefWithBodyId, ExternBlockId, FunctionId, ImplId, ItemContainerId, ModuleId, StaticId,
    TraitId, VariantId,
};
use json_nodes::field::flag_in;
use serde_json::Value;

fn owner_with(word: &str) -> Option<DefWithBodyId>
    ensures { result ≡ with_word owner_word owners word.now }
{
    match word {
        "fn" => Some(DefWithBodyId::FunctionId(FunctionId(0))),
        "static" => Some(DefWithBodyId::StaticId(StaticId(0))),
        "const" => Some(DefWithBodyId::ConstId(ConstId(0))),
        "variant" => Some(DefWithBodyId::VariantId(VariantId(0))),
        _ => None,
    }
}

fn container_with(word: &str) -> Option<ItemContainerId>
    ensures { result ≡ with_word container_word containers word.now }
{
    match word {
        "module" => Some(ItemContainerId::ModuleId(ModuleId(0))),
        "extern" => Some(ItemContainerId::ExternBlockId(ExternBlockId(0))),
        "impl" => Some(ItemContainerId::ImplId(ImplId(0))),
        "trait" => Some(ItemContainerId::TraitId(TraitId(0))),
        _ => None,
    }
}

/// The word in a field, none where the field is absent or of another type.
fn word<'a>(document: &'a Value, name: &str) -> Option<&'a str>
    ensures { option_map (λ word. word.now) result ≡ text_in name.now (view document.entry.now) }
{
    document.get(name)?.as_str()
}

/// What the body belongs to, a function where the document doesn't say.
pub fn owner(document: &Value) -> DefWithBodyId
    ensures { result ≡ owner_of (view document.now) }
{
    let written = match word(document, "owner") {
        Some(word) => owner_with(word),
        None => None,
    };
    written.unwrap_or(DefWithBodyId::FunctionId(FunctionId(0)))
}

/// What the owner stands in, a module where the document doesn't say.
pub fn container(document: &Value) -> ItemContainerId
    ensures { result ≡ container_of (view document.now) }
{
    let written = match word(document, "container") {
        Some(word) => container_with(word),
        None => None,
    };
    written.unwrap_or(ItemContainerId::ModuleId(ModuleId(0)))
}

/// Whether the body is skipped, which it isn't where the document doesn't say.
pub fn skip(document: &Value) -> bool
    ensures { result ≡ skip_of (view document.now) }
{
    flag_in(document.get("skip"))
}

/// The mode that a path is lowered in: it is analysed, unless the document says otherwise.
pub fn mode(document: &Value) -> LoweringMode
    ensures { result ≡ mode_of (view document.now) }
{
    match document.get("analysis") {
        Some(Value::Bool(false)) => LoweringMode::Untracked,
        _ => LoweringMode::Analysis,
    }
}
