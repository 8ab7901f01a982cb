//! Numbers that are no whole ones of 64 bits.

ghost use Rattle.std.specs.Prelude.{◌≡◌, false};
ghost use Rattle.serde_json.specs.View.{view, items_view, members_view};
ghost use Rattle.serde_json.specs.Written as written;
ghost use Rattle.json_errors.specs.Floats as spec;

use serde_json::{Map, Value};

/// Whether a number anywhere in the value is no whole one of 64 bits.
#[cycle(floats)]
pub fn has_float(value: &Value) -> bool
    ensures { result ≡ written.has_float (view value.now) }
{
    match value {
        Value::Array(items) => items_have_float(items),
        Value::Object(members) => members_have_float(members),
        _ => value.is_f64(),
    }
}

#[cycle(floats)]
fn items_have_float(items: &Vec<Value>) -> bool
    ensures { result ≡ written.items_have_float (items_view items.now.items) }
{
    for item in items {
        if has_float(item) {
            return true;
        }
    }
    false
}

#[cycle(floats)]
fn members_have_float(members: &Map<String, Value>) -> bool
    ensures { result ≡ written.members_have_float (members_view members.now.entries) }
{
    for (_key, member) in members.iter() {
        if has_float(member) {
            return true;
        }
    }
    false
}

/// Whether there is one in a member, other than in the first of that name.
fn others_have_float(name: &str, members: &Map<String, Value>) -> bool
    ensures { result ≡ spec.others_have_float name.now false (members_view members.now.entries) }
{
    let mut met = false;
    for (key, member) in members.iter() {
        if !met && name == key.as_str() {
            met = true;
        } else if has_float(member) {
            return true;
        }
    }
    false
}

/// Whether there is one in the value, other than in its first member of that name.
pub fn has_float_beside(name: &str, value: &Value) -> bool
    ensures { result ≡ spec.has_float_beside name.now (view value.now) }
{
    match value {
        Value::Object(members) => others_have_float(name, members),
        _ => has_float(value),
    }
}
