ghost use Rattle.std.specs.Prelude.{◌≡◌, IfOk, Some, None, option_map, option_and_then};
ghost use Rattle.serde_json.specs.Find.{get, as_str, as_array};
ghost use Rattle.serde_json.specs.View.{view, items_view};
ghost use Rattle.ob_script.specs.Json.{json_of};

use serde_json::Value;
use std::alloc::Global;

/// Why a line gave no JSON value.
#[derive(Clone, Copy, Debug, PartialEq, Eq)]
pub enum JsonFault {
    NotJson,
    NoMemory,
}

/// The JSON value of a line.
///
/// # Errors
/// `NotJson` where the line has no reading; `NoMemory` where an allocation is refused.
pub fn read_json(alloc: Global, line: &[u8]) -> Result<Value, JsonFault>
    ensures value { IfOk result (λ v. json_of line.now ≡ Some (view v)) }
    ensures not_json { result ≡ Err JsonFault.NotJson → json_of line.now ≡ None }
{
    match std::str::from_utf8(line) {
        Ok(text) => match Value::from_str(alloc, text) {
            Ok(value) => Ok(value),
            Err(error) => {
                if error.is_memory() {
                    Err(JsonFault::NoMemory)
                } else {
                    Err(JsonFault::NotJson)
                }
            }
        },
        Err(_) => Err(JsonFault::NotJson),
    }
}

/// The text of a field.
pub fn text_at<'a>(value: &'a Value, key: &str) -> Option<&'a str>
    ensures { option_map (λ s. s.now) result ≡ option_and_then as_str (get key.now (view value.now)) }
{
    match value.get(key) {
        Some(found) => found.as_str(),
        None => None,
    }
}

/// The items of a field.
pub fn items_at<'a>(value: &'a Value, key: &str) -> Option<&'a [Value]>
    ensures { option_map (λ v. items_view v.now) result ≡ option_and_then as_array (get key.now (view value.now)) }
{
    match value.get(key) {
        Some(found) => match found.as_array() {
            Some(items) => Some(items.as_slice()),
            None => None,
        },
        None => None,
    }
}
