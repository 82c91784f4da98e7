ghost use Rattle.std.specs.Prelude.{◌≡◌, true, IfOk, codes};
ghost use Rattle.serde_json.specs.Find.{as_str, as_array};
ghost use Rattle.serde_json.specs.View.{view, items_view};
ghost use Rattle.ob_base.specs.declared.cause.Cause.TheVariants.{BadShape as bad_shape_of};
ghost use Rattle.ob_script.specs.Fields.{field, notebook_id, cell_id, version_one, place_field};
ghost use Rattle.ob_script.specs.Forms.{is_place};
ghost use Rattle.ob_script.specs.Gives.{Gives, GivesSeen};
ghost use Rattle.ob_script.specs.Ids.{is_cell_id, is_notebook_id};

use crate::ReadError;
use crate::id::{is_cell_id, is_notebook_id};
use crate::json::{items_at, text_at};
use ob_base::{Cause, NoMemory, Text};
use serde_json::Value;
use std::alloc::Global;

fn text_of(alloc: Global, text: &str) -> Result<Text, NoMemory>
    ensures { IfOk result (λ copy. copy ≡ text.now) }
{
    Ok(Text::from_string(String::from_str(alloc, text)?))
}

/// The fault that a field breaks its form.
pub fn bad_shape<T>(alloc: Global, key: &str) -> Result<T, ReadError>
    ensures { Gives result (Err (bad_shape_of key.now)) }
{
    Err(ReadError::Refused(Cause::BadShape(text_of(alloc, key)?)))
}

/// A field that is a text.
pub fn text_field(alloc: Global, value: &Value, key: &str) -> Result<Text, ReadError>
    ensures { Gives result (field as_str key.now (view value.now)) }
{
    match text_at(value, key) {
        Some(text) => Ok(text_of(alloc, text)?),
        None => bad_shape(alloc, key),
    }
}

/// A field that is a notebook's id.
pub fn notebook_field(alloc: Global, value: &Value, key: &str) -> Result<Text, ReadError>
    ensures reads { Gives result (field notebook_id key.now (view value.now)) }
    ensures form { IfOk result (λ text. is_notebook_id text ≡ true) }
{
    match text_at(value, key) {
        Some(text) => {
            if is_notebook_id(text) {
                Ok(text_of(alloc, text)?)
            } else {
                bad_shape(alloc, key)
            }
        }
        None => bad_shape(alloc, key),
    }
}

/// A field that is a cell's id.
pub fn cell_field(alloc: Global, value: &Value, key: &str) -> Result<Text, ReadError>
    ensures reads { Gives result (field cell_id key.now (view value.now)) }
    ensures form { IfOk result (λ text. is_cell_id text ≡ true) }
{
    match text_at(value, key) {
        Some(text) => {
            if is_cell_id(text) {
                Ok(text_of(alloc, text)?)
            } else {
                bad_shape(alloc, key)
            }
        }
        None => bad_shape(alloc, key),
    }
}

/// A field that is an array: its items.
pub fn items_field<'a>(alloc: Global, value: &'a Value, key: &str) -> Result<&'a [Value], ReadError>
    ensures { GivesSeen (λ items. items_view items.now) result (field as_array key.now (view value.now)) }
{
    match items_at(value, key) {
        Some(items) => Ok(items),
        None => bad_shape(alloc, key),
    }
}

/// The field `version`, which is the whole number 1.
pub fn version_field(alloc: Global, value: &Value) -> Result<u64, ReadError>
    ensures { Gives result (field version_one (codes "version") (view value.now)) }
{
    match value.get("version") {
        Some(found) => match found.as_u64() {
            Some(version) => {
                if version == 1 {
                    Ok(version)
                } else {
                    bad_shape(alloc, "version")
                }
            }
            None => bad_shape(alloc, "version"),
        },
        None => bad_shape(alloc, "version"),
    }
}

/// The field `place`, which may be missing, else a whole number below 2^32.
pub fn place_field(alloc: Global, value: &Value) -> Result<Option<u32>, ReadError>
    ensures reads { Gives result (place_field (view value.now)) }
    ensures form { IfOk result (λ place. is_place place ≡ true) }
{
    match value.get("place") {
        Some(found) => match found.as_u64() {
            Some(place) => {
                if place < 4_294_967_296 {
                    Ok(Some(place as u32))
                } else {
                    bad_shape(alloc, "place")
                }
            }
            None => bad_shape(alloc, "place"),
        },
        None => Ok(None),
    }
}
