ghost use Rattle.std.specs.Prelude.{◌≡◌, true, map, IfOk};
ghost use Rattle.serde_json.specs.View.{view, number_view, items_view, members_view};
ghost use Rattle.ob_base.specs.PlainData.{are_all};
ghost use Rattle.ob_script.specs.Forms.{is_text, is_readable, is_object, readable_prop};
ghost use Rattle.ob_script.specs.Gives.{Gives};
ghost use Rattle.ob_base.specs.Utf16.{utf16};
ghost use Rattle.ob_script.specs.Inputs.{integer_of, plain_of, plains_of, props_of, value_field, is_within_limits};
ghost use Rattle.ob_script.specs.Texts.{utf8};

use crate::ReadError;
use crate::field::bad_shape;
use crate::limits::is_within_limits;
use ob_base::{Cause, List, MAX_INTEGER, NoMemory, Plain, PlainProp, Units};
use serde_json::{Map, Number, Value};
use std::alloc::Global;

/// The UTF-16 code units of a text.
fn units_of(alloc: Global, text: &str) -> Result<Units, NoMemory>
    ensures units { IfOk result (λ units. units ≡ utf16 text.now) }
    ensures text { IfOk result (λ units. is_text units ≡ true) }
    ensures bytes { IfOk result (λ units. utf8 units ≡ text.now) }
{
    Units::from_str(alloc, text)
}

#[tactic(auto, unfolding(crate::specs::Inputs::integer_of))]
fn integer_of(number: &Number) -> Result<Plain, ReadError>
    ensures reads { Gives result (integer_of (number_view number.now)) }
    ensures readable { IfOk result (λ plain. is_readable plain ≡ true) }
{
    match number.as_i64() {
        Some(n) => {
            if n >= -MAX_INTEGER && n <= MAX_INTEGER {
                Ok(Plain::Int(n))
            } else {
                Err(ReadError::Refused(Cause::NumberRange))
            }
        }
        None => Err(ReadError::Refused(Cause::NumberRange)),
    }
}

/// The data of a value, whatever its size.
#[cycle(plain)]
#[tactic(auto, using(crate::proofs::Readable::readable_push))]
fn plain_of(alloc: Global, value: &Value) -> Result<Plain, ReadError>
    ensures reads { Gives result (plain_of (view value.now)) }
    ensures readable { IfOk result (λ plain. is_readable plain ≡ true) }
{
    match value {
        Value::Null => Ok(Plain::Null),
        Value::Bool(truth) => Ok(Plain::Bool(*truth)),
        Value::Number(number) => integer_of(number),
        Value::String(text) => Ok(Plain::Text(units_of(alloc, text.as_str())?)),
        Value::Array(items) => Ok(Plain::Array(plains_of(alloc, items)?)),
        Value::Object(members) => Ok(Plain::Object(props_of(alloc, members)?)),
    }
}

#[cycle(plain)]
#[tactic(auto, using(crate::proofs::Readable::readable_push))]
fn plains_of(alloc: Global, values: &Vec<Value>) -> Result<List<Plain>, ReadError>
    ensures reads { Gives result (plains_of (items_view values.now.items)) }
    ensures readable { IfOk result (λ items. are_all (map is_readable items) ≡ true) }
{
    let mut items = List::new(alloc);
    for value in values {
        items.push(plain_of(alloc, value)?)?;
    }
    Ok(items)
}

#[cycle(plain)]
#[tactic(auto, using(crate::proofs::Readable::readable_push))]
fn props_of(alloc: Global, members: &Map<String, Value>) -> Result<List<PlainProp>, ReadError>
    ensures reads { Gives result (props_of (members_view members.now.entries)) }
    ensures readable { IfOk result (λ props. is_object (map readable_prop props) ≡ true) }
{
    let mut props = List::new(alloc);
    for (key, member) in members.iter() {
        let value = plain_of(alloc, member)?;
        let key = units_of(alloc, key.as_str())?;
        props.push(PlainProp { key, value })?;
    }
    Ok(props)
}

/// The field `value`: plain data that is small enough.
#[tactic(auto, unfolding(crate::specs::Inputs::within_limits, crate::specs::Inputs::value_field))]
pub fn value_field(alloc: Global, value: &Value) -> Result<Plain, ReadError>
    ensures reads { Gives result (value_field (view value.now)) }
    ensures readable { IfOk result (λ plain. is_readable plain ≡ true) }
    ensures limits { IfOk result (λ plain. is_within_limits plain ≡ true) }
{
    let Some(found) = value.get("value") else {
        return bad_shape(alloc, "value");
    };
    let plain = plain_of(alloc, found)?;
    if is_within_limits(&plain) {
        Ok(plain)
    } else {
        bad_shape(alloc, "value")
    }
}
