//! Plain data, built from a value that is known to unfold to few elements.
ghost use Rattle.std.specs.Prelude.{◌≡◌, IfOk};
ghost use Rattle.ob_values.specs.PlainOf.{all_some, short, plain_prop, plain_body, plain_value, plain_leaf, plain_from, plain_at};

use crate::regions::Regions;
use ob_base::{List, MAX_INTEGER, MAX_TEXT_UNITS, NoMemory, Plain, PlainProp, Units};
use ob_items::{Body, Property, Value};
use std::alloc::Global;

// The plain data of a value, where at most `depth` arrays and objects may stand in one another.
#[cycle(plain)]
pub(super) fn plain_value(
    alloc: Global,
    regions: &Regions,
    value: Value,
    depth: u32,
) -> Result<Option<Plain>, NoMemory>
    ensures { IfOk result (λ plain. plain ≡ plain_value (plain_at depth regions.now) value) }
{
    match value {
        Value::Undefined => Ok(Some(Plain::Undefined)),
        Value::Null => Ok(Some(Plain::Null)),
        Value::Bool(flag) => Ok(Some(Plain::Bool(flag))),
        Value::Int(number) => Ok(plain_number(number)),
        Value::Builtin(_) | Value::Holder(_) => Ok(None),
        Value::Ref(r) => match regions.find(r) {
            Some(body) => plain_from(alloc, regions, body, depth),
            None => Ok(None),
        },
    }
}

fn plain_number(number: i64) -> Option<Plain>
    ensures { result ≡ plain_value (λ _. None) (Value.Int number) }
{
    if number >= -MAX_INTEGER && number <= MAX_INTEGER {
        Some(Plain::Int(number))
    } else {
        None
    }
}

#[cycle(plain)]
fn plain_from(
    alloc: Global,
    regions: &Regions,
    body: &Body,
    depth: u32,
) -> Result<Option<Plain>, NoMemory>
    ensures { IfOk result (λ plain. plain ≡ plain_from depth regions.now body.now) }
{
    if depth == 0 {
        plain_leaf(alloc, body)
    } else {
        plain_body(alloc, regions, body, depth - 1)
    }
}

fn plain_leaf(alloc: Global, body: &Body) -> Result<Option<Plain>, NoMemory>
    ensures { IfOk result (λ plain. plain ≡ plain_leaf body.now) }
{
    match body {
        Body::Text(units) => plain_text(alloc, units),
        _ => Ok(None),
    }
}

fn plain_text(alloc: Global, units: &Units) -> Result<Option<Plain>, NoMemory>
    ensures { IfOk result (λ plain. plain ≡ plain_leaf (Body.Text units.now)) }
{
    if units.as_slice().len() > MAX_TEXT_UNITS {
        return Ok(None);
    }
    Ok(Some(Plain::Text(units.copy(alloc)?)))
}

#[cycle(plain)]
fn plain_body(
    alloc: Global,
    regions: &Regions,
    body: &Body,
    depth: u32,
) -> Result<Option<Plain>, NoMemory>
    ensures { IfOk result (λ plain. plain ≡ plain_body (plain_value (plain_at depth regions.now)) body.now) }
{
    match body {
        Body::Text(units) => plain_text(alloc, units),
        Body::Array(values) => match plain_values(alloc, regions, values.as_slice(), depth)? {
            Some(plains) => Ok(Some(Plain::Array(plains))),
            None => Ok(None),
        },
        Body::Object(properties) => {
            let entries = properties.entries(alloc)?;
            match plain_props(alloc, regions, entries, depth)? {
                Some(props) => Ok(Some(Plain::Object(props))),
                None => Ok(None),
            }
        }
        _ => Ok(None),
    }
}

#[cycle(plain)]
fn plain_values(
    alloc: Global,
    regions: &Regions,
    values: &[Value],
    depth: u32,
) -> Result<Option<List<Plain>>, NoMemory>
    ensures { IfOk result (λ plains. plains ≡ all_some (plain_value (plain_at depth regions.now)) values.now) }
{
    let mut plains = List::new(alloc);
    for value in values {
        match plain_value(alloc, regions, *value, depth)? {
            Some(plain) => plains.push(plain)?,
            None => return Ok(None),
        }
    }
    Ok(Some(plains))
}

#[cycle(plain)]
fn plain_props(
    alloc: Global,
    regions: &Regions,
    entries: List<Property>,
    depth: u32,
) -> Result<Option<List<PlainProp>>, NoMemory>
    ensures { IfOk result (λ props. props ≡ all_some (plain_prop (plain_value (plain_at depth regions.now))) entries) }
{
    let mut props = List::new(alloc);
    for property in entries.into_vec() {
        match plain_prop(alloc, regions, property, depth)? {
            Some(prop) => props.push(prop)?,
            None => return Ok(None),
        }
    }
    Ok(Some(props))
}

#[cycle(plain)]
fn plain_prop(
    alloc: Global,
    regions: &Regions,
    property: Property,
    depth: u32,
) -> Result<Option<PlainProp>, NoMemory>
    ensures { IfOk result (λ prop. prop ≡ plain_prop (plain_value (plain_at depth regions.now)) property) }
{
    let Property { key, value } = property;
    if key.as_slice().len() > MAX_TEXT_UNITS {
        return Ok(None);
    }
    match plain_value(alloc, regions, value, depth)? {
        Some(value) => Ok(Some(PlainProp { key, value })),
        None => Ok(None),
    }
}
