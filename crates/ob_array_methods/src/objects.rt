//! The functions of `Object`.
ghost use Rattle.std.specs.Prelude.{◌≡◌, ◌≢◌, ◌∷◌, [], Err, IfOk, OnOk, OnErr, length, is_some, option_map};
ghost use Rattle.std.specs.Option.{option_copied};
ghost use Rattle.ob_items.specs.Properties.{property};
ghost use Rattle.ob_values.specs.Effects.{Answers, Leaves, answer_of};
ghost use Rattle.ob_values.specs.Fixed.{KeepsFixed};
ghost use Rattle.ob_values.specs.ObjectFunctions.{object_in, key_in, object_keys, object_values, has_own, literals, with_literals};
ghost use Rattle.ob_values.specs.Operators.{AddsValue, text_in};
ghost use Rattle.ob_values.specs.Sound.{AddsValues, pointers_of};
ghost use Rattle.ob_values.specs.Store.{IsOpen, elements_in};

use crate::making::give_array;
use ob_base::{List, NoMemory, Units};
use ob_items::{Properties, integer_units};
use ob_values::{Body, Done, OpError, RegionKey, Regions, Thrown, Value, argument};
use std::alloc::Global;

/// The properties of a value that is an object.
pub fn object_of(regions: &Regions, value: Value) -> Option<&Properties>
    ensures { option_copied result ≡ object_in regions.now value }
{
    match value {
        Value::Ref(r) => match regions.find(r) {
            Some(body) => match body {
                Body::Object(properties) => Some(properties),
                _ => None,
            },
            None => None,
        },
        _ => None,
    }
}

/// The values of an object's properties in the order of their keys, as a new array (ECMA-262,
/// "Object.values", in this project's profile).
///
/// # Errors
/// In this order: `Throws` with `BadArgument` where the first argument is no object, `HeapFull` where
/// the region would have more than 50,000 elements, `StepsOut` where those of the array are more than
/// `left`; `NoMemory` where an allocation is refused. All is then as before.
pub fn values(
    alloc: Global,
    regions: &mut Regions,
    region: RegionKey,
    args: &[Value],
    left: u64,
) -> Result<Done, OpError>
    requires { IsOpen regions.old region }
    ensures answer { Answers result (answer_of regions.old left (object_values regions.old region args.now)) }
    ensures store { Leaves result (answer_of regions.old left (object_values regions.old region args.now)) regions.new }
    ensures err { OnErr result (regions.new ≡ regions.old) }
    ensures sound { IfOk result (λ done. AddsValue regions.old regions.new (pointers_of args.now) done.value) }
    ensures fixed { KeepsFixed regions.old regions.new }
{
    let values = match object_of(regions, argument(args, 0)) {
        Some(properties) => properties.values(alloc)?,
        None => return Err(OpError::Throws(Thrown::BadArgument)),
    };
    regions.charge(region, 1 + values.len(), 0, left)?;
    give_array(regions, region, values)
}

// The literals of texts in a region, one after another.
fn make_literals(
    alloc: Global,
    regions: &mut Regions,
    region: RegionKey,
    texts: &[Units],
) -> Result<List<Value>, NoMemory>
    requires { IsOpen regions.old region }
    ensures values { IfOk result (λ values. values ≡ literals region regions.old texts.now) }
    ensures store { OnOk result (regions.new ≡ with_literals region regions.old texts.now) }
    ensures open { OnOk result (IsOpen regions.new region) }
    ensures elements { OnOk result (elements_in regions.new region ≡ elements_in regions.old region) }
    ensures count { IfOk result (λ values. length values ≡ length texts.now) }
    ensures sound { IfOk result (λ values. AddsValues regions.old regions.new values) }
    ensures fixed { KeepsFixed regions.old regions.new }
{
    let mut values = List::new(alloc);
    for units in texts {
        let r = regions.literal(region, units.as_slice())?;
        values.push(Value::Ref(r))?;
    }
    Ok(values)
}

/// The keys of an object in their order, as literals in a new array (ECMA-262, "Object.keys", in this
/// project's profile).
///
/// # Errors
/// In this order: `Throws` with `BadArgument` where the first argument is no object, `HeapFull` where
/// the region would have more than 50,000 elements, `StepsOut` where those of the array are more than
/// `left`; all is then as before. `NoMemory` where an allocation is refused; the region may then have
/// more literals.
pub fn keys(
    alloc: Global,
    regions: &mut Regions,
    region: RegionKey,
    args: &[Value],
    left: u64,
) -> Result<Done, OpError>
    requires { IsOpen regions.old region }
    ensures answer { Answers result (answer_of regions.old left (object_keys regions.old region args.now)) }
    ensures store { Leaves result (answer_of regions.old left (object_keys regions.old region args.now)) regions.new }
    ensures err { result ≢ Err OpError.NoMemory → OnErr result (regions.new ≡ regions.old) }
    ensures sound { IfOk result (λ done. AddsValue regions.old regions.new (pointers_of args.now) done.value) }
    ensures fixed { KeepsFixed regions.old regions.new }
{
    let names = match object_of(regions, argument(args, 0)) {
        Some(properties) => properties.keys(alloc)?,
        None => return Err(OpError::Throws(Thrown::BadArgument)),
    };
    if let Err(refused) = regions.charge(region, 1 + names.len(), 0, left) {
        return Err(refused);
    }
    let values = make_literals(alloc, regions, region, names.as_slice())?;
    give_array(regions, region, values)
}

// The units of a key: a text, or a number, which stands for its decimal text.
fn has_key(
    alloc: Global,
    regions: &Regions,
    properties: &Properties,
    key: Value,
) -> Result<Option<bool>, NoMemory>
    ensures { IfOk result (λ answer. answer ≡ option_map (λ units. is_some (property properties.now units)) (key_in regions.now key)) }
{
    match key {
        Value::Int(n) => {
            let units = integer_units(alloc, n)?;
            Ok(Some(properties.get(units.as_slice()).is_some()))
        }
        Value::Ref(r) => match regions.find(r) {
            Some(body) => match body {
                Body::Text(units) => Ok(Some(properties.get(units.as_slice()).is_some())),
                _ => Ok(None),
            },
            None => Ok(None),
        },
        _ => Ok(None),
    }
}

/// Whether an object has a property of its own at a key, a text or a number (ECMA-262,
/// "Object.hasOwn"). It takes no steps, and memory only for a key that is a number.
///
/// # Errors
/// `Throws` with `BadArgument` exactly where the first argument is no object or the second no key;
/// `NoMemory` where an allocation is refused.
pub fn has_own(
    alloc: Global,
    regions: &Regions,
    region: RegionKey,
    args: &[Value],
    left: u64,
) -> Result<Done, OpError>
    requires { IsOpen regions.now region }
    ensures answer { Answers result (answer_of regions.now left (has_own regions.now region args.now)) }
    ensures plain { IfOk result (λ done. pointers_of (done.value ∷ []) ≡ []) }
{
    match object_of(regions, argument(args, 0)) {
        Some(properties) => match has_key(alloc, regions, properties, argument(args, 1))? {
            Some(has) => {
                regions.charge(region, 0, 0, left)?;
                Ok(Done {
                    value: Value::Bool(has),
                    steps: 0,
                })
            }
            None => Err(OpError::Throws(Thrown::BadArgument)),
        },
        None => Err(OpError::Throws(Thrown::BadArgument)),
    }
}
