//! `Object.entries`.
ghost use Rattle.std.specs.Prelude.{◌≡◌, ◌≢◌, ◌+◌, ◌*◌, ◌≤◌, ◌∷◌, [], Err, IfOk, OnOk, OnErr, length, map};
ghost use Rattle.ob_array_methods.specs.Pairs.{AddsMade};
ghost use Rattle.ob_values.specs.Effects.{Answers, Leaves, answer_of};
ghost use Rattle.ob_values.specs.Fixed.{KeepsFixed};
ghost use Rattle.ob_values.specs.ObjectFunctions.{object_entries, pairs, with_pair, with_pairs};
ghost use Rattle.ob_values.specs.Operators.{AddsValue};
ghost use Rattle.ob_values.specs.Sound.{pointers_of};
ghost use Rattle.ob_values.specs.Store.{IsOpen, elements_in, next_ref, with_literal_in};

use crate::making::give_array;
use crate::objects::object_of;
use ob_base::{List, MAX_REGION_ELEMENTS, NoMemory};
use ob_items::Property;
use ob_values::{AllocError, Done, OpError, RegionKey, Regions, Thrown, Value, argument};
use std::alloc::Global;

// A property in a new array of two, its key as a literal.
fn make_pair(
    regions: &mut Regions,
    region: RegionKey,
    property: &Property,
) -> Result<Value, NoMemory>
    requires open { IsOpen regions.old region }
    requires room { elements_in regions.old region + 3 ≤ 50000 }
    ensures value { IfOk result (λ value. value ≡ Value.Ref (next_ref (with_literal_in regions.old region property.now.key) region)) }
    ensures store { OnOk result (regions.new ≡ with_pair region regions.old property.now) }
    ensures open { OnOk result (IsOpen regions.new region) }
    ensures elements { OnOk result (elements_in regions.new region ≡ elements_in regions.old region + 3) }
    ensures sound { IfOk result (λ value. AddsValue regions.old regions.new (pointers_of (property.now.value ∷ [])) value) }
    ensures fixed { KeepsFixed regions.old regions.new }
{
    let key = regions.literal(region, property.key.as_slice())?;
    match regions.alloc_array(region, &[Value::Ref(key), property.value]) {
        Ok(r) => Ok(Value::Ref(r)),
        Err(AllocError::NoMemory) => Err(NoMemory),
        Err(AllocError::HeapFull) => unreachable!(),
    }
}

// The properties in new arrays of two, one after another.
fn make_pairs(
    alloc: Global,
    regions: &mut Regions,
    region: RegionKey,
    properties: &[Property],
) -> Result<List<Value>, NoMemory>
    requires open { IsOpen regions.old region }
    requires room { elements_in regions.old region + 3 * length properties.now ≤ 50000 }
    ensures values { IfOk result (λ values. values ≡ pairs region regions.old properties.now) }
    ensures store { OnOk result (regions.new ≡ with_pairs region regions.old properties.now) }
    ensures open { OnOk result (IsOpen regions.new region) }
    ensures elements { OnOk result (elements_in regions.new region ≡ elements_in regions.old region + 3 * length properties.now) }
    ensures count { IfOk result (λ values. length values ≡ length properties.now) }
    ensures sound { IfOk result (λ values. AddsMade regions.old regions.new (pointers_of (map (λ p. p.value) properties.now)) values) }
    ensures fixed { KeepsFixed regions.old regions.new }
{
    let mut values = List::new(alloc);
    for property in properties {
        let pair = make_pair(regions, region, property)?;
        values.push(pair)?;
    }
    Ok(values)
}

/// The keys of an object with their values in their order, each pair as a new array of two, in a new
/// array (ECMA-262, "Object.entries", in this project's profile). The keys are literals; each pair costs
/// 3 elements.
///
/// # Errors
/// In this order: `Throws` with `BadArgument` where the first argument is no object, `HeapFull` where
/// the region would have more than 50,000 elements, `StepsOut` where those of the arrays are more than
/// `left`; all is then as before. `NoMemory` where an allocation is refused; the region may then have
/// more literals and arrays.
pub fn entries(
    alloc: Global,
    regions: &mut Regions,
    region: RegionKey,
    args: &[Value],
    left: u64,
) -> Result<Done, OpError>
    requires { IsOpen regions.old region }
    ensures answer { Answers result (answer_of regions.old left (object_entries regions.old region args.now)) }
    ensures store { Leaves result (answer_of regions.old left (object_entries regions.old region args.now)) regions.new }
    ensures err { result ≢ Err OpError.NoMemory → OnErr result (regions.new ≡ regions.old) }
    ensures sound { IfOk result (λ done. AddsValue regions.old regions.new (pointers_of args.now) done.value) }
    ensures fixed { KeepsFixed regions.old regions.new }
{
    let properties = match object_of(regions, argument(args, 0)) {
        Some(properties) => properties.entries(alloc)?,
        None => return Err(OpError::Throws(Thrown::BadArgument)),
    };
    let count = properties.len();
    if count as u64 > MAX_REGION_ELEMENTS {
        return Err(OpError::HeapFull);
    }
    if let Err(refused) = regions.charge(region, 4 * count + 1, 0, left) {
        return Err(refused);
    }
    let values = make_pairs(alloc, regions, region, properties.as_slice())?;
    give_array(regions, region, values)
}
