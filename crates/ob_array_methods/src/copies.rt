//! The methods that make a new array of elements.
ghost use Rattle.std.specs.Prelude.{◌≡◌, ◌++◌, ◌∷◌, [], ◌≤◌, ◌<◌, ◌^◌, IfOk, OnOk, OnErr, length};
ghost use Rattle.std.specs.List.{slice_range, flat_map};
ghost use Rattle.ob_values.specs.ArrayMethods.{slice, concat, spread, elements_at};
ghost use Rattle.ob_values.specs.Effects.{Answers, Leaves, answer_of};
ghost use Rattle.ob_values.specs.Fixed.{KeepsFixed};
ghost use Rattle.ob_values.specs.Operators.{AddsValue};
ghost use Rattle.ob_values.specs.Sound.{AsValue, pointers_of};
ghost use Rattle.ob_values.specs.Store.{IsOpen};

use crate::making::give_array;
use ob_base::{List, MAX_REGION_ELEMENTS, NoMemory};
use ob_values::{
    Done, OpError, Ref, RegionKey, Regions, Thrown, Value, array_of, elements_of, places_of,
};
use std::alloc::Global;

// What stands from the first place up to before the second.
fn part(values: &[Value], from: usize, to: usize) -> &[Value]
    requires from { from ≤ length values.now }
    requires to { to ≤ length values.now }
    ensures { result.now ≡ slice_range values.now from to }
{
    if from < to { &values[from..to] } else { &[] }
}

/// The elements from the first argument up to before the second, as a new array (ECMA-262,
/// "Array.prototype.slice"): by default all, and a negative place counts from the end.
///
/// # Errors
/// In this order: `Throws` with `BadArgument` where one of these is neither a number nor undefined,
/// `HeapFull` where the region would have more than 50,000 elements, `StepsOut` where those of the
/// array are more than `left`; `NoMemory` where an allocation is refused. All is then as before.
pub fn slice(
    alloc: Global,
    regions: &mut Regions,
    region: RegionKey,
    receiver: Ref,
    args: &[Value],
    left: u64,
) -> Result<Done, OpError>
    requires { IsOpen regions.old region }
    ensures answer { Answers result (answer_of regions.old left (slice regions.old region receiver args.now)) }
    ensures store { Leaves result (answer_of regions.old left (slice regions.old region receiver args.now)) regions.new }
    ensures err { OnErr result (regions.new ≡ regions.old) }
    ensures sound { IfOk result (λ done. AddsValue regions.old regions.new ((AsValue, receiver) ∷ []) done.value) }
    ensures fixed { KeepsFixed regions.old regions.new }
{
    let values = elements_of(regions, receiver);
    match places_of(values.len(), args) {
        Some((from, to)) => {
            let part = part(values, from, to);
            regions.charge(region, 1 + part.len(), 0, left)?;
            let items = List::from_slice(alloc, part)?;
            give_array(regions, region, items)
        }
        None => Err(OpError::Throws(Thrown::BadArgument)),
    }
}

// How many elements a value adds: an array its elements, any other value itself.
fn spread_len(regions: &Regions, value: Value) -> usize
    ensures value { result ≡ length (spread regions.now value) }
    ensures small { result < 2 ^ 63 }
{
    match array_of(regions, value) {
        Some(values) => values.len(),
        None => 1,
    }
}

// How many elements the arguments add.
fn spread_count(regions: &Regions, args: &[Value]) -> u128
    ensures value { result ≡ length (flat_map (spread regions.now) args.now) }
    ensures small { result < 2 ^ 127 }
{
    let mut count = 0;
    for value in args {
        count += spread_len(regions, *value) as u128;
    }
    count
}

fn add_all(values: &mut List<Value>, more: &[Value]) -> Result<(), NoMemory>
    ensures { OnOk result (values.new ≡ values.old ++ more.now) }
{
    for value in more {
        values.push(*value)?;
    }
    Ok(())
}

fn add_spread(values: &mut List<Value>, regions: &Regions, value: Value) -> Result<(), NoMemory>
    ensures { OnOk result (values.new ≡ values.old ++ spread regions.now value) }
{
    match array_of(regions, value) {
        Some(more) => add_all(values, more),
        None => values.push(value),
    }
}

fn concatenation(
    alloc: Global,
    regions: &Regions,
    receiver: Ref,
    args: &[Value],
) -> Result<List<Value>, NoMemory>
    ensures { IfOk result (λ values. values ≡ elements_at regions.now receiver ++ flat_map (spread regions.now) args.now) }
{
    let mut values = List::from_slice(alloc, elements_of(regions, receiver))?;
    for value in args {
        add_spread(&mut values, regions, *value)?;
    }
    Ok(values)
}

/// The elements of an array and those that the arguments add, as a new array (ECMA-262,
/// "Array.prototype.concat"): an array adds its elements, any other value itself.
///
/// # Errors
/// In this order: `HeapFull` where the region would have more than 50,000 elements, `StepsOut` where
/// those of the new array are more than `left`; `NoMemory` where an allocation is refused. All is then
/// as before.
pub fn concat(
    alloc: Global,
    regions: &mut Regions,
    region: RegionKey,
    receiver: Ref,
    args: &[Value],
    left: u64,
) -> Result<Done, OpError>
    requires { IsOpen regions.old region }
    ensures answer { Answers result (answer_of regions.old left (concat regions.old region receiver args.now)) }
    ensures store { Leaves result (answer_of regions.old left (concat regions.old region receiver args.now)) regions.new }
    ensures err { OnErr result (regions.new ≡ regions.old) }
    ensures sound { IfOk result (λ done. AddsValue regions.old regions.new ((AsValue, receiver) ∷ pointers_of args.now) done.value) }
    ensures fixed { KeepsFixed regions.old regions.new }
{
    let count = elements_of(regions, receiver).len() as u128 + spread_count(regions, args);
    if count > u128::from(MAX_REGION_ELEMENTS) {
        return Err(OpError::HeapFull);
    }
    regions.charge(region, 1 + count as usize, 0, left)?;
    let values = concatenation(alloc, regions, receiver, args)?;
    give_array(regions, region, values)
}
