//! `String` and the three errors.
ghost use Rattle.std.specs.Prelude.{◌≡◌, ◌≢◌, ◌⊎◌, ◌+◌, ◌≤◌, [], IsSome, IsTrue, IfOk, OnErr, OnOk, Err, Some, None, is_ok, length, ok_or};
ghost use Rattle.std.specs.Result.{result_map_both};
ghost use Rattle.ob_items.specs.Bodies.{text_of};
ghost use Rattle.ob_values.specs.Effects.{in_steps, gives_text, makes_text, or_bad, answer_of, Answers, Leaves, argument};
ghost use Rattle.ob_values.specs.Functions.{to_text};
ghost use Rattle.ob_values.specs.Fixed.{KeepsFixed};
ghost use Rattle.ob_values.specs.Operators.{AddsValue};
ghost use Rattle.ob_values.specs.Store.{IsOpen, elements_in, text_cost};
ghost use Rattle.ob_values.specs.Values.{string_of};

use crate::make::{made, room_for};
use crate::units::copy_of;
use ob_base::Units;
use ob_values::{Done, OpError, RegionKey, Regions, TextError, Thrown, Value, argument, text_in};
use std::alloc::Global;

/// The text of a number, a boolean, null or undefined.
pub fn written(regions: &Regions, value: Value) -> Result<Units, OpError>
    ensures value { (result ≡ Err OpError.NoMemory) ⊎ (result ≡ ok_or (string_of regions.now value) (OpError.Throws Thrown.BadArgument)) }
    ensures memory { result ≡ Err OpError.NoMemory → IsSome (string_of regions.now value) }
{
    match regions.to_text(value) {
        Ok(units) => Ok(units),
        Err(TextError::NotText) => Err(OpError::Throws(Thrown::BadArgument)),
        Err(TextError::NoMemory) => Err(OpError::NoMemory),
    }
}

// The units of the text that `String` gives.
fn string_units(
    alloc: Global,
    regions: &Regions,
    region: RegionKey,
    value: Value,
    left: u64,
) -> Result<Units, OpError>
    requires { IsOpen regions.now region }
    ensures value { (result ≡ Err OpError.NoMemory) ⊎ (result_map_both (λ units. in_steps 0 (gives_text regions.now region units)) (λ e. e) result ≡ answer_of regions.now left (or_bad (string_of regions.now value) (makes_text regions.now region 0))) }
    ensures memory { result ≡ Err OpError.NoMemory → IsSome (string_of regions.now value) }
    ensures room { IfOk result (λ units. elements_in regions.now region + text_cost (length units) ≤ 50000) }
{
    match text_in(regions, value) {
        Some(units) => {
            room_for(regions, region, units.len(), left)?;
            match copy_of(alloc, units) {
                Ok(copy) => Ok(copy),
                Err(_) => Err(OpError::NoMemory),
            }
        }
        None => {
            let units = written(regions, value)?;
            room_for(regions, region, units.as_slice().len(), left)?;
            Ok(units)
        }
    }
}

/// `String(v)`: the text of a text, a number, a boolean, null or undefined, as a new text, which costs
/// as made even where v is a text (ECMA-262, "String").
///
/// # Errors
/// In this order: `Throws`, with `BadArgument` for another value, `TextTooLong` above 65,536 units;
/// `HeapFull` where the region would have more than 50,000 elements; `StepsOut` where the elements of
/// the text are more than `left`; `NoMemory` where an allocation is refused. All is then as before.
pub fn string(
    alloc: Global,
    regions: &mut Regions,
    region: RegionKey,
    args: &[Value],
    left: u64,
) -> Result<Done, OpError>
    requires { IsOpen regions.old region }
    ensures answer { Answers result (answer_of regions.old left (to_text regions.old region args.now)) }
    ensures memory { result ≡ Err OpError.NoMemory → IsSome (string_of regions.old (argument args.now 0)) }
    ensures store { Leaves result (answer_of regions.old left (to_text regions.old region args.now)) regions.new }
    ensures err { OnErr result (regions.new ≡ regions.old) }
    ensures sound { IfOk result (λ done. AddsValue regions.old regions.new [] done.value) }
    ensures fixed { KeepsFixed regions.old regions.new }
{
    let units = string_units(alloc, regions, region, argument(args, 0), left)?;
    made(regions, region, units)
}
