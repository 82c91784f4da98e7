//! Making a text, where it is not too long and there is room for it.
ghost use Rattle.std.specs.Prelude.{◌≡◌, ◌+◌, [], ◌≤◌, OnOk, OnErr, IfOk, IfErr, Ok, length};
ghost use Rattle.std.specs.Result.{result_map_both};
ghost use Rattle.ob_values.specs.Effects.{with_text, gives, in_steps, answer_of, done_of};
ghost use Rattle.ob_text_methods.specs.Room.{room_of};
ghost use Rattle.ob_values.specs.Fixed.{KeepsFixed};
ghost use Rattle.ob_values.specs.Operators.{AddsValue, limited};
ghost use Rattle.ob_values.specs.Store.{IsOpen, elements_in, text_cost, next_ref};

use ob_base::{MAX_TEXT_UNITS, NoMemory, Units};
use ob_values::{Done, OpError, RegionKey, Regions, Thrown, Value, text_elements};

/// Tests, in this order, whether a text of so many units is not too long, has room in the region, and
/// takes at most `left` steps.
///
/// # Errors
/// `TextTooLong`, `HeapFull`, `StepsOut` where it is not so.
pub fn room_for(regions: &Regions, region: RegionKey, len: usize, left: u64) -> Result<(), OpError>
    requires { IsOpen regions.now region }
    ensures value { result ≡ room_of (elements_in regions.now region) left len }
    ensures room { OnOk result (elements_in regions.now region + text_cost len ≤ 50000) }
{
    if len > MAX_TEXT_UNITS {
        return Err(OpError::Throws(Thrown::TextTooLong));
    }
    charge(regions, region, text_elements(len), 0, left)
}

/// Tests, in this order, whether an action that makes so many elements and takes so many steps besides
/// one for each of these has room in the region, and takes at most `left` steps.
///
/// # Errors
/// `HeapFull`, `StepsOut` where it is not so.
pub fn charge(
    regions: &Regions,
    region: RegionKey,
    made: usize,
    steps: usize,
    left: u64,
) -> Result<(), OpError>
    requires { IsOpen regions.now region }
    ensures value { result ≡ limited (elements_in regions.now region) left made steps tt }
    ensures room { OnOk result (elements_in regions.now region + made ≤ 50000) }
{
    regions.charge(region, made, steps, left)
}

/// Gives a value that is there already, in so many steps.
///
/// # Errors
/// `StepsOut` where these are more than `left`; `HeapFull` where the region is too full before.
pub fn given(
    regions: &Regions,
    region: RegionKey,
    value: Value,
    steps: usize,
    left: u64,
) -> Result<Done, OpError>
    requires { IsOpen regions.now region }
    ensures answer { result ≡ result_map_both done_of (λ e. e) (answer_of regions.now left (Ok (in_steps steps (gives regions.now region value)))) }
    ensures value { IfOk result (λ done. done.value ≡ value) }
{
    charge(regions, region, 0, steps, left)?;
    Ok(Done {
        value,
        steps: steps as u64,
    })
}

/// Makes a text of these units, for which there is room.
///
/// # Errors
/// `NoMemory` where an allocation is refused; all is then as before.
pub fn made(regions: &mut Regions, region: RegionKey, units: Units) -> Result<Done, OpError>
    requires open { IsOpen regions.old region }
    requires room { elements_in regions.old region + text_cost (length units) ≤ 50000 }
    ensures value { IfOk result (λ done. done ≡ record { value = Value.Ref (next_ref regions.old region); steps = 0 }) }
    ensures store { OnOk result (regions.new ≡ with_text region regions.old units) }
    ensures memory { IfErr result (λ e. e ≡ OpError.NoMemory) }
    ensures err { OnErr result (regions.new ≡ regions.old) }
    ensures sound { IfOk result (λ done. AddsValue regions.old regions.new [] done.value) }
    ensures fixed { KeepsFixed regions.old regions.new }
{
    match regions.alloc_units(region, units) {
        Ok(r) => Ok(Done {
            value: Value::Ref(r),
            steps: 0,
        }),
        Err(_) => Err(OpError::NoMemory),
    }
}
