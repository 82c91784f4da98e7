ghost use Rattle.std.specs.Prelude.{◌≡◌, ◌++◌, ◌⊎◌, IfOk, IsSome, Some, Err, ok_or};
ghost use Rattle.std.specs.Result.{result_map_both};
ghost use Rattle.ob_values.specs.Operators.{joined, text_sum, charged, Text as made_text};
ghost use Rattle.ob_values.specs.Store.{IsOpen, elements_in};
ghost use Rattle.ob_values.specs.Values.{string_of};

use ob_base::{MAX_TEXT_UNITS, NoMemory, Units};
use ob_values::{OpError, RegionKey, Regions, TextError, Thrown, Value, text_elements, text_in};
use std::alloc::Global;

// The text of a number, a boolean, null or undefined.
fn written(regions: &Regions, value: Value) -> Result<Units, OpError>
    ensures value { (result ≡ Err OpError.NoMemory) ⊎ (result ≡ ok_or (string_of regions.now value) (OpError.Throws Thrown.WrongOperand)) }
    ensures memory { result ≡ Err OpError.NoMemory → IsSome (string_of regions.now value) }
{
    match regions.to_text(value) {
        Ok(units) => Ok(units),
        Err(TextError::NotText) => Err(OpError::Throws(Thrown::WrongOperand)),
        Err(TextError::NoMemory) => Err(OpError::NoMemory),
    }
}

fn concatenation(alloc: Global, first: &[u16], second: &[u16]) -> Result<Units, NoMemory>
    ensures { IfOk result (λ units. units ≡ first.now ++ second.now) }
{
    let mut units = Vec::with_capacity(alloc, first.len() + second.len())?;
    units.extend_from_slice(first)?;
    units.extend_from_slice(second)?;
    Ok(Units::from_vec(units))
}

// The units of two texts, one behind the other, if a text of so many can be made.
fn join(
    alloc: Global,
    regions: &Regions,
    region: RegionKey,
    first: &[u16],
    second: &[u16],
    left: u64,
) -> Result<Units, OpError>
    requires { IsOpen regions.now region }
    ensures { (result ≡ Err OpError.NoMemory) ⊎ (result_map_both made_text (λ e. e) result ≡ charged (elements_in regions.now region) left (text_sum (Some (first.now ++ second.now)))) }
{
    let len = first.len() + second.len();
    if len > MAX_TEXT_UNITS {
        return Err(OpError::Throws(Thrown::TextTooLong));
    }
    let cost = text_elements(len);
    if regions.is_full_for(region, cost) {
        return Err(OpError::HeapFull);
    }
    if cost as u64 > left {
        return Err(OpError::StepsOut);
    }
    match concatenation(alloc, first, second) {
        Ok(units) => Ok(units),
        Err(_) => Err(OpError::NoMemory),
    }
}

/// The units of the sum of two values of which one is no number: a text beside a text, a number, a
/// boolean, null or undefined.
///
/// # Errors
/// In this order: `WrongOperand` for other values, `TextTooLong` above 65,536 units, `HeapFull` and
/// `StepsOut` where its elements are too many; `NoMemory` where an allocation is refused.
pub fn sum(
    alloc: Global,
    regions: &Regions,
    region: RegionKey,
    a: Value,
    b: Value,
    left: u64,
) -> Result<Units, OpError>
    requires { IsOpen regions.now region }
    ensures value { (result ≡ Err OpError.NoMemory) ⊎ (result_map_both made_text (λ e. e) result ≡ charged (elements_in regions.now region) left (text_sum (joined regions.now a b))) }
    ensures memory { result ≡ Err OpError.NoMemory → IsSome (joined regions.now a b) }
{
    match (text_in(regions, a), text_in(regions, b)) {
        (Some(first), Some(second)) => join(alloc, regions, region, first, second, left),
        (Some(first), None) => {
            let second = written(regions, b)?;
            join(alloc, regions, region, first, second.as_slice(), left)
        }
        (None, Some(second)) => {
            let first = written(regions, a)?;
            join(alloc, regions, region, first.as_slice(), second, left)
        }
        (None, None) => Err(OpError::Throws(Thrown::WrongOperand)),
    }
}
