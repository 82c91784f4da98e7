//! The units of new texts.
ghost use Rattle.std.specs.Prelude.{◌≡◌, ◌++◌, ◌+◌, ◌<◌, ◌≤◌, IfOk, OnOk, length, slice_get};
ghost use Rattle.std.specs.List.{repeat};
ghost use Rattle.ob_values.specs.TextMethods.{padding};

use ob_base::{NoMemory, Units};
use std::alloc::Global;

/// The same units.
///
/// # Errors
/// `NoMemory` where an allocation is refused.
pub fn copy_of(alloc: Global, units: &[u16]) -> Result<Units, NoMemory>
    ensures { IfOk result (λ copy. copy ≡ units.now) }
{
    Ok(Units::from_vec(Vec::from_slice(alloc, units)?))
}

/// The units so many times.
///
/// # Errors
/// `NoMemory` where an allocation is refused.
pub fn copies(alloc: Global, units: &[u16], count: usize) -> Result<Units, NoMemory>
    ensures { IfOk result (λ copies. copies ≡ repeat count units.now) }
{
    Ok(Units::from_vec(units.repeat(alloc, count)?))
}

// Adds so many units of a pad, again and again.
fn add_padding(made: &mut Vec<u16>, count: usize, pad: &[u16]) -> Result<(), NoMemory>
    requires { 0 < length pad.now }
    ensures { OnOk result (made.new.items ≡ made.old.items ++ padding count pad.now) }
{
    for turn in 0..count / pad.len() {
        made.extend_from_slice(pad)?;
    }
    made.extend_from_slice(&pad[..count % pad.len()])?;
    Ok(())
}

/// The unit at a place; none outside.
pub fn unit_at(units: &[u16], place: usize) -> Option<u16>
    ensures { result ≡ slice_get units.now place }
{
    units.get(place).copied()
}

/// The units behind so many of a pad, again and again.
///
/// # Errors
/// `NoMemory` where an allocation is refused.
#[tactic(auto, using(crate::proofs::UnitLemmas::padding_none))]
pub fn with_padding(
    alloc: Global,
    count: usize,
    pad: &[u16],
    units: &[u16],
) -> Result<Units, NoMemory>
    requires { count + length units.now ≤ 65536 }
    ensures { IfOk result (λ made. made ≡ padding count pad.now ++ units.now) }
{
    let mut made = Vec::with_capacity(alloc, count + units.len())?;
    if !pad.is_empty() {
        add_padding(&mut made, count, pad)?;
    }
    made.extend_from_slice(units)?;
    Ok(Units::from_vec(made))
}
