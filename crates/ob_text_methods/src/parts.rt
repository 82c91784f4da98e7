//! The parts of a text between the pieces that stand in it.
ghost use Rattle.std.specs.Prelude.{◌≡◌, ◌+◌, ◌-◌, ◌^◌, ◌<◌, ◌≤◌, ◌∷◌, [], IfOk, length, map, min, take, drop};
ghost use Rattle.ob_text_methods.specs.Search.{AreShifts};
ghost use Rattle.ob_values.specs.TextMethods.{cut, texts_cost};

use crate::search::place_of;
use crate::units::copy_of;
use ob_base::{List, NoMemory, Units};
use ob_values::text_elements;
use std::alloc::Global;

// The units before a place.
fn before(units: &[u16], place: usize) -> &[u16]
    requires { place ≤ length units.now }
    ensures { result.now ≡ take place units.now }
{
    &units[..place]
}

// The units from a place on.
fn behind(units: &[u16], place: usize) -> &[u16]
    requires { place ≤ length units.now }
    ensures { result.now ≡ drop place units.now }
{
    &units[place..]
}

/// The number of the parts and of their elements together; 2^64-1 for more.
pub fn parts_cost(units: &[u16], piece: &[u16], shifts: &[usize]) -> usize
    requires some { 0 < length piece.now }
    requires shifts { AreShifts piece.now shifts.now }
    requires enough { length piece.now ≤ length shifts.now }
    ensures { result ≡ min (length (cut (length units.now) piece.now units.now) + texts_cost (cut (length units.now) piece.now units.now)) (2 ^ 64 - 1) }
{
    let mut rest = units;
    let mut total: usize = 0;
    while let Some(place) = place_of(rest, piece, shifts) {
        total = total.saturating_add(1 + text_elements(place));
        rest = behind(rest, place + piece.len());
    }
    total.saturating_add(1 + text_elements(rest.len()))
}

/// The parts, from the front on, each with its own units.
///
/// # Errors
/// `NoMemory` where an allocation is refused.
pub fn parts_of(
    alloc: Global,
    units: &[u16],
    piece: &[u16],
    shifts: &[usize],
) -> Result<List<Units>, NoMemory>
    requires some { 0 < length piece.now }
    requires shifts { AreShifts piece.now shifts.now }
    requires enough { length piece.now ≤ length shifts.now }
    ensures { IfOk result (λ parts. parts ≡ cut (length units.now) piece.now units.now) }
{
    let mut parts = List::new(alloc);
    let mut rest = units;
    while let Some(place) = place_of(rest, piece, shifts) {
        parts.push(copy_of(alloc, before(rest, place))?)?;
        rest = behind(rest, place + piece.len());
    }
    parts.push(copy_of(alloc, rest)?)?;
    Ok(parts)
}

/// The units, each as a text.
///
/// # Errors
/// `NoMemory` where an allocation is refused.
pub fn units_apart(alloc: Global, units: &[u16]) -> Result<List<Units>, NoMemory>
    ensures { IfOk result (λ parts. parts ≡ map (λ unit. unit ∷ []) units.now) }
{
    let mut parts = List::new(alloc);
    for unit in units {
        let mut part = Units::new(alloc);
        part.push(*unit)?;
        parts.push(part)?;
    }
    Ok(parts)
}
