ghost use Rattle.std.specs.Prelude.{◌≡◌, ◌+◌, ◌∷◌, ◌<◌, ◌≤◌, ◌&&◌, drop, length, slice_index, IfOk, IsTrue, string_bytes, unwrap_or};
ghost use Rattle.std.specs.Char.Utf16.{lone_unit_char, surrogate_pair_char, is_high_surrogate, is_low_surrogate, utf16_lossy_chars};
ghost use Rattle.ob_script.specs.Texts.{utf8};

use ob_base::NoMemory;
use std::alloc::Global;

fn is_high_surrogate(unit: u16) -> bool
    ensures { result ≡ is_high_surrogate unit }
{
    unit >= 0xd800 && unit < 0xdc00
}

fn is_low_surrogate(unit: u16) -> bool
    ensures { result ≡ is_low_surrogate unit }
{
    unit >= 0xdc00 && unit < 0xe000
}

fn lone_char(unit: u16) -> char
    ensures { result ≡ unwrap_or (lone_unit_char unit) 0xFFFD }
{
    match char::from_u32(unit as u32) {
        Some(c) => c,
        None => '\u{fffd}',
    }
}

fn pair_char(high: u16, low: u16) -> char
    requires { IsTrue (is_high_surrogate high && is_low_surrogate low) }
    ensures { result ≡ surrogate_pair_char high low }
{
    let over = (high as u32 - 0xd800) * 0x400 + (low as u32 - 0xdc00);
    match char::from_u32(0x1_0000 + over) {
        Some(c) => c,
        None => unreachable!(),
    }
}

fn is_pair(high: u16, low: u16) -> bool
    ensures { result ≡ (is_high_surrogate high && is_low_surrogate low) }
{
    is_high_surrogate(high) && is_low_surrogate(low)
}

/// The unit at a place, and 0 past the end.
fn unit_at(units: &[u16], place: usize) -> u16
    ensures { result ≡ slice_index units.now place }
{
    if place < units.len() { units[place] } else { 0 }
}

/// The character that stands at a place, U+FFFD for a surrogate without a partner, and the place
/// after it.
fn char_at(units: &[u16], place: usize) -> (char, usize)
    requires { place < length units.now }
    ensures chars { utf16_lossy_chars (drop place units.now) ≡ result.0 ∷ utf16_lossy_chars (drop result.1 units.now) }
    ensures more { place < result.1 }
    ensures within { result.1 ≤ length units.now }
{
    let first = units[place];
    let next = unit_at(units, place + 1);
    if is_pair(first, next) {
        (pair_char(first, next), place + 2)
    } else {
        (lone_char(first), place + 1)
    }
}

/// The text that units spell, with U+FFFD for a surrogate without a partner.
#[tactic(auto, unfolding(crate::specs::Texts::utf8))]
pub fn text_of_units(alloc: Global, units: &[u16]) -> Result<String, NoMemory>
    ensures { IfOk result (λ text. string_bytes text ≡ utf8 units.now) }
{
    let mut text = String::new(alloc);
    let mut place = 0;
    while place < units.len() {
        let (c, after) = char_at(units, place);
        text.push(c)?;
        place = after;
    }
    Ok(text)
}
