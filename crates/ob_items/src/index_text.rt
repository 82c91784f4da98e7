ghost use Rattle.std.specs.Prelude.{ℕ, ◌≡◌, ◌<◌, ◌≤◌, ◌↔◌, IsTrue, IfSome, IfNone, IfOk, length, decimal};
ghost use Rattle.std.specs.Fmt.{signed_decimal};
ghost use Rattle.ob_items.specs.IndexText.{index_in, read, IsIndexText};

use itoa::Buffer;
use ob_base::{NoMemory, Units};
use std::alloc::Global;

// Whether the units are these bytes.
fn is_same(units: &[u16], bytes: &[u8]) -> bool
    ensures { IsTrue result ↔ (units.now ≡ bytes.now) }
{
    if units.len() != bytes.len() {
        return false;
    }
    for (at, unit) in units.iter().enumerate() {
        if *unit != u16::from(bytes[at]) {
            return false;
        }
    }
    true
}

// The number that at most ten digits stand for.
fn number(units: &[u16]) -> Option<u64>
    requires { length units.now ≤ 10 }
    ensures value { IfSome result (λ n. n ≡ read units.now) }
    ensures none { IfNone result ((n : ℕ) → n < 4294967295 → units.now ≡ decimal n → ⊥) }
{
    let mut value: u64 = 0;
    for unit in units {
        if *unit < 48 || *unit > 57 {
            return None;
        }
        value = value * 10 + u64::from(*unit - 48);
    }
    Some(value)
}

// The array index that the units are the decimal text of.
fn array_index(units: &[u16]) -> Option<u32>
    ensures found { IfSome result (IsIndexText units.now) }
    ensures none { IfNone result ((n : ℕ) → IsIndexText units.now n → ⊥) }
{
    if units.len() > 10 {
        return None;
    }
    let value = number(units)?;
    if value >= 4_294_967_295 {
        return None;
    }
    let mut buffer = Buffer::new();
    if is_same(units, buffer.format(value).as_bytes()) {
        Some(value as u32)
    } else {
        None
    }
}

/// The array index, from 0 to 2^32-2, that a key is the decimal text of (ECMA-262, "Object Type").
pub fn index_of(units: &[u16]) -> Option<u32>
    ensures { result ≡ index_in units.now }
{
    array_index(units)
}

/// The decimal text of a number.
///
/// # Errors
/// `NoMemory` where an allocation is refused.
pub fn decimal_units(alloc: Global, number: u64) -> Result<Units, NoMemory>
    ensures { IfOk result (λ units. units ≡ decimal number) }
{
    let mut buffer = Buffer::new();
    Units::from_bytes(alloc, buffer.format(number).as_bytes())
}

/// The decimal text of an integer, with a minus sign where it is below 0 (ECMA-262,
/// "Number::toString").
///
/// # Errors
/// `NoMemory` where an allocation is refused.
pub fn integer_units(alloc: Global, number: i64) -> Result<Units, NoMemory>
    ensures { IfOk result (λ units. units ≡ signed_decimal number) }
{
    let mut buffer = Buffer::new();
    Units::from_bytes(alloc, buffer.format(number).as_bytes())
}
