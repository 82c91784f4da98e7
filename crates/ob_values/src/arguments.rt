//! How the receiver and the arguments of a call are read.
ghost use Rattle.std.specs.Prelude.{◌≡◌, ◌≤◌, ◌<◌, ◌^◌, IfSome, Some};
ghost use Rattle.std.specs.Option.{option_copied};
ghost use Rattle.ob_values.specs.ArrayMethods.{elements_at, array_in, found};
ghost use Rattle.ob_values.specs.Effects.{argument, place_of, places_of};
ghost use Rattle.ob_values.specs.Operators.{text_in};
ghost use Rattle.ob_values.specs.Values.{string_of};

use crate::regions::Regions;
use ob_items::{Body, Ref, Value};
use std::cmp;

/// The argument at a place, from 0: a missing one is undefined.
pub fn argument(args: &[Value], place: usize) -> Value
    ensures { result ≡ argument args.now place }
{
    match args.get(place) {
        Some(value) => *value,
        None => Value::Undefined,
    }
}

// A place that a number counts, from the end where it is negative, cut to the range.
fn counted(len: usize, n: i64) -> usize
    ensures place { place_of len 0 (Value.Int n) ≡ Some result }
    ensures within { result ≤ len }
{
    if n < 0 {
        len.saturating_sub(n.unsigned_abs() as usize)
    } else {
        cmp::min(n as usize, len)
    }
}

// A place among so many: a negative one counts from the end, then it is cut to the range; undefined
// is the default.
fn place_of(len: usize, default: usize, value: Value) -> Option<usize>
    requires { default ≤ len }
    ensures place { result ≡ place_of len default value }
    ensures within { IfSome result (λ place. place ≤ len) }
{
    match value {
        Value::Undefined => Some(default),
        Value::Int(n) => Some(counted(len, n)),
        _ => None,
    }
}

/// The places of the first two arguments among so many, by default all; none where one of them is no
/// number.
pub fn places_of(len: usize, args: &[Value]) -> Option<(usize, usize)>
    ensures places { result ≡ places_of len args.now }
    ensures within { IfSome result (λ places. (places.0 ≤ len) × (places.1 ≤ len)) }
{
    let from = place_of(len, 0, argument(args, 0))?;
    let to = place_of(len, len, argument(args, 1))?;
    Some((from, to))
}

/// The elements of an array; none of another item.
pub fn elements_of(regions: &Regions, r: Ref) -> &[Value]
    ensures { result.now ≡ elements_at regions.now r }
{
    match regions.find(r) {
        Some(body) => match body {
            Body::Array(values) => values.as_slice(),
            _ => &[],
        },
        None => &[],
    }
}

/// The elements of a value that is an array.
pub fn array_of(regions: &Regions, value: Value) -> Option<&[Value]>
    ensures { option_copied result ≡ array_in regions.now value }
{
    match value {
        Value::Ref(r) => match regions.find(r) {
            Some(body) => match body {
                Body::Array(values) => Some(values.as_slice()),
                _ => None,
            },
            None => None,
        },
        _ => None,
    }
}

/// The units of a value that is a text.
pub fn text_in(regions: &Regions, value: Value) -> Option<&[u16]>
    ensures value { option_copied result ≡ text_in regions.now value }
    ensures text { IfSome result (λ units. string_of regions.now value ≡ Some units.now) }
{
    match value {
        Value::Ref(r) => match regions.find(r) {
            Some(body) => match body {
                Body::Text(units) => Some(units.as_slice()),
                _ => None,
            },
            None => None,
        },
        _ => None,
    }
}

/// A place that was found, or -1.
pub fn found(place: Option<usize>) -> Value
    requires { IfSome place (λ p. p < 2 ^ 63) }
    ensures { result ≡ found place }
{
    match place {
        Some(place) => Value::Int(place as i64),
        None => Value::Int(-1),
    }
}
