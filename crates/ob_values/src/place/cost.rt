//! How many elements plain data costs.
ghost use Rattle.std.specs.Prelude.{◌≡◌, ◌+◌, ◌-◌, ◌/◌, ◌^◌, length, map, max, min, sum};
ghost use Rattle.ob_base.specs.PlainData.{elements, prop_elements};

use crate::regions::text_elements;
use ob_base::{Plain, PlainProp};

// The elements of plain data; `u64::MAX` for more.
#[cycle(elements)]
pub(super) fn plain_elements(plain: &Plain) -> u64
    ensures { result ≡ min (elements plain.now) (2 ^ 64 - 1) }
{
    match plain {
        Plain::Undefined | Plain::Null | Plain::Bool(_) | Plain::Int(_) => 0,
        Plain::Text(units) => text_elements(units.as_slice().len()) as u64,
        Plain::Array(items) => items_elements(items.as_slice()).saturating_add(1),
        Plain::Object(props) => props_elements(props.as_slice()).saturating_add(1),
    }
}

#[cycle(elements)]
fn items_elements(items: &[Plain]) -> u64
    ensures { result ≡ min (length items.now + sum (map elements items.now)) (2 ^ 64 - 1) }
{
    let mut total = items.len() as u64;
    for item in items {
        total = total.saturating_add(plain_elements(item));
    }
    total
}

#[cycle(elements)]
fn props_elements(props: &[PlainProp]) -> u64
    ensures { result ≡ min (length props.now + sum (map prop_elements props.now)) (2 ^ 64 - 1) }
{
    let mut total = props.len() as u64;
    for prop in props {
        total = total.saturating_add(plain_elements(&prop.value));
    }
    total
}
