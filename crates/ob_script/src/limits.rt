ghost use Rattle.std.specs.Prelude.{◌≡◌, ◌+◌, ◌-◌, ◌/◌, ◌^◌, length, map, max, min, nat_le, sum};
ghost use Rattle.ob_base.specs.PlainData.{elements, nesting, greatest, has_short_texts, prop_elements, prop_nesting, prop_has_short_texts, are_all};
ghost use Rattle.ob_script.specs.Inputs.{is_within_limits};

use ob_base::{MAX_ARRAY_DEPTH, MAX_REGION_ELEMENTS, MAX_TEXT_UNITS, Plain, PlainProp, Units};

fn is_short(units: &Units) -> bool
    ensures { result ≡ nat_le (length units.now) 65536 }
{
    units.as_slice().len() <= MAX_TEXT_UNITS
}

#[cycle(short)]
fn has_short_texts(plain: &Plain) -> bool
    ensures { result ≡ has_short_texts plain.now }
{
    match plain {
        Plain::Undefined | Plain::Null | Plain::Bool(_) | Plain::Int(_) => true,
        Plain::Text(units) => is_short(units),
        Plain::Array(items) => are_short_items(items.as_slice()),
        Plain::Object(props) => are_short_props(props.as_slice()),
    }
}

#[cycle(short)]
fn are_short_items(items: &[Plain]) -> bool
    ensures { result ≡ are_all (map has_short_texts items.now) }
{
    for item in items {
        if !has_short_texts(item) {
            return false;
        }
    }
    true
}

#[cycle(short)]
fn are_short_props(props: &[PlainProp]) -> bool
    ensures { result ≡ are_all (map prop_has_short_texts props.now) }
{
    for prop in props {
        if !is_short(&prop.key) || !has_short_texts(&prop.value) {
            return false;
        }
    }
    true
}

/// How deep arrays and objects stand in one another; `u32::MAX` for more.
#[cycle(nesting)]
fn nesting(plain: &Plain) -> u32
    ensures { result ≡ min (nesting plain.now) (2 ^ 32 - 1) }
{
    match plain {
        Plain::Undefined | Plain::Null | Plain::Bool(_) | Plain::Int(_) | Plain::Text(_) => 0,
        Plain::Array(items) => nesting_of_items(items.as_slice()).saturating_add(1),
        Plain::Object(props) => nesting_of_props(props.as_slice()).saturating_add(1),
    }
}

#[cycle(nesting)]
fn nesting_of_items(items: &[Plain]) -> u32
    ensures { result ≡ min (greatest (map nesting items.now)) (2 ^ 32 - 1) }
{
    let mut deepest = 0;
    for item in items {
        deepest = nesting(item).max(deepest);
    }
    deepest
}

#[cycle(nesting)]
fn nesting_of_props(props: &[PlainProp]) -> u32
    ensures { result ≡ min (greatest (map prop_nesting props.now)) (2 ^ 32 - 1) }
{
    let mut deepest = 0;
    for prop in props {
        deepest = nesting(&prop.value).max(deepest);
    }
    deepest
}

/// The elements of plain data; `u64::MAX` for more.
#[cycle(elements)]
fn elements(plain: &Plain) -> u64
    ensures { result ≡ min (elements plain.now) (2 ^ 64 - 1) }
{
    match plain {
        Plain::Undefined | Plain::Null | Plain::Bool(_) | Plain::Int(_) => 0,
        Plain::Text(units) => text_elements(units),
        Plain::Array(items) => elements_of_items(items.as_slice()).saturating_add(1),
        Plain::Object(props) => elements_of_props(props.as_slice()).saturating_add(1),
    }
}

fn text_elements(units: &Units) -> u64
    ensures { result ≡ max 1 ((length units.now + 15) / 16) }
{
    (units.as_slice().len() as u64).div_ceil(16).max(1)
}

#[cycle(elements)]
fn elements_of_items(items: &[Plain]) -> u64
    ensures { result ≡ min (length items.now + sum (map elements items.now)) (2 ^ 64 - 1) }
{
    let mut total = items.len() as u64;
    for item in items {
        total = total.saturating_add(elements(item));
    }
    total
}

#[cycle(elements)]
fn elements_of_props(props: &[PlainProp]) -> u64
    ensures { result ≡ min (length props.now + sum (map prop_elements props.now)) (2 ^ 64 - 1) }
{
    let mut total = props.len() as u64;
    for prop in props {
        total = total.saturating_add(elements(&prop.value));
    }
    total
}

/// Whether plain data is small enough for an input: texts and keys of at most `MAX_TEXT_UNITS`,
/// nested at most `MAX_ARRAY_DEPTH` deep, of at most `MAX_REGION_ELEMENTS` elements.
pub fn is_within_limits(plain: &Plain) -> bool
    ensures { result ≡ is_within_limits plain.now }
{
    has_short_texts(plain)
        && nesting(plain) <= MAX_ARRAY_DEPTH
        && elements(plain) <= MAX_REGION_ELEMENTS
}
