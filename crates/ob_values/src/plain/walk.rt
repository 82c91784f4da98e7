//! Whether a value unfolds to few elements.
ghost use Rattle.std.specs.Prelude.{◌≡◌, ◌+◌, ◌++◌, ◌∷◌, [], ◌≤◌, not, nat_lt, length, OnOk, IfOk, IfSome, IfNone, OnSome, if◌then◌else◌, Some, None, ◌<◌};
ghost use Rattle.ob_values.specs.PlainOf.{is_large, parts_of, own_elements, elements_at, items_in};
ghost use Rattle.ob_values.specs.Freeze.{refs_of};
ghost use Rattle.ob_values.specs.PlainSearch.{within};

use crate::plain::add_refs;
use crate::regions::{Regions, text_elements};
use ob_base::{List, MAX_REGION_ELEMENTS, NoMemory};
use ob_items::{Body, Ref, Value};
use std::alloc::Global;

// Whether the tree of a value has at most 50,000 elements. It walks no more of the tree than that,
// whatever is shared or cyclic.
pub(super) fn is_small(alloc: Global, regions: &Regions, value: Value) -> Result<bool, NoMemory>
    ensures { IfOk result (λ small. small ≡ not (is_large regions.now value)) }
{
    let mut waiting = List::new(alloc);
    add_refs(&mut waiting, &[value])?;
    let mut used: usize = 0;
    while let Some(r) = waiting.pop() {
        let room = MAX_REGION_ELEMENTS as usize - used;
        match add_items(alloc, regions, r, room, &mut waiting)? {
            Some(cost) => used += cost,
            None => return Ok(false),
        }
    }
    Ok(true)
}

// Adds what stands in an item to the list, and answers its own elements; none where there is no room
// for them.
fn add_items(
    alloc: Global,
    regions: &Regions,
    r: Ref,
    room: usize,
    waiting: &mut List<Ref>,
) -> Result<Option<usize>, NoMemory>
    ensures cost { IfOk result (λ cost. cost ≡ within room (elements_at regions.now r)) }
    ensures items { IfOk result (λ cost. OnSome cost (waiting.new ≡ waiting.old ++ items_in regions.now r)) }
{
    match regions.find(r) {
        Some(body) => add_inside(alloc, body, room, waiting),
        None => Ok(Some(0)),
    }
}

fn add_inside(
    alloc: Global,
    body: &Body,
    room: usize,
    waiting: &mut List<Ref>,
) -> Result<Option<usize>, NoMemory>
    ensures cost { IfOk result (λ cost. cost ≡ within room (own_elements body.now)) }
    ensures items { IfOk result (λ cost. OnSome cost (waiting.new ≡ waiting.old ++ refs_of (parts_of body.now))) }
{
    match body {
        Body::Text(units) => Ok(within(room, text_elements(units.as_slice().len()))),
        Body::Array(values) => add_parts(values.as_slice(), room, waiting),
        Body::Object(properties) => {
            let values = properties.values(alloc)?;
            add_parts(values.as_slice(), room, waiting)
        }
        _ => Ok(Some(0)),
    }
}

fn add_parts(
    values: &[Value],
    room: usize,
    waiting: &mut List<Ref>,
) -> Result<Option<usize>, NoMemory>
    ensures cost { IfOk result (λ cost. cost ≡ within room (1 + length values.now)) }
    ensures items { IfOk result (λ cost. OnSome cost (waiting.new ≡ waiting.old ++ refs_of values.now)) }
{
    match within(room, 1 + values.len()) {
        Some(cost) => {
            add_refs(waiting, values)?;
            Ok(Some(cost))
        }
        None => Ok(None),
    }
}

// The cost, if there is room for it.
fn within(room: usize, cost: usize) -> Option<usize>
    ensures { result ≡ within room cost }
{
    if cost > room { None } else { Some(cost) }
}
