//! Writes of the body of one of the items of a region, whose frozen mark is handed in.
ghost use Rattle.std.specs.Prelude.{◌≡◌, ◌+◌, ◌-◌, ◌<◌, ◌==◌, ◌⊎◌, true, false, None, IsSome, IfOk, OnOk, OnErr, slice_get, remove, reverse, Some, length, is_none};
ghost use Rattle.std.specs.Option.{option_map_or};
ghost use Rattle.ob_items.specs.Bodies.{array_of, properties_of, box_of, hooks_of, kept_of, after_take, kept_from};
ghost use Rattle.ob_items.specs.Properties.{property, with_property};
ghost use Rattle.ob_items.specs.Columns.{read_at, remade};
ghost use Rattle.ob_items.specs.Items.{fault_of, element_fault, with_element, property_fault, frozen_fault, hook_fault};

use crate::{Body, Frame, HookError, Names, SetError, Taken, Value};
use ob_base::{List, MAX_HOOKS, MAX_REGION_ELEMENTS};
use std::alloc::Global;
use std::mem;

// Writes an element of an array, or appends one at its length. It answers whether it appended.
pub(crate) fn set_element(
    bodies: &mut Vec<Body>,
    at: usize,
    frozen: bool,
    index: usize,
    elements: u32,
    value: Value,
) -> Result<bool, SetError>
    requires { IsSome (read_at array_of bodies.old.items at) }
    ensures len { length bodies.new.items ≡ length bodies.old.items }
    ensures fault { (result ≡ Err SetError.NoMemory) ⊎ (fault_of result ≡ element_fault frozen (option_map_or length (read_at array_of bodies.old.items at) 0) index elements) }
    ensures memory { result ≡ Err SetError.NoMemory → index ≡ option_map_or length (read_at array_of bodies.old.items at) 0 }
    ensures grows { IfOk result (λ grows. grows ≡ (index == option_map_or length (read_at array_of bodies.old.items at) 0)) }
    ensures room { IfOk result (λ grows. grows ≡ true → elements < 50000) }
    ensures ok { OnOk result (bodies.new.items ≡ remade array_of (with_element index value) bodies.old.items at) }
    ensures err { OnErr result (bodies.new.items ≡ bodies.old.items) }
{
    if frozen {
        return Err(SetError::Frozen);
    }
    match &mut bodies[at] {
        Body::Array(values) => {
            let len = values.len();
            if index > len {
                return Err(SetError::PastEnd);
            }
            if index < len {
                values.set(index, value);
                return Ok(false);
            }
            if u64::from(elements) + 1 > MAX_REGION_ELEMENTS {
                return Err(SetError::HeapFull);
            }
            match values.push(value) {
                Ok(()) => Ok(true),
                Err(_) => Err(SetError::NoMemory),
            }
        }
        _ => unreachable!(),
    }
}

// Writes a property of an object. It answers whether the property is new.
pub(crate) fn set_property(
    alloc: Global,
    bodies: &mut Vec<Body>,
    names: &mut Names,
    at: usize,
    frozen: bool,
    key: &[u16],
    elements: u32,
    value: Value,
) -> Result<bool, SetError>
    requires { IsSome (read_at properties_of bodies.old.items at) }
    ensures len { length bodies.new.items ≡ length bodies.old.items }
    ensures fault { (result ≡ Err SetError.NoMemory) ⊎ (fault_of result ≡ property_fault frozen (option_map_or (λ ps. is_none (property ps key.now)) (read_at properties_of bodies.old.items at) false) elements) }
    ensures grows { IfOk result (λ grows. grows ≡ option_map_or (λ ps. is_none (property ps key.now)) (read_at properties_of bodies.old.items at) false) }
    ensures room { IfOk result (λ grows. grows ≡ true → elements < 50000) }
    ensures ok { OnOk result (bodies.new.items ≡ remade properties_of (λ ps. Body.Object (with_property ps key.now value)) bodies.old.items at) }
    ensures err { OnErr result (bodies.new.items ≡ bodies.old.items) }
{
    if frozen {
        return Err(SetError::Frozen);
    }
    match &mut bodies[at] {
        Body::Object(properties) => {
            let is_new = properties.get(key).is_none();
            if is_new && u64::from(elements) + 1 > MAX_REGION_ELEMENTS {
                return Err(SetError::HeapFull);
            }
            match properties.set(alloc, names, key, value) {
                Ok(()) => Ok(is_new),
                Err(_) => Err(SetError::NoMemory),
            }
        }
        _ => unreachable!(),
    }
}

// Gives a box a value.
pub(crate) fn fill_box(
    bodies: &mut Vec<Body>,
    at: usize,
    frozen: bool,
    value: Value,
) -> Result<(), SetError>
    requires { IsSome (read_at box_of bodies.old.items at) }
    ensures len { length bodies.new.items ≡ length bodies.old.items }
    ensures fault { fault_of result ≡ frozen_fault frozen }
    ensures ok { OnOk result (bodies.new.items ≡ remade box_of (λ _. Body.Box (Some value)) bodies.old.items at) }
    ensures err { OnErr result (bodies.new.items ≡ bodies.old.items) }
{
    if frozen {
        return Err(SetError::Frozen);
    }
    match &mut bodies[at] {
        Body::Box(binding) => {
            binding.put(value);
            Ok(())
        }
        _ => unreachable!(),
    }
}

// Takes an element out of an array; the later ones move down.
pub(crate) fn remove_element(
    bodies: &mut Vec<Body>,
    at: usize,
    frozen: bool,
    index: usize,
) -> Result<Option<Value>, SetError>
    requires { IsSome (read_at array_of bodies.old.items at) }
    ensures len { length bodies.new.items ≡ length bodies.old.items }
    ensures fault { fault_of result ≡ frozen_fault frozen }
    ensures value { IfOk result (λ value. value ≡ option_map_or (λ vs. slice_get vs index) (read_at array_of bodies.old.items at) None) }
    ensures ok { OnOk result (bodies.new.items ≡ remade array_of (λ vs. Body.Array (remove vs index)) bodies.old.items at) }
    ensures err { OnErr result (bodies.new.items ≡ bodies.old.items) }
{
    if frozen {
        return Err(SetError::Frozen);
    }
    match &mut bodies[at] {
        Body::Array(values) => Ok(take_element(values, index)),
        _ => unreachable!(),
    }
}

// Takes the last element out of an array.
pub(crate) fn remove_last(
    bodies: &mut Vec<Body>,
    at: usize,
    frozen: bool,
) -> Result<Option<Value>, SetError>
    requires { IsSome (read_at array_of bodies.old.items at) }
    ensures len { length bodies.new.items ≡ length bodies.old.items }
    ensures fault { fault_of result ≡ frozen_fault frozen }
    ensures value { IfOk result (λ value. value ≡ option_map_or (λ vs. slice_get vs (length vs - 1)) (read_at array_of bodies.old.items at) None) }
    ensures ok { OnOk result (bodies.new.items ≡ remade array_of (λ vs. Body.Array (remove vs (length vs - 1))) bodies.old.items at) }
    ensures err { OnErr result (bodies.new.items ≡ bodies.old.items) }
{
    if frozen {
        return Err(SetError::Frozen);
    }
    match &mut bodies[at] {
        Body::Array(values) => Ok(take_last(values)),
        _ => unreachable!(),
    }
}

fn take_last(values: &mut List<Value>) -> Option<Value>
    ensures value { result ≡ slice_get values.old (length values.old - 1) }
    ensures rest { values.new ≡ remove values.old (length values.old - 1) }
{
    let len = values.len();
    if len == 0 {
        return None;
    }
    take_element(values, len - 1)
}

fn take_element(values: &mut List<Value>, index: usize) -> Option<Value>
    ensures value { result ≡ slice_get values.old index }
    ensures rest { values.new ≡ remove values.old index }
{
    if index >= values.len() {
        return None;
    }
    Some(values.remove(index))
}

// Puts the elements of an array in the opposite order.
pub(crate) fn reverse_elements(
    alloc: Global,
    bodies: &mut Vec<Body>,
    at: usize,
    frozen: bool,
) -> Result<(), SetError>
    requires { IsSome (read_at array_of bodies.old.items at) }
    ensures len { length bodies.new.items ≡ length bodies.old.items }
    ensures fault { fault_of result ≡ frozen_fault frozen }
    ensures ok { OnOk result (bodies.new.items ≡ remade array_of (λ vs. Body.Array (reverse vs)) bodies.old.items at) }
    ensures err { OnErr result (bodies.new.items ≡ bodies.old.items) }
{
    if frozen {
        return Err(SetError::Frozen);
    }
    match &mut bodies[at] {
        Body::Array(values) => {
            turn_round(alloc, values);
            Ok(())
        }
        _ => unreachable!(),
    }
}

fn turn_round(alloc: Global, values: &mut List<Value>)
    ensures { values.new ≡ reverse values.old }
{
    let mut turned = mem::replace(values, List::new(alloc)).into_vec();
    turned.reverse();
    *values = List::from_vec(turned);
}

// Counts a hook of an invalidation object.
pub(crate) fn add_hook(bodies: &mut Vec<Body>, at: usize, frozen: bool) -> Result<(), HookError>
    requires { IsSome (read_at hooks_of bodies.old.items at) }
    ensures len { length bodies.new.items ≡ length bodies.old.items }
    ensures fault { fault_of result ≡ hook_fault frozen (option_map_or (λ n. n) (read_at hooks_of bodies.old.items at) 0) }
    ensures ok { OnOk result (bodies.new.items ≡ remade hooks_of (λ n. Body.Invalidation (n + 1)) bodies.old.items at) }
    ensures err { OnErr result (bodies.new.items ≡ bodies.old.items) }
{
    if frozen {
        return Err(HookError::Frozen);
    }
    match &mut bodies[at] {
        Body::Invalidation(hooks) => {
            if *hooks >= MAX_HOOKS {
                return Err(HookError::TooMany);
            }
            *hooks += 1;
            Ok(())
        }
        _ => unreachable!(),
    }
}

// Takes what a generator object keeps.
pub(crate) fn take_kept(bodies: &mut Vec<Body>, at: usize) -> Taken
    requires { IsSome (read_at kept_of bodies.old.items at) }
    ensures len { length bodies.new.items ≡ length bodies.old.items }
    ensures taken { read_at kept_of bodies.old.items at ≡ Some result }
    ensures left { bodies.new.items ≡ remade kept_of (λ kept. Body.Generator (after_take kept)) bodies.old.items at }
{
    match &mut bodies[at] {
        Body::Generator(suspended) => suspended.take(),
        _ => unreachable!(),
    }
}

// Gives a generator object a frame to keep, or its end.
pub(crate) fn put_kept(bodies: &mut Vec<Body>, at: usize, frame: Option<Frame>)
    requires { IsSome (read_at kept_of bodies.old.items at) }
    ensures len { length bodies.new.items ≡ length bodies.old.items }
    ensures put { bodies.new.items ≡ remade kept_of (λ _. Body.Generator (kept_from frame)) bodies.old.items at }
{
    match &mut bodies[at] {
        Body::Generator(suspended) => suspended.put(match frame {
            Some(frame) => Taken::Held(frame),
            None => Taken::Ended,
        }),
        _ => unreachable!(),
    }
}
