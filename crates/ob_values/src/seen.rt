ghost use Rattle.std.specs.Prelude.{◌≡◌, ◌<◌, ◌^◌, ◌∷◌, [], length, OnOk, OnErr, slice_get, Some};
ghost use Rattle.std.specs.List.{list_any};
ghost use Rattle.ob_values.specs.Values.{ref_eq};
ghost use Rattle.ob_items.specs.Properties.{values_of};
ghost use Rattle.ob_values.specs.Freeze.{with_ref, with_refs, refs_of, option_list, frozen_with};

use indexmap::IndexSet;
use ob_base::NoMemory;
use ob_items::{Body, Properties, Ref, Value};
use std::alloc::Global;
use std::marker::Model;

/// References in the order in which a search met them, each once.
#[derive(Drop)]
pub struct Seen {
    set: IndexSet<Ref>,
}

impl Model for Seen {
    ghost use Rattle.std.specs.Prelude.{List};
    ghost use Rattle.ob_items.specs.declared.value.Ref.{Ref as TheRef};

    ghost Value = { List TheRef };

    ghost view = { λ s. s.set.keys };
}

impl Seen {
    pub fn new(alloc: Global) -> Seen
        ensures { result ≡ [] }
    {
        Seen {
            set: IndexSet::new(alloc),
        }
    }

    pub fn len(&self) -> usize
        ensures value { result ≡ length self.now }
        ensures small { result < 2 ^ 63 }
    {
        self.set.len()
    }

    pub fn at(&self, at: usize) -> Ref
        requires { at < length self.now }
        ensures { slice_get self.now at ≡ Some result }
    {
        match self.set.get_index(at) {
            Some(r) => *r,
            None => unreachable!(),
        }
    }

    pub fn contains(&self, r: Ref) -> bool
        ensures { result ≡ list_any (ref_eq r) self.now }
    {
        self.set.contains(&r)
    }

    pub fn add(&mut self, r: Ref) -> Result<(), NoMemory>
        ensures ok { OnOk result (self.new ≡ with_ref self.old r) }
        ensures small { OnOk result (length self.new < 2 ^ 63) }
        ensures err { OnErr result (self.new ≡ self.old) }
    {
        match self.set.insert(r) {
            Ok(_) => {
                let _ = self.set.len();
                Ok(())
            }
            Err(_) => Err(NoMemory),
        }
    }
}

pub fn add_value(seen: &mut Seen, value: Value) -> Result<(), NoMemory>
    ensures { OnOk result (seen.new ≡ with_refs seen.old (refs_of (value ∷ []))) }
{
    match value {
        Value::Ref(r) => seen.add(r),
        _ => Ok(()),
    }
}

fn add_values(seen: &mut Seen, values: &[Value]) -> Result<(), NoMemory>
    ensures { OnOk result (seen.new ≡ with_refs seen.old (refs_of values.now)) }
{
    for value in values {
        add_value(seen, *value)?;
    }
    Ok(())
}

fn add_refs(seen: &mut Seen, refs: &[Ref]) -> Result<(), NoMemory>
    ensures { OnOk result (seen.new ≡ with_refs seen.old refs.now) }
{
    for r in refs {
        seen.add(*r)?;
    }
    Ok(())
}

fn add_option(seen: &mut Seen, value: Option<Value>) -> Result<(), NoMemory>
    ensures { OnOk result (seen.new ≡ with_refs seen.old (refs_of (option_list value))) }
{
    match value {
        Some(value) => add_value(seen, value),
        None => Ok(()),
    }
}

fn add_properties(alloc: Global, seen: &mut Seen, properties: &Properties) -> Result<(), NoMemory>
    ensures { OnOk result (seen.new ≡ with_refs seen.old (refs_of (values_of properties.now))) }
{
    let values = properties.values(alloc)?;
    add_values(seen, values.as_slice())
}

fn add_closure(seen: &mut Seen, boxes: &[Ref], invalidation: Option<Ref>) -> Result<(), NoMemory>
    ensures { OnOk result (seen.new ≡ with_refs (with_refs seen.old boxes.now) (option_list invalidation)) }
{
    add_refs(seen, boxes)?;
    match invalidation {
        Some(r) => seen.add(r),
        None => Ok(()),
    }
}

/// Adds what freezing an item freezes with it.
pub fn add_inside(alloc: Global, seen: &mut Seen, body: &Body) -> Result<(), NoMemory>
    ensures { OnOk result (seen.new ≡ with_refs seen.old (frozen_with body.now)) }
{
    match body {
        Body::Array(values) => add_values(seen, values.as_slice()),
        Body::Object(properties) => add_properties(alloc, seen, properties),
        Body::Box(binding) => add_option(seen, binding.get()),
        Body::Closure(closure) => add_closure(seen, closure.boxes(), closure.invalidation()),
        _ => Ok(()),
    }
}
