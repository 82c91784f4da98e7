//! Regions: opening, closing, and what is read of an item.
ghost use Rattle.std.specs.Prelude.{◌≡◌, ◌≢◌, ◌≤◌, [], IsSome, IfSome, OnErr, IfOk, Some, None, slice_set, option_map};
ghost use Rattle.std.specs.Option.{option_copied};
ghost use Rattle.ob_items.specs.Bodies.{kind_of, text_of, elements_of, properties_of, box_of, closure_of, message_of_error};
ghost use Rattle.ob_items.specs.Properties.{property};
ghost use Rattle.ob_items.specs.Region.{no_cells};
ghost use Rattle.ob_items.specs.declared.value.Ref.{Ref as TheRef};
ghost use Rattle.ob_values.specs.Fixed.{KeepsFixed, KeepsFixedAt};
ghost use Rattle.ob_values.specs.Sound.{KeepsSound, KeepsOutside};
ghost use Rattle.ob_values.specs.Store.{region_of, IsOpen, item_of, body_of, read_item, is_frozen, elements_in, Updates, element};

use ob_base::{List, NoMemory, Units};
use ob_items::{Body, CodeKey, FunctionValue, Kind, Ref, Region, RegionKey, Value};
use slab::Slab;
use std::alloc::Global;
use std::marker::Model;

mod ask;
mod make;

pub use make::text_elements;

mod write;

/// Regions of items, by key.
#[derive(Drop)]
pub struct Regions {
    alloc: Global,
    slots: Slab<Region>,
}

impl Model for Regions {
    ghost use Rattle.ob_values.specs.Store.{Store};

    ghost Value = { Store };

    ghost view = { λ r. r.slots.slots };
}

impl Regions {
    /// No region. All memory comes from this allocator.
    pub fn new(alloc: Global) -> Regions
        ensures { result ≡ [] }
    {
        Regions {
            alloc,
            slots: Slab::new(alloc),
        }
    }

    pub(crate) fn alloc(&self) -> Global {
        self.alloc
    }

    /// Opens a region of no item.
    ///
    /// # Errors
    /// `NoMemory` where an allocation is refused; all is then as before.
    pub fn open(&mut self) -> Result<RegionKey, NoMemory>
        ensures fresh { IfOk result (λ key. region_of self.old key.0 ≡ None) }
        ensures opened { IfOk result (λ key. Updates self.old self.new key.0 (Some no_cells)) }
        ensures err { OnErr result (self.new ≡ self.old) }
        ensures kept { KeepsSound self.old self.new [] }
        ensures fixed { KeepsFixed self.old self.new }
    {
        self.insert_region()
    }

    fn insert_region(&mut self) -> Result<RegionKey, NoMemory>
        ensures fresh { IfOk result (λ key. region_of self.old key.0 ≡ None) }
        ensures opened { IfOk result (λ key. Updates self.old self.new key.0 (Some no_cells)) }
        ensures err { OnErr result (self.new ≡ self.old) }
    {
        match self.slots.insert(Region::new(self.alloc)) {
            Ok(key) => Ok(RegionKey(key)),
            Err(_) => Err(NoMemory),
        }
    }

    /// Closes a region, and leaves all others as they are. It takes no memory.
    pub fn close(&mut self, region: RegionKey)
        requires { IsOpen self.old region }
        ensures closed { self.new ≡ slice_set self.old region.0 None }
        ensures kept { KeepsOutside self.old self.new region }
        ensures fixed { (r : TheRef) → r.region.0 ≢ region.0 → KeepsFixedAt self.old self.new r }
    {
        self.remove_region(region);
    }

    fn remove_region(&mut self, region: RegionKey)
        requires { IsOpen self.old region }
        ensures { self.new ≡ slice_set self.old region.0 None }
    {
        let _ = self.slots.try_remove(region.0);
    }

    /// The elements that a region's items cost, at most 50,000.
    pub fn elements(&self, region: RegionKey) -> u32
        requires { IsOpen self.now region }
        ensures value { result ≡ elements_in self.now region }
        ensures limit { result ≤ 50000 }
    {
        match self.slots.get(region.0) {
            Some(region) => region.elements(),
            None => unreachable!(),
        }
    }

    /// The body of the item that a reference points to, if it is there.
    pub fn find(&self, r: Ref) -> Option<&Body>
        ensures { option_copied result ≡ body_of self.now r }
    {
        match self.slots.get(r.region.0) {
            Some(region) => region.find(r.item),
            None => None,
        }
    }

    /// The kind of an item. It takes no memory.
    pub fn kind(&self, r: Ref) -> Kind
        requires { IsSome (item_of self.now r) }
        ensures { option_map (λ item. kind_of item.body) (item_of self.now r) ≡ Some result }
    {
        match self.find(r) {
            Some(body) => kind_of(body),
            None => unreachable!(),
        }
    }

    /// Whether an item has the frozen mark. It takes no memory.
    pub fn is_frozen(&self, r: Ref) -> bool
        requires { IsSome (item_of self.now r) }
        ensures { result ≡ is_frozen self.now r }
    {
        match self.slots.get(r.region.0) {
            Some(region) => region.is_frozen(r.item),
            None => unreachable!(),
        }
    }

    /// The element of an array at an index, from 0, and undefined outside. It takes no memory.
    pub fn get_index(&self, r: Ref, index: i64) -> Value
        requires { IsSome (read_item elements_of self.now r) }
        ensures { IfSome (read_item elements_of self.now r) (λ values. result ≡ element values index) }
    {
        match self.find(r) {
            Some(body) => match body {
                Body::Array(values) | Body::Inputs(values) => element_at(values, index),
                _ => unreachable!(),
            },
            None => unreachable!(),
        }
    }

    /// The property of an object at a key; none where it has no such key. It takes no memory.
    pub fn get_key(&self, r: Ref, key: &Units) -> Option<Value>
        requires { IsSome (read_item properties_of self.now r) }
        ensures { IfSome (read_item properties_of self.now r) (λ properties. result ≡ property properties key.now) }
    {
        match self.find(r) {
            Some(body) => match body {
                Body::Object(properties) => properties.get(key.as_slice()),
                _ => unreachable!(),
            },
            None => unreachable!(),
        }
    }

    /// What a box holds; none before its declaration has run. It takes no memory.
    pub fn get_box(&self, r: Ref) -> Option<Value>
        requires { IsSome (read_item box_of self.now r) }
        ensures { read_item box_of self.now r ≡ Some result }
    {
        match self.find(r) {
            Some(body) => match body {
                Body::Box(binding) => binding.get(),
                _ => unreachable!(),
            },
            None => unreachable!(),
        }
    }

    /// The units of a text.
    pub fn text(&self, r: Ref) -> &[u16]
        requires { IsSome (read_item text_of self.now r) }
        ensures { read_item text_of self.now r ≡ Some result.now }
    {
        match self.find(r) {
            Some(body) => match body {
                Body::Text(units) => units.as_slice(),
                _ => unreachable!(),
            },
            None => unreachable!(),
        }
    }

    /// The text of an error's message.
    pub fn error_message(&self, r: Ref) -> Ref
        requires { IsSome (read_item message_of_error self.now r) }
        ensures { read_item message_of_error self.now r ≡ Some result }
    {
        match self.find(r) {
            Some(body) => match body {
                Body::Error(_, message) => *message,
                _ => unreachable!(),
            },
            None => unreachable!(),
        }
    }

    fn closure(&self, r: Ref) -> &FunctionValue
        requires { IsSome (read_item closure_of self.now r) }
        ensures { read_item closure_of self.now r ≡ Some result.now }
    {
        match self.find(r) {
            Some(body) => match body {
                Body::Closure(closure) => closure,
                _ => unreachable!(),
            },
            None => unreachable!(),
        }
    }

    /// The code of a function value.
    pub fn closure_code(&self, r: Ref) -> CodeKey
        requires { IsSome (read_item closure_of self.now r) }
        ensures { option_map (λ closure. closure.code) (read_item closure_of self.now r) ≡ Some result }
    {
        self.closure(r).code()
    }

    /// The boxes of a function value.
    pub fn closure_boxes(&self, r: Ref) -> &[Ref]
        requires { IsSome (read_item closure_of self.now r) }
        ensures { option_map (λ closure. closure.boxes) (read_item closure_of self.now r) ≡ Some result.now }
    {
        self.closure(r).boxes()
    }

    /// The array of the inputs of a function value.
    pub fn closure_inputs(&self, r: Ref) -> Ref
        requires { IsSome (read_item closure_of self.now r) }
        ensures { option_map (λ closure. closure.inputs) (read_item closure_of self.now r) ≡ Some result }
    {
        self.closure(r).inputs()
    }
}

fn kind_of(body: &Body) -> Kind
    ensures { result ≡ kind_of body.now }
{
    match body {
        Body::Text(_) => Kind::Text,
        Body::Array(_) | Body::Inputs(_) => Kind::Array,
        Body::Object(_) => Kind::Object,
        Body::Box(_) => Kind::Box,
        Body::Closure(_) => Kind::Closure,
        Body::Generator(_) => Kind::Generator,
        Body::Error(kind, _) => Kind::Error(*kind),
        Body::Invalidation(_) => Kind::Invalidation,
    }
}

fn element_at(values: &List<Value>, index: i64) -> Value
    ensures { result ≡ element values.now index }
{
    if index < 0 {
        return Value::Undefined;
    }
    match values.get(index as usize) {
        Some(value) => *value,
        None => Value::Undefined,
    }
}
