ghost use Rattle.std.specs.Prelude.{◌≡◌, ◌+◌, ◌-◌, ◌==◌, ◌⊎◌, ◌∷◌, ◌++◌, ◌<◌, ◌≤◌, [], false, length, IsSome, unwrap_or, IfOk, IfSome, OnOk, OnErr, slice_get, remove, reverse, Some, nat_lt};
ghost use Rattle.std.specs.Option.{option_map_or, option_copied};
ghost use Rattle.ob_items.specs.Bodies.{text_of, array_of, properties_of, box_of, hooks_of, kept_of, after_take, kept_from};
ghost use Rattle.ob_items.specs.Properties.{with_property};
ghost use Rattle.ob_items.specs.Items.{at_item, is_frozen_at, live, fault_of, count_at, is_new_at, element_fault, with_element, property_fault, frozen_fault, hook_fault, hooks_at};

use crate::columns::ItemColumns;
use crate::{
    Body, Frame, HookError, Names, Properties, SetError, SharedFunction, SharedFunctions, Taken,
    UnitsMap, Value,
};
use ob_base::{MAX_REGION_ELEMENTS, NoMemory, Units};
use std::alloc::Global;
use std::marker::Model;
use std::rc::Rc;

/// The items of a run, in the order of allocation, with the elements that they cost.
#[derive(Drop)]
pub struct Region {
    items: ItemColumns,
    elements: u32,
    literals: UnitsMap<usize>,
    functions: SharedFunctions,
    names: Names,
}

impl Model for Region {
    ghost use Rattle.ob_items.specs.Region.{Cells, IsRegion};

    ghost Value = { Cells };

    ghost view = { λ r. record { items = r.items; elements = r.elements; literals = r.literals } };

    ghost invariant = { λ r. IsRegion (record { items = r.items; elements = r.elements; literals = r.literals }) };
}

impl Region {
    ghost use Rattle.ob_items.specs.Region.{no_cells, with_item, rewritten, marked, literal_at, after_literal};

    /// The region of no item.
    pub fn new(alloc: Global) -> Region
        ensures { result ≡ no_cells }
    {
        Region {
            items: ItemColumns::new(alloc),
            elements: 0,
            literals: UnitsMap::new(alloc),
            functions: SharedFunctions::new(alloc),
            names: Names::new(alloc),
        }
    }

    /// The elements that the items cost together, at most 50,000.
    pub fn elements(&self) -> u32
        ensures value { result ≡ self.now.elements }
        ensures limit { result ≤ 50000 }
    {
        self.elements
    }

    /// Whether so many elements more are more than 50,000 together.
    pub fn is_full_for(&self, cost: usize) -> bool
        ensures { result ≡ nat_lt 50000 (self.now.elements + cost) }
    {
        cost > (MAX_REGION_ELEMENTS as u32 - self.elements) as usize
    }

    /// The body of the item at a place, from 0; none past the end.
    pub fn find(&self, at: usize) -> Option<&Body>
        ensures { option_copied result ≡ at_item Some self.now.items at }
    {
        self.items.find(at)
    }

    /// Whether the item at a place has the frozen mark.
    pub fn is_frozen(&self, at: usize) -> bool
        ensures { result ≡ is_frozen_at self.now.items at }
    {
        self.items.is_frozen(at)
    }

    /// Adds an item at the end, which isn't frozen and costs so many elements. It answers its place.
    ///
    /// # Errors
    /// `NoMemory` where an allocation is refused; the region is then as before.
    pub fn add(&mut self, body: Body, cost: u32) -> Result<usize, NoMemory>
        requires { self.old.elements + cost ≤ 50000 }
        ensures place { IfOk result (λ at. at ≡ length self.old.items) }
        ensures ok { OnOk result (self.new ≡ with_item self.old (live body) cost) }
        ensures err { OnErr result (self.new ≡ self.old) }
    {
        let at = self.items.len();
        match self.items.push(body) {
            Ok(()) => {
                self.elements += cost;
                Ok(at)
            }
            Err(refused) => Err(refused),
        }
    }

    /// Writes an element of an array, or appends one at its length.
    ///
    /// # Errors
    /// `Frozen`, `PastEnd`, `HeapFull`, in this order; `NoMemory` where an allocation is refused,
    /// which asks for none below the length. The region is then as before.
    pub fn set_element(&mut self, at: usize, index: usize, value: Value) -> Result<(), SetError>
        requires { IsSome (at_item array_of self.old.items at) }
        ensures fault { (result ≡ Err SetError.NoMemory) ⊎ (fault_of result ≡ element_fault (is_frozen_at self.old.items at) (count_at self.old.items at) index self.old.elements) }
        ensures memory { result ≡ Err SetError.NoMemory → index ≡ count_at self.old.items at }
        ensures ok { OnOk result (self.new ≡ rewritten array_of (with_element index value) self.old at (index == count_at self.old.items at)) }
        ensures err { OnErr result (self.new ≡ self.old) }
    {
        if self.items.set_element(at, index, self.elements, value)? {
            self.elements += 1;
        }
        Ok(())
    }

    /// Writes a property of an object.
    ///
    /// # Errors
    /// `Frozen`, `HeapFull`, in this order; `NoMemory` where an allocation is refused. The region is
    /// then as before.
    pub fn set_property(
        &mut self,
        alloc: Global,
        at: usize,
        key: &[u16],
        value: Value,
    ) -> Result<(), SetError>
        requires { IsSome (at_item properties_of self.old.items at) }
        ensures fault { (result ≡ Err SetError.NoMemory) ⊎ (fault_of result ≡ property_fault (is_frozen_at self.old.items at) (is_new_at self.old.items at key.now) self.old.elements) }
        ensures ok { OnOk result (self.new ≡ rewritten properties_of (λ ps. Body.Object (with_property ps key.now value)) self.old at (is_new_at self.old.items at key.now)) }
        ensures err { OnErr result (self.new ≡ self.old) }
    {
        let grows = self
            .items
            .set_property(alloc, &mut self.names, at, key, self.elements, value)?;
        if grows {
            self.elements += 1;
        }
        Ok(())
    }

    /// Writes a property of an object that is no item yet, with its name from those of the region.
    ///
    /// # Errors
    /// `NoMemory` where an allocation is refused; the properties are then as before.
    pub fn set_property_of(
        &mut self,
        alloc: Global,
        properties: &mut Properties,
        key: &[u16],
        value: Value,
    ) -> Result<(), NoMemory>
        ensures same { self.new ≡ self.old }
        ensures ok { OnOk result (properties.new ≡ with_property properties.old key.now value) }
        ensures err { OnErr result (properties.new ≡ properties.old) }
    {
        properties.set(alloc, &mut self.names, key, value)
    }

    /// Gives a box a value.
    ///
    /// # Errors
    /// `Frozen` where the box is frozen; it is then as before.
    pub fn fill_box(&mut self, at: usize, value: Value) -> Result<(), SetError>
        requires { IsSome (at_item box_of self.old.items at) }
        ensures fault { fault_of result ≡ frozen_fault (is_frozen_at self.old.items at) }
        ensures ok { OnOk result (self.new ≡ rewritten box_of (λ _. Body.Box (Some value)) self.old at false) }
        ensures err { OnErr result (self.new ≡ self.old) }
    {
        self.items.fill_box(at, value)
    }

    /// Takes an element out of an array; the later ones move down.
    ///
    /// # Errors
    /// `Frozen` where the array is frozen; it is then as before.
    pub fn remove_element(&mut self, at: usize, index: usize) -> Result<Option<Value>, SetError>
        requires { IsSome (at_item array_of self.old.items at) }
        ensures fault { fault_of result ≡ frozen_fault (is_frozen_at self.old.items at) }
        ensures value { IfOk result (λ value. value ≡ option_map_or (λ vs. slice_get vs index) (at_item array_of self.old.items at) None) }
        ensures ok { OnOk result (self.new ≡ rewritten array_of (λ vs. Body.Array (remove vs index)) self.old at false) }
        ensures err { OnErr result (self.new ≡ self.old) }
    {
        self.items.remove_element(at, index)
    }

    /// Takes the last element out of an array; none where it has none.
    ///
    /// # Errors
    /// `Frozen` where the array is frozen; it is then as before.
    pub fn remove_last(&mut self, at: usize) -> Result<Option<Value>, SetError>
        requires { IsSome (at_item array_of self.old.items at) }
        ensures fault { fault_of result ≡ frozen_fault (is_frozen_at self.old.items at) }
        ensures value { IfOk result (λ value. value ≡ option_map_or (λ vs. slice_get vs (length vs - 1)) (at_item array_of self.old.items at) None) }
        ensures ok { OnOk result (self.new ≡ rewritten array_of (λ vs. Body.Array (remove vs (length vs - 1))) self.old at false) }
        ensures err { OnErr result (self.new ≡ self.old) }
    {
        self.items.remove_last(at)
    }

    /// Puts the elements of an array in the opposite order. It takes no memory.
    ///
    /// # Errors
    /// `Frozen` where the array is frozen; it is then as before.
    pub fn reverse_elements(&mut self, alloc: Global, at: usize) -> Result<(), SetError>
        requires { IsSome (at_item array_of self.old.items at) }
        ensures fault { fault_of result ≡ frozen_fault (is_frozen_at self.old.items at) }
        ensures ok { OnOk result (self.new ≡ rewritten array_of (λ vs. Body.Array (reverse vs)) self.old at false) }
        ensures err { OnErr result (self.new ≡ self.old) }
    {
        self.items.reverse_elements(alloc, at)
    }

    /// Counts a hook of an invalidation object.
    ///
    /// # Errors
    /// `Frozen` where the object is frozen, else `TooMany` where 1,000 were counted; it is then as
    /// before.
    pub fn add_hook(&mut self, at: usize) -> Result<(), HookError>
        requires { IsSome (at_item hooks_of self.old.items at) }
        ensures fault { fault_of result ≡ hook_fault (is_frozen_at self.old.items at) (hooks_at self.old.items at) }
        ensures ok { OnOk result (self.new ≡ rewritten hooks_of (λ n. Body.Invalidation (n + 1)) self.old at false) }
        ensures err { OnErr result (self.new ≡ self.old) }
    {
        self.items.add_hook(at)
    }

    /// Takes what a generator object keeps. If that is a frame, the generator then runs.
    pub fn take_kept(&mut self, at: usize) -> Taken
        requires { IsSome (at_item kept_of self.old.items at) }
        ensures taken { at_item kept_of self.old.items at ≡ Some result }
        ensures left { self.new ≡ rewritten kept_of (λ kept. Body.Generator (after_take kept)) self.old at false }
    {
        self.items.take_kept(at)
    }

    /// Gives a generator object a frame to keep, or its end.
    pub fn put_kept(&mut self, at: usize, frame: Option<Frame>)
        requires { IsSome (at_item kept_of self.old.items at) }
        ensures { self.new ≡ rewritten kept_of (λ _. Body.Generator (kept_from frame)) self.old at false }
    {
        self.items.put_kept(at, frame)
    }

    /// The place of the one literal of these units: a text that costs no elements, made where there is
    /// none yet.
    ///
    /// # Errors
    /// `NoMemory` where an allocation is refused; the region is then as before.
    pub fn literal(&mut self, alloc: Global, units: &[u16]) -> Result<usize, NoMemory>
        ensures place { IfOk result (λ at. at ≡ unwrap_or (literal_at self.old units.now) (length self.old.items)) }
        ensures ok { OnOk result (self.new ≡ after_literal self.old units.now) }
        ensures text { IfOk result (λ at. at_item text_of self.new.items at ≡ Some units.now) }
        ensures err { OnErr result (self.new ≡ self.old) }
    {
        if let Some(at) = self.literals.get(units) {
            return Ok(at);
        }
        self.items.add_literal(alloc, &mut self.literals, units)
    }

    /// What the function values of the region with these parts share. The items are as before.
    ///
    /// # Errors
    /// `NoMemory` where an allocation is refused.
    pub fn share(
        &mut self,
        alloc: Global,
        function: SharedFunction,
    ) -> Result<Rc<SharedFunction>, NoMemory>
        ensures value { IfOk result (λ shared. shared.value ≡ function) }
        ensures kept { self.new ≡ self.old }
    {
        self.functions.share(alloc, function)
    }

    /// Gives an item the frozen mark, if it is there.
    pub fn mark(&mut self, at: usize)
        ensures { self.new ≡ marked self.old at }
    {
        self.items.mark(at)
    }
}
