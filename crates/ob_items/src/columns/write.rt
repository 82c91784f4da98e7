//! Writes of one of the items of a region.
ghost use Rattle.std.specs.Prelude.{◌≡◌, ◌+◌, ◌-◌, ◌<◌, ◌==◌, ◌⊎◌, true, IsSome, IfOk, OnOk, OnErr, slice_get, remove, reverse, Some, length};
ghost use Rattle.std.specs.Option.{option_map_or};
ghost use Rattle.ob_items.specs.Bodies.{array_of, properties_of, box_of, hooks_of, kept_of, after_take, kept_from};
ghost use Rattle.ob_items.specs.Properties.{with_property};
ghost use Rattle.ob_items.specs.Items.{at_item, is_frozen_at, changed, fault_of, count_at, is_new_at, element_fault, with_element, property_fault, frozen_fault, hook_fault, hooks_at};

use crate::columns::ItemColumns;
use crate::{Body, Frame, HookError, Names, SetError, Taken, Value, writes};
use std::alloc::Global;

impl ItemColumns {
    // Writes an element of an array, or appends one at its length. It answers whether it appended.
    pub(crate) fn set_element(
        &mut self,
        at: usize,
        index: usize,
        elements: u32,
        value: Value,
    ) -> Result<bool, SetError>
        requires { IsSome (at_item array_of self.old at) }
        ensures fault { (result ≡ Err SetError.NoMemory) ⊎ (fault_of result ≡ element_fault (is_frozen_at self.old at) (count_at self.old at) index elements) }
        ensures memory { result ≡ Err SetError.NoMemory → index ≡ count_at self.old at }
        ensures grows { IfOk result (λ grows. grows ≡ (index == count_at self.old at)) }
        ensures room { IfOk result (λ grows. grows ≡ true → elements < 50000) }
        ensures ok { OnOk result (self.new ≡ changed array_of (with_element index value) self.old at) }
        ensures err { OnErr result (self.new ≡ self.old) }
    {
        let frozen = self.is_frozen(at);
        writes::set_element(&mut self.bodies, at, frozen, index, elements, value)
    }

    // Writes a property of an object. It answers whether the property is new.
    pub(crate) fn set_property(
        &mut self,
        alloc: Global,
        names: &mut Names,
        at: usize,
        key: &[u16],
        elements: u32,
        value: Value,
    ) -> Result<bool, SetError>
        requires { IsSome (at_item properties_of self.old at) }
        ensures fault { (result ≡ Err SetError.NoMemory) ⊎ (fault_of result ≡ property_fault (is_frozen_at self.old at) (is_new_at self.old at key.now) elements) }
        ensures grows { IfOk result (λ grows. grows ≡ is_new_at self.old at key.now) }
        ensures room { IfOk result (λ grows. grows ≡ true → elements < 50000) }
        ensures ok { OnOk result (self.new ≡ changed properties_of (λ ps. Body.Object (with_property ps key.now value)) self.old at) }
        ensures err { OnErr result (self.new ≡ self.old) }
    {
        let frozen = self.is_frozen(at);
        writes::set_property(
            alloc,
            &mut self.bodies,
            names,
            at,
            frozen,
            key,
            elements,
            value,
        )
    }

    // Gives a box a value.
    pub(crate) fn fill_box(&mut self, at: usize, value: Value) -> Result<(), SetError>
        requires { IsSome (at_item box_of self.old at) }
        ensures fault { fault_of result ≡ frozen_fault (is_frozen_at self.old at) }
        ensures ok { OnOk result (self.new ≡ changed box_of (λ _. Body.Box (Some value)) self.old at) }
        ensures err { OnErr result (self.new ≡ self.old) }
    {
        let frozen = self.is_frozen(at);
        writes::fill_box(&mut self.bodies, at, frozen, value)
    }

    // Takes an element out of an array; the later ones move down.
    pub(crate) fn remove_element(
        &mut self,
        at: usize,
        index: usize,
    ) -> Result<Option<Value>, SetError>
        requires { IsSome (at_item array_of self.old at) }
        ensures fault { fault_of result ≡ frozen_fault (is_frozen_at self.old at) }
        ensures value { IfOk result (λ value. value ≡ option_map_or (λ vs. slice_get vs index) (at_item array_of self.old at) None) }
        ensures ok { OnOk result (self.new ≡ changed array_of (λ vs. Body.Array (remove vs index)) self.old at) }
        ensures err { OnErr result (self.new ≡ self.old) }
    {
        let frozen = self.is_frozen(at);
        writes::remove_element(&mut self.bodies, at, frozen, index)
    }

    // Takes the last element out of an array.
    pub(crate) fn remove_last(&mut self, at: usize) -> Result<Option<Value>, SetError>
        requires { IsSome (at_item array_of self.old at) }
        ensures fault { fault_of result ≡ frozen_fault (is_frozen_at self.old at) }
        ensures value { IfOk result (λ value. value ≡ option_map_or (λ vs. slice_get vs (length vs - 1)) (at_item array_of self.old at) None) }
        ensures ok { OnOk result (self.new ≡ changed array_of (λ vs. Body.Array (remove vs (length vs - 1))) self.old at) }
        ensures err { OnErr result (self.new ≡ self.old) }
    {
        let frozen = self.is_frozen(at);
        writes::remove_last(&mut self.bodies, at, frozen)
    }

    // Puts the elements of an array in the opposite order.
    pub(crate) fn reverse_elements(&mut self, alloc: Global, at: usize) -> Result<(), SetError>
        requires { IsSome (at_item array_of self.old at) }
        ensures fault { fault_of result ≡ frozen_fault (is_frozen_at self.old at) }
        ensures ok { OnOk result (self.new ≡ changed array_of (λ vs. Body.Array (reverse vs)) self.old at) }
        ensures err { OnErr result (self.new ≡ self.old) }
    {
        let frozen = self.is_frozen(at);
        writes::reverse_elements(alloc, &mut self.bodies, at, frozen)
    }

    // Counts a hook of an invalidation object.
    pub(crate) fn add_hook(&mut self, at: usize) -> Result<(), HookError>
        requires { IsSome (at_item hooks_of self.old at) }
        ensures fault { fault_of result ≡ hook_fault (is_frozen_at self.old at) (hooks_at self.old at) }
        ensures ok { OnOk result (self.new ≡ changed hooks_of (λ n. Body.Invalidation (n + 1)) self.old at) }
        ensures err { OnErr result (self.new ≡ self.old) }
    {
        let frozen = self.is_frozen(at);
        writes::add_hook(&mut self.bodies, at, frozen)
    }

    // Takes what a generator object keeps.
    pub(crate) fn take_kept(&mut self, at: usize) -> Taken
        requires { IsSome (at_item kept_of self.old at) }
        ensures taken { at_item kept_of self.old at ≡ Some result }
        ensures left { self.new ≡ changed kept_of (λ kept. Body.Generator (after_take kept)) self.old at }
    {
        writes::take_kept(&mut self.bodies, at)
    }

    // Gives a generator object a frame to keep, or its end.
    pub(crate) fn put_kept(&mut self, at: usize, frame: Option<Frame>)
        requires { IsSome (at_item kept_of self.old at) }
        ensures { self.new ≡ changed kept_of (λ _. Body.Generator (kept_from frame)) self.old at }
    {
        writes::put_kept(&mut self.bodies, at, frame)
    }
}
