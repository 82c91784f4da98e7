//! The calls that write an item.
ghost use Rattle.std.specs.Prelude.{◌≡◌, ◌≢◌, ◌+◌, ◌-◌, ◌∷◌, [], ◌⊎◌, ◌==◌, false, IsSome, OnOk, OnErr, IfOk, Some, slice_get, pos, ◌≤ℤ◌, length, remove, reverse, unsigned_abs};
ghost use Rattle.std.specs.Option.{option_map_or};
ghost use Rattle.ob_items.specs.Bodies.{array_of, properties_of, box_of, hooks_of, kept_of, after_take, kept_from};
ghost use Rattle.ob_items.specs.Items.{fault_of, element_fault, property_fault, frozen_fault, hook_fault, with_element};
ghost use Rattle.ob_items.specs.Properties.{with_property};
ghost use Rattle.ob_items.specs.declared.value.Ref.{Ref as TheRef};
ghost use Rattle.ob_values.specs.Fixed.{KeepsFixed, KeepsFixedAt};
ghost use Rattle.ob_values.specs.Sound.{KeepsSound, pointers_of, pointers_of_kept};
ghost use Rattle.ob_values.specs.Store.{read_item, is_frozen, elements_in, written, with_mark, count_in, is_new_in, hooks_in};

use crate::regions::Regions;
use ob_base::Units;
use ob_items::{Body, Frame, HookError, Ref, SetError, Taken, Value};

impl Regions {
    /// Writes the element of an array at an index, or appends one at its length.
    ///
    /// # Errors
    /// In this order: `Frozen` where the array is frozen, `PastEnd` where the index is past its length,
    /// `HeapFull` where it appends and the region has 50,000 elements; `NoMemory` where an allocation
    /// is refused, which below the length asks for none. All is then as before.
    pub fn set_index(&mut self, r: Ref, index: i64, value: Value) -> Result<(), SetError>
        requires array { IsSome (read_item array_of self.old r) }
        requires index { pos 0 ≤ℤ index }
        ensures fault { (result ≡ Err SetError.NoMemory) ⊎ (fault_of result ≡ element_fault (is_frozen self.old r) (count_in self.old r) (unsigned_abs index) (elements_in self.old r.region)) }
        ensures memory { result ≡ Err SetError.NoMemory → unsigned_abs index ≡ count_in self.old r }
        ensures ok { OnOk result (self.new ≡ written array_of (with_element (unsigned_abs index) value) self.old r (unsigned_abs index == count_in self.old r)) }
        ensures err { OnErr result (self.new ≡ self.old) }
        ensures kept { KeepsSound self.old self.new (pointers_of (value ∷ [])) }
        ensures fixed { KeepsFixed self.old self.new }
    {
        self.write_element(r, index as usize, value)
    }

    fn write_element(&mut self, r: Ref, index: usize, value: Value) -> Result<(), SetError>
        requires { IsSome (read_item array_of self.old r) }
        ensures fault { (result ≡ Err SetError.NoMemory) ⊎ (fault_of result ≡ element_fault (is_frozen self.old r) (count_in self.old r) index (elements_in self.old r.region)) }
        ensures memory { result ≡ Err SetError.NoMemory → index ≡ count_in self.old r }
        ensures ok { OnOk result (self.new ≡ written array_of (with_element index value) self.old r (index == count_in self.old r)) }
        ensures err { OnErr result (self.new ≡ self.old) }
    {
        match self.slots.get_mut(r.region.0) {
            Some(region) => region.set_element(r.item, index, value),
            None => unreachable!(),
        }
    }

    /// Writes the property of an object at a key. A key that is there keeps its place.
    ///
    /// # Errors
    /// In this order: `Frozen` where the object is frozen, `HeapFull` where the key is new and the
    /// region has 50,000 elements; `NoMemory` where an allocation is refused. All is then as before.
    pub fn set_key(&mut self, r: Ref, key: &Units, value: Value) -> Result<(), SetError>
        requires { IsSome (read_item properties_of self.old r) }
        ensures fault { (result ≡ Err SetError.NoMemory) ⊎ (fault_of result ≡ property_fault (is_frozen self.old r) (is_new_in self.old r key.now) (elements_in self.old r.region)) }
        ensures ok { OnOk result (self.new ≡ written properties_of (λ ps. Body.Object (with_property ps key.now value)) self.old r (is_new_in self.old r key.now)) }
        ensures err { OnErr result (self.new ≡ self.old) }
        ensures kept { KeepsSound self.old self.new (pointers_of (value ∷ [])) }
        ensures fixed { KeepsFixed self.old self.new }
    {
        self.write_key(r, key, value)
    }

    /// Gives a box a value. It takes no memory.
    ///
    /// # Errors
    /// `Frozen` exactly where the box is frozen; all is then as before.
    pub fn set_box(&mut self, r: Ref, value: Value) -> Result<(), SetError>
        requires { IsSome (read_item box_of self.old r) }
        ensures fault { fault_of result ≡ frozen_fault (is_frozen self.old r) }
        ensures ok { OnOk result (self.new ≡ written box_of (λ _. Body.Box (Some value)) self.old r false) }
        ensures err { OnErr result (self.new ≡ self.old) }
        ensures kept { KeepsSound self.old self.new (pointers_of (value ∷ [])) }
        ensures fixed { KeepsFixed self.old self.new }
    {
        self.write_box(r, value)
    }

    /// Takes the element of an array at an index, from 0; the later ones move down. It answers none
    /// outside. It takes no memory, and the region's elements stay.
    ///
    /// # Errors
    /// `Frozen` exactly where the array is frozen; all is then as before.
    pub fn remove_index(&mut self, r: Ref, index: u32) -> Result<Option<Value>, SetError>
        requires { IsSome (read_item array_of self.old r) }
        ensures fault { fault_of result ≡ frozen_fault (is_frozen self.old r) }
        ensures value { IfOk result (λ value. value ≡ option_map_or (λ values. slice_get values index) (read_item array_of self.old r) None) }
        ensures ok { OnOk result (self.new ≡ written array_of (λ values. Body.Array (remove values index)) self.old r false) }
        ensures err { OnErr result (self.new ≡ self.old) }
        ensures kept { KeepsSound self.old self.new ([]) }
        ensures fixed { KeepsFixed self.old self.new }
    {
        self.write_removal(r, index)
    }

    /// Takes the last element of an array; none where it has none. It takes no memory, and the region's
    /// elements stay.
    ///
    /// # Errors
    /// `Frozen` exactly where the array is frozen; all is then as before.
    pub fn remove_last(&mut self, r: Ref) -> Result<Option<Value>, SetError>
        requires { IsSome (read_item array_of self.old r) }
        ensures fault { fault_of result ≡ frozen_fault (is_frozen self.old r) }
        ensures value { IfOk result (λ value. value ≡ option_map_or (λ values. slice_get values (length values - 1)) (read_item array_of self.old r) None) }
        ensures ok { OnOk result (self.new ≡ written array_of (λ values. Body.Array (remove values (length values - 1))) self.old r false) }
        ensures err { OnErr result (self.new ≡ self.old) }
        ensures kept { KeepsSound self.old self.new ([]) }
        ensures fixed { KeepsFixed self.old self.new }
    {
        self.write_last_removal(r)
    }

    /// Puts the elements of an array in the opposite order. It takes no memory.
    ///
    /// # Errors
    /// `Frozen` exactly where the array is frozen; all is then as before.
    pub fn reverse(&mut self, r: Ref) -> Result<(), SetError>
        requires { IsSome (read_item array_of self.old r) }
        ensures fault { fault_of result ≡ frozen_fault (is_frozen self.old r) }
        ensures ok { OnOk result (self.new ≡ written array_of (λ values. Body.Array (reverse values)) self.old r false) }
        ensures err { OnErr result (self.new ≡ self.old) }
        ensures kept { KeepsSound self.old self.new ([]) }
        ensures fixed { KeepsFixed self.old self.new }
    {
        self.write_reversal(r)
    }

    /// Counts a hook of an invalidation object. It takes no memory.
    ///
    /// # Errors
    /// `Frozen` exactly where the object is frozen, else `TooMany` exactly where 1,000 were counted; all
    /// is then as before.
    pub fn count_hook(&mut self, r: Ref) -> Result<(), HookError>
        requires { IsSome (read_item hooks_of self.old r) }
        ensures fault { fault_of result ≡ hook_fault (is_frozen self.old r) (hooks_in self.old r) }
        ensures ok { OnOk result (self.new ≡ written hooks_of (λ hooks. Body.Invalidation (hooks + 1)) self.old r false) }
        ensures err { OnErr result (self.new ≡ self.old) }
        ensures kept { KeepsSound self.old self.new ([]) }
        ensures fixed { KeepsFixed self.old self.new }
    {
        self.write_hook(r)
    }

    /// Takes what a generator object keeps. If that is a frame, the generator then runs. It takes no
    /// memory.
    pub fn take_frame(&mut self, generator: Ref) -> Taken
        requires { IsSome (read_item kept_of self.old generator) }
        ensures taken { read_item kept_of self.old generator ≡ Some result }
        ensures left { self.new ≡ written kept_of (λ kept. Body.Generator (after_take kept)) self.old generator false }
        ensures kept { KeepsSound self.old self.new ([]) }
        ensures fixed { (r : TheRef) → (r ≢ generator) ⊎ (is_frozen self.old generator ≡ false) → KeepsFixedAt self.old self.new r }
    {
        self.write_taken(generator)
    }

    /// Gives a generator object a frame to keep, or none for its end. It takes no memory.
    pub fn put_frame(&mut self, generator: Ref, frame: Option<Frame>)
        requires { IsSome (read_item kept_of self.old generator) }
        ensures left { self.new ≡ written kept_of (λ _. Body.Generator (kept_from frame)) self.old generator false }
        ensures kept { KeepsSound self.old self.new (pointers_of_kept (kept_from frame)) }
        ensures fixed { (r : TheRef) → (r ≢ generator) ⊎ (is_frozen self.old generator ≡ false) → KeepsFixedAt self.old self.new r }
    {
        self.write_put(generator, frame);
    }

    fn write_key(&mut self, r: Ref, key: &Units, value: Value) -> Result<(), SetError>
        requires { IsSome (read_item properties_of self.old r) }
        ensures fault { (result ≡ Err SetError.NoMemory) ⊎ (fault_of result ≡ property_fault (is_frozen self.old r) (is_new_in self.old r key.now) (elements_in self.old r.region)) }
        ensures ok { OnOk result (self.new ≡ written properties_of (λ ps. Body.Object (with_property ps key.now value)) self.old r (is_new_in self.old r key.now)) }
        ensures err { OnErr result (self.new ≡ self.old) }
    {
        match self.slots.get_mut(r.region.0) {
            Some(region) => region.set_property(self.alloc, r.item, key.as_slice(), value),
            None => unreachable!(),
        }
    }

    fn write_box(&mut self, r: Ref, value: Value) -> Result<(), SetError>
        requires { IsSome (read_item box_of self.old r) }
        ensures fault { fault_of result ≡ frozen_fault (is_frozen self.old r) }
        ensures ok { OnOk result (self.new ≡ written box_of (λ _. Body.Box (Some value)) self.old r false) }
        ensures err { OnErr result (self.new ≡ self.old) }
    {
        match self.slots.get_mut(r.region.0) {
            Some(region) => region.fill_box(r.item, value),
            None => unreachable!(),
        }
    }

    fn write_removal(&mut self, r: Ref, index: u32) -> Result<Option<Value>, SetError>
        requires { IsSome (read_item array_of self.old r) }
        ensures fault { fault_of result ≡ frozen_fault (is_frozen self.old r) }
        ensures value { IfOk result (λ value. value ≡ option_map_or (λ values. slice_get values index) (read_item array_of self.old r) None) }
        ensures ok { OnOk result (self.new ≡ written array_of (λ values. Body.Array (remove values index)) self.old r false) }
        ensures err { OnErr result (self.new ≡ self.old) }
    {
        match self.slots.get_mut(r.region.0) {
            Some(region) => region.remove_element(r.item, index as usize),
            None => unreachable!(),
        }
    }

    fn write_last_removal(&mut self, r: Ref) -> Result<Option<Value>, SetError>
        requires { IsSome (read_item array_of self.old r) }
        ensures fault { fault_of result ≡ frozen_fault (is_frozen self.old r) }
        ensures value { IfOk result (λ value. value ≡ option_map_or (λ values. slice_get values (length values - 1)) (read_item array_of self.old r) None) }
        ensures ok { OnOk result (self.new ≡ written array_of (λ values. Body.Array (remove values (length values - 1))) self.old r false) }
        ensures err { OnErr result (self.new ≡ self.old) }
    {
        match self.slots.get_mut(r.region.0) {
            Some(region) => region.remove_last(r.item),
            None => unreachable!(),
        }
    }

    fn write_reversal(&mut self, r: Ref) -> Result<(), SetError>
        requires { IsSome (read_item array_of self.old r) }
        ensures fault { fault_of result ≡ frozen_fault (is_frozen self.old r) }
        ensures ok { OnOk result (self.new ≡ written array_of (λ values. Body.Array (reverse values)) self.old r false) }
        ensures err { OnErr result (self.new ≡ self.old) }
    {
        match self.slots.get_mut(r.region.0) {
            Some(region) => region.reverse_elements(self.alloc, r.item),
            None => unreachable!(),
        }
    }

    fn write_hook(&mut self, r: Ref) -> Result<(), HookError>
        requires { IsSome (read_item hooks_of self.old r) }
        ensures fault { fault_of result ≡ hook_fault (is_frozen self.old r) (hooks_in self.old r) }
        ensures ok { OnOk result (self.new ≡ written hooks_of (λ hooks. Body.Invalidation (hooks + 1)) self.old r false) }
        ensures err { OnErr result (self.new ≡ self.old) }
    {
        match self.slots.get_mut(r.region.0) {
            Some(region) => region.add_hook(r.item),
            None => unreachable!(),
        }
    }

    fn write_taken(&mut self, generator: Ref) -> Taken
        requires { IsSome (read_item kept_of self.old generator) }
        ensures taken { read_item kept_of self.old generator ≡ Some result }
        ensures left { self.new ≡ written kept_of (λ kept. Body.Generator (after_take kept)) self.old generator false }
    {
        match self.slots.get_mut(generator.region.0) {
            Some(region) => region.take_kept(generator.item),
            None => unreachable!(),
        }
    }

    fn write_put(&mut self, generator: Ref, frame: Option<Frame>)
        requires { IsSome (read_item kept_of self.old generator) }
        ensures { self.new ≡ written kept_of (λ _. Body.Generator (kept_from frame)) self.old generator false }
    {
        match self.slots.get_mut(generator.region.0) {
            Some(region) => region.put_kept(generator.item, frame),
            None => unreachable!(),
        }
    }

    pub(crate) fn mark(&mut self, r: Ref)
        ensures { self.new ≡ with_mark self.old r }
    {
        if let Some(region) = self.slots.get_mut(r.region.0) {
            region.mark(r.item);
        }
    }
}
