//! The calls that make an item.
ghost use Rattle.std.specs.Prelude.{[], ◌≡◌, ◌≢◌, ◌+◌, ◌<◌, ◌≤◌, ◌↔◌, length, IsSome, OnOk, OnErr, IfOk, Some, nat_lt};
ghost use Rattle.ob_items.specs.Bodies.{text_of};
ghost use Rattle.ob_items.specs.Items.{live};
ghost use Rattle.ob_items.specs.Properties.{no_properties, with_property};
ghost use Rattle.ob_values.specs.Fixed.{KeepsFixed};
ghost use Rattle.ob_values.specs.Sound.{AddsItem, KeepsSound};
ghost use Rattle.ob_values.specs.Store.{IsOpen, read_item, elements_in, with_new, next_ref, text_cost, literal_ref, with_literal_in};

use crate::regions::Regions;
use ob_base::{List, NoMemory, Units};
use ob_items::{
    AllocError, Binding, Body, CodeKey, ErrorKind, Frame, FunctionValue, Properties, Ref,
    RegionKey, SharedFunction, Suspended, Taken, Value,
};
use std::rc::Rc;

impl Regions {
    /// Whether a region's elements and so many more are more than 50,000. It takes no memory.
    pub fn is_full_for(&self, region: RegionKey, cost: usize) -> bool
        requires { IsOpen self.now region }
        ensures { result ≡ nat_lt 50000 (elements_in self.now region + cost) }
    {
        match self.slots.get(region.0) {
            Some(cells) => cells.is_full_for(cost),
            None => unreachable!(),
        }
    }

    pub(crate) fn add(
        &mut self,
        region: RegionKey,
        body: Body,
        cost: u32,
    ) -> Result<Ref, AllocError>
        requires open { IsOpen self.old region }
        requires fits { elements_in self.old region + cost ≤ 50000 }
        ensures memory { result ≢ Err AllocError.HeapFull }
        ensures key { IfOk result (λ r. r ≡ next_ref self.old region) }
        ensures ok { OnOk result (self.new ≡ with_new self.old region (live body) cost) }
        ensures fixed { OnOk result (KeepsFixed self.old self.new) }
        ensures sound { IfOk result (AddsItem self.old self.new body) }
        ensures err { OnErr result (self.new ≡ self.old) }
    {
        self.add_item(region, body, cost)
    }

    fn add_item(&mut self, region: RegionKey, body: Body, cost: u32) -> Result<Ref, AllocError>
        requires open { IsOpen self.old region }
        requires fits { elements_in self.old region + cost ≤ 50000 }
        ensures memory { result ≢ Err AllocError.HeapFull }
        ensures key { IfOk result (λ r. r ≡ next_ref self.old region) }
        ensures ok { OnOk result (self.new ≡ with_new self.old region (live body) cost) }
        ensures err { OnErr result (self.new ≡ self.old) }
    {
        match self.slots.get_mut(region.0) {
            Some(cells) => match cells.add(body, cost) {
                Ok(item) => Ok(Ref { region, item }),
                Err(_) => Err(AllocError::NoMemory),
            },
            None => unreachable!(),
        }
    }

    // Writes a property of an object that is no item yet, with its name from those of the region.
    pub(crate) fn set_property_of(
        &mut self,
        region: RegionKey,
        properties: &mut Properties,
        key: &[u16],
        value: Value,
    ) -> Result<(), NoMemory>
        requires { IsOpen self.old region }
        ensures same { self.new ≡ self.old }
        ensures ok { OnOk result (properties.new ≡ with_property properties.old key.now value) }
        ensures err { OnErr result (properties.new ≡ properties.old) }
    {
        match self.slots.get_mut(region.0) {
            Some(cells) => cells.set_property_of(self.alloc, properties, key, value),
            None => unreachable!(),
        }
    }

    fn add_free(&mut self, region: RegionKey, body: Body) -> Result<Ref, NoMemory>
        requires { IsOpen self.old region }
        ensures key { IfOk result (λ r. r ≡ next_ref self.old region) }
        ensures ok { OnOk result (self.new ≡ with_new self.old region (live body) 0) }
        ensures fixed { OnOk result (KeepsFixed self.old self.new) }
        ensures sound { IfOk result (AddsItem self.old self.new body) }
        ensures err { OnErr result (self.new ≡ self.old) }
    {
        self.add_free_item(region, body)
    }

    fn add_free_item(&mut self, region: RegionKey, body: Body) -> Result<Ref, NoMemory>
        requires { IsOpen self.old region }
        ensures key { IfOk result (λ r. r ≡ next_ref self.old region) }
        ensures ok { OnOk result (self.new ≡ with_new self.old region (live body) 0) }
        ensures err { OnErr result (self.new ≡ self.old) }
    {
        match self.slots.get_mut(region.0) {
            Some(cells) => {
                let _ = cells.elements();
                match cells.add(body, 0) {
                    Ok(item) => Ok(Ref { region, item }),
                    Err(_) => Err(NoMemory),
                }
            }
            None => unreachable!(),
        }
    }

    /// Makes an array of these elements, which costs 1 and one for each.
    ///
    /// # Errors
    /// `HeapFull` exactly where the region's elements and these are more than 50,000; `NoMemory` where
    /// an allocation is refused. All is then as before.
    pub fn alloc_array(&mut self, region: RegionKey, items: &[Value]) -> Result<Ref, AllocError>
        requires { IsOpen self.old region }
        ensures full { result ≡ Err AllocError.HeapFull ↔ (50000 < elements_in self.old region + (1 + length items.now)) }
        ensures key { IfOk result (λ r. r ≡ next_ref self.old region) }
        ensures ok { OnOk result (self.new ≡ with_new self.old region (live (Body.Array items.now)) (1 + length items.now)) }
        ensures fixed { OnOk result (KeepsFixed self.old self.new) }
        ensures sound { IfOk result (AddsItem self.old self.new (Body.Array items.now)) }
        ensures err { OnErr result (self.new ≡ self.old) }
    {
        let cost = 1 + items.len();
        if self.is_full_for(region, cost) {
            return Err(AllocError::HeapFull);
        }
        match List::from_slice(self.alloc, items) {
            Ok(list) => self.add(region, Body::Array(list), cost as u32),
            Err(_) => Err(AllocError::NoMemory),
        }
    }

    /// As `alloc_array`, of a list that it takes.
    ///
    /// # Errors
    /// As `alloc_array`.
    pub fn alloc_values(&mut self, region: RegionKey, items: List<Value>) -> Result<Ref, AllocError>
        requires { IsOpen self.old region }
        ensures full { result ≡ Err AllocError.HeapFull ↔ (50000 < elements_in self.old region + (1 + length items)) }
        ensures key { IfOk result (λ r. r ≡ next_ref self.old region) }
        ensures ok { OnOk result (self.new ≡ with_new self.old region (live (Body.Array items)) (1 + length items)) }
        ensures fixed { OnOk result (KeepsFixed self.old self.new) }
        ensures sound { IfOk result (AddsItem self.old self.new (Body.Array items)) }
        ensures err { OnErr result (self.new ≡ self.old) }
    {
        let cost = items.len() + 1;
        if self.is_full_for(region, cost) {
            return Err(AllocError::HeapFull);
        }
        self.add(region, Body::Array(items), cost as u32)
    }

    /// Makes an object of no property, which costs 1 element.
    ///
    /// # Errors
    /// As `alloc_array`.
    pub fn alloc_object(&mut self, region: RegionKey) -> Result<Ref, AllocError>
        requires { IsOpen self.old region }
        ensures full { result ≡ Err AllocError.HeapFull ↔ (50000 < elements_in self.old region + 1) }
        ensures key { IfOk result (λ r. r ≡ next_ref self.old region) }
        ensures ok { OnOk result (self.new ≡ with_new self.old region (live (Body.Object no_properties)) 1) }
        ensures fixed { OnOk result (KeepsFixed self.old self.new) }
        ensures sound { IfOk result (AddsItem self.old self.new (Body.Object no_properties)) }
        ensures err { OnErr result (self.new ≡ self.old) }
    {
        if self.is_full_for(region, 1) {
            return Err(AllocError::HeapFull);
        }
        self.add(region, Body::Object(Properties::new()), 1)
    }

    /// Makes a text of these units, which costs one element for each 16, rounded up, and at least 1.
    ///
    /// # Errors
    /// As `alloc_array`.
    pub fn alloc_text(&mut self, region: RegionKey, units: &[u16]) -> Result<Ref, AllocError>
        requires { IsOpen self.old region }
        ensures full { result ≡ Err AllocError.HeapFull ↔ (50000 < elements_in self.old region + text_cost (length units.now)) }
        ensures key { IfOk result (λ r. r ≡ next_ref self.old region) }
        ensures ok { OnOk result (self.new ≡ with_new self.old region (live (Body.Text units.now)) (text_cost (length units.now))) }
        ensures fixed { OnOk result (KeepsFixed self.old self.new) }
        ensures sound { IfOk result (AddsItem self.old self.new (Body.Text units.now)) }
        ensures err { OnErr result (self.new ≡ self.old) }
    {
        let cost = text_elements(units.len());
        if self.is_full_for(region, cost) {
            return Err(AllocError::HeapFull);
        }
        match Vec::from_slice(self.alloc, units) {
            Ok(copy) => self.add(region, Body::Text(Units::from_vec(copy)), cost as u32),
            Err(_) => Err(AllocError::NoMemory),
        }
    }

    /// As `alloc_text`, of units that it takes.
    ///
    /// # Errors
    /// As `alloc_array`.
    pub fn alloc_units(&mut self, region: RegionKey, units: Units) -> Result<Ref, AllocError>
        requires { IsOpen self.old region }
        ensures full { result ≡ Err AllocError.HeapFull ↔ (50000 < elements_in self.old region + text_cost (length units)) }
        ensures key { IfOk result (λ r. r ≡ next_ref self.old region) }
        ensures ok { OnOk result (self.new ≡ with_new self.old region (live (Body.Text units)) (text_cost (length units))) }
        ensures fixed { OnOk result (KeepsFixed self.old self.new) }
        ensures sound { IfOk result (AddsItem self.old self.new (Body.Text units)) }
        ensures err { OnErr result (self.new ≡ self.old) }
    {
        let cost = text_elements(units.as_slice().len());
        if self.is_full_for(region, cost) {
            return Err(AllocError::HeapFull);
        }
        self.add(region, Body::Text(units), cost as u32)
    }

    /// Makes the box of a captured binding, which costs 1 element; it holds none before the
    /// declaration has run.
    ///
    /// # Errors
    /// As `alloc_array`.
    pub fn alloc_box(&mut self, region: RegionKey, value: Option<Value>) -> Result<Ref, AllocError>
        requires { IsOpen self.old region }
        ensures full { result ≡ Err AllocError.HeapFull ↔ (50000 < elements_in self.old region + 1) }
        ensures key { IfOk result (λ r. r ≡ next_ref self.old region) }
        ensures ok { OnOk result (self.new ≡ with_new self.old region (live (Body.Box value)) 1) }
        ensures fixed { OnOk result (KeepsFixed self.old self.new) }
        ensures sound { IfOk result (AddsItem self.old self.new (Body.Box value)) }
        ensures err { OnErr result (self.new ≡ self.old) }
    {
        if self.is_full_for(region, 1) {
            return Err(AllocError::HeapFull);
        }
        self.add(region, Body::Box(Binding::new(value)), 1)
    }

    /// Makes a function value, which costs 1 element: of its code, the boxes of the captured bindings
    /// that its text refers to, the array of the inputs, and the invalidation object where its text
    /// refers to that.
    ///
    /// # Errors
    /// As `alloc_array`.
    pub fn alloc_closure(
        &mut self,
        region: RegionKey,
        code: CodeKey,
        boxes: &[Ref],
        inputs: Ref,
        invalidation: Option<Ref>,
    ) -> Result<Ref, AllocError>
        requires { IsOpen self.old region }
        ensures full { result ≡ Err AllocError.HeapFull ↔ (50000 < elements_in self.old region + 1) }
        ensures key { IfOk result (λ r. r ≡ next_ref self.old region) }
        ensures ok { OnOk result (self.new ≡ with_new self.old region (live (Body.Closure (record { code = code; boxes = boxes.now; inputs = inputs; invalidation = invalidation }))) 1) }
        ensures fixed { OnOk result (KeepsFixed self.old self.new) }
        ensures sound { IfOk result (AddsItem self.old self.new (Body.Closure (record { code = code; boxes = boxes.now; inputs = inputs; invalidation = invalidation }))) }
        ensures err { OnErr result (self.new ≡ self.old) }
    {
        if self.is_full_for(region, 1) {
            return Err(AllocError::HeapFull);
        }
        let function = SharedFunction {
            code,
            inputs,
            invalidation,
        };
        match self.function_value(region, function, boxes) {
            Ok(closure) => self.add(region, Body::Closure(closure), 1),
            Err(_) => Err(AllocError::NoMemory),
        }
    }

    // A function value with these boxes, which shares the rest with others of the region.
    fn function_value(
        &mut self,
        region: RegionKey,
        function: SharedFunction,
        boxes: &[Ref],
    ) -> Result<FunctionValue, NoMemory>
        requires { IsOpen self.old region }
        ensures value { IfOk result (λ f. f ≡ record { code = function.code; boxes = boxes.now; inputs = function.inputs; invalidation = function.invalidation }) }
        ensures kept { self.new ≡ self.old }
    {
        match self.share(region, function) {
            Ok(shared) => FunctionValue::new(self.alloc, shared, boxes),
            Err(refused) => Err(refused),
        }
    }

    fn share(
        &mut self,
        region: RegionKey,
        function: SharedFunction,
    ) -> Result<Rc<SharedFunction>, NoMemory>
        requires { IsOpen self.old region }
        ensures value { IfOk result (λ shared. shared.value ≡ function) }
        ensures kept { self.new ≡ self.old }
    {
        match self.slots.get_mut(region.0) {
            Some(cells) => cells.share(self.alloc, function),
            None => unreachable!(),
        }
    }

    /// Makes a generator object that keeps a frame, which costs 1 element.
    ///
    /// # Errors
    /// As `alloc_array`. The frame is then dropped.
    pub fn alloc_generator(&mut self, region: RegionKey, frame: Frame) -> Result<Ref, AllocError>
        requires { IsOpen self.old region }
        ensures full { result ≡ Err AllocError.HeapFull ↔ (50000 < elements_in self.old region + 1) }
        ensures key { IfOk result (λ r. r ≡ next_ref self.old region) }
        ensures ok { OnOk result (self.new ≡ with_new self.old region (live (Body.Generator (Taken.Held frame))) 1) }
        ensures fixed { OnOk result (KeepsFixed self.old self.new) }
        ensures sound { IfOk result (AddsItem self.old self.new (Body.Generator (Taken.Held frame))) }
        ensures err { OnErr result (self.new ≡ self.old) }
    {
        if self.is_full_for(region, 1) {
            return Err(AllocError::HeapFull);
        }
        match Suspended::new(self.alloc, Taken::Held(frame)) {
            Ok(kept) => self.add(region, Body::Generator(kept), 1),
            Err(_) => Err(AllocError::NoMemory),
        }
    }

    /// Makes an error with the text of its message, which costs 1 element.
    ///
    /// # Errors
    /// As `alloc_array`.
    pub fn alloc_error(
        &mut self,
        region: RegionKey,
        kind: ErrorKind,
        message: Ref,
    ) -> Result<Ref, AllocError>
        requires { IsOpen self.old region }
        ensures full { result ≡ Err AllocError.HeapFull ↔ (50000 < elements_in self.old region + 1) }
        ensures key { IfOk result (λ r. r ≡ next_ref self.old region) }
        ensures ok { OnOk result (self.new ≡ with_new self.old region (live (Body.Error kind message)) 1) }
        ensures fixed { OnOk result (KeepsFixed self.old self.new) }
        ensures sound { IfOk result (AddsItem self.old self.new (Body.Error kind message)) }
        ensures err { OnErr result (self.new ≡ self.old) }
    {
        if self.is_full_for(region, 1) {
            return Err(AllocError::HeapFull);
        }
        self.add(region, Body::Error(kind, message), 1)
    }

    /// Makes an invalidation object, which costs no elements.
    ///
    /// # Errors
    /// `NoMemory` where an allocation is refused; all is then as before.
    pub fn alloc_invalidation(&mut self, region: RegionKey) -> Result<Ref, NoMemory>
        requires { IsOpen self.old region }
        ensures key { IfOk result (λ r. r ≡ next_ref self.old region) }
        ensures ok { OnOk result (self.new ≡ with_new self.old region (live (Body.Invalidation 0)) 0) }
        ensures fixed { OnOk result (KeepsFixed self.old self.new) }
        ensures sound { IfOk result (AddsItem self.old self.new (Body.Invalidation 0)) }
        ensures err { OnErr result (self.new ≡ self.old) }
    {
        self.add_free(region, Body::Invalidation(0))
    }

    /// Makes an array of inputs, which costs no elements and which no program is given.
    ///
    /// # Errors
    /// `NoMemory` where an allocation is refused; all is then as before.
    pub fn place_inputs(&mut self, region: RegionKey, values: &[Value]) -> Result<Ref, NoMemory>
        requires { IsOpen self.old region }
        ensures key { IfOk result (λ r. r ≡ next_ref self.old region) }
        ensures ok { OnOk result (self.new ≡ with_new self.old region (live (Body.Inputs values.now)) 0) }
        ensures fixed { OnOk result (KeepsFixed self.old self.new) }
        ensures sound { IfOk result (AddsItem self.old self.new (Body.Inputs values.now)) }
        ensures err { OnErr result (self.new ≡ self.old) }
    {
        let list = List::from_slice(self.alloc, values)?;
        self.add_free(region, Body::Inputs(list))
    }

    /// The one literal of these units in a region: a text that costs no elements, made where there is
    /// none yet.
    ///
    /// # Errors
    /// `NoMemory` where an allocation is refused; all is then as before.
    pub fn literal(&mut self, region: RegionKey, units: &[u16]) -> Result<Ref, NoMemory>
        requires { IsOpen self.old region }
        ensures key { IfOk result (λ r. r ≡ literal_ref self.old region units.now) }
        ensures ok { OnOk result (self.new ≡ with_literal_in self.old region units.now) }
        ensures fixed { OnOk result (KeepsFixed self.old self.new) }
        ensures text { IfOk result (λ r. read_item text_of self.new r ≡ Some units.now) }
        ensures sound { IfOk result (AddsItem self.old self.new (Body.Text units.now)) }
        ensures kept { KeepsSound self.old self.new [] }
        ensures err { OnErr result (self.new ≡ self.old) }
    {
        self.add_literal(region, units)
    }

    fn add_literal(&mut self, region: RegionKey, units: &[u16]) -> Result<Ref, NoMemory>
        requires { IsOpen self.old region }
        ensures key { IfOk result (λ r. r ≡ literal_ref self.old region units.now) }
        ensures ok { OnOk result (self.new ≡ with_literal_in self.old region units.now) }
        ensures text { IfOk result (λ r. read_item text_of self.new r ≡ Some units.now) }
        ensures err { OnErr result (self.new ≡ self.old) }
    {
        match self.slots.get_mut(region.0) {
            Some(cells) => match cells.literal(self.alloc, units) {
                Ok(item) => Ok(Ref { region, item }),
                Err(refused) => Err(refused),
            },
            None => unreachable!(),
        }
    }
}

/// The elements that a text of so many units costs: one for each 16, rounded up, and at least 1.
pub fn text_elements(units: usize) -> usize
    ensures { result ≡ text_cost units }
{
    if units == 0 {
        return 1;
    }
    (units - 1) / 16 + 1
}
