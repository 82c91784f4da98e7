//! Plain data, made into items.
ghost use Rattle.std.specs.Prelude.{◌≡◌, ◌+◌, ◌∷◌, [], ◌<◌, ◌≤◌, ◌↔◌, IsSome, OnOk, IfOk, length, map, sum, fold};
ghost use Rattle.ob_base.specs.PlainData.{elements, prop_elements};
ghost use Rattle.ob_items.specs.Items.{live};
ghost use Rattle.ob_items.specs.Properties.{values_of};
ghost use Rattle.ob_values.specs.Fixed.{KeepsFixed};
ghost use Rattle.ob_values.specs.Placed.{placed, placed_prop, made_array, made_object, add_item, add_prop, no_items, no_props};
ghost use Rattle.ob_values.specs.Sound.{AddsItem, AddsValues};
ghost use Rattle.ob_values.specs.Store.{IsOpen, elements_in, with_new, next_ref, text_cost};

use crate::regions::{Regions, text_elements};
use ob_base::{List, MAX_REGION_ELEMENTS, NoMemory, Plain, PlainProp, Units};
use ob_items::{AllocError, Body, Properties, RegionKey, Value};

mod cost;

use cost::plain_elements;

impl Regions {
    /// Makes a value of plain data: what stands in an array or object first, in order, then the array or
    /// object itself. It costs the elements of the plain data.
    ///
    /// # Errors
    /// `HeapFull` exactly where the region's elements and these are more than 50,000; all is then as
    /// before. `NoMemory` where an allocation is refused; the region may then have more items than
    /// before.
    pub fn from_plain(&mut self, region: RegionKey, plain: &Plain) -> Result<Value, AllocError>
        requires { IsOpen self.old region }
        ensures full { result ≡ Err AllocError.HeapFull ↔ (50000 < elements_in self.old region + elements plain.now) }
        ensures value { IfOk result (λ value. value ≡ (placed region plain.now self.old).value) }
        ensures ok { OnOk result (self.new ≡ (placed region plain.now self.old).store) }
        ensures unchanged { result ≡ Err AllocError.HeapFull → self.new ≡ self.old }
        ensures sound { IfOk result (λ value. AddsValues self.old self.new (value ∷ [])) }
        ensures fixed { OnOk result (KeepsFixed self.old self.new) }
    {
        let cost = plain_elements(plain);
        if cost > MAX_REGION_ELEMENTS || self.is_full_for(region, cost as usize) {
            return Err(AllocError::HeapFull);
        }
        match place(self, region, plain) {
            Ok(value) => Ok(value),
            Err(_) => Err(AllocError::NoMemory),
        }
    }
}

#[cycle(place)]
fn place(regions: &mut Regions, region: RegionKey, plain: &Plain) -> Result<Value, NoMemory>
    requires open { IsOpen regions.old region }
    requires room { elements_in regions.old region + elements plain.now ≤ 50000 }
    ensures value { IfOk result (λ value. value ≡ (placed region plain.now regions.old).value) }
    ensures store { OnOk result (regions.new ≡ (placed region plain.now regions.old).store) }
    ensures open { OnOk result (IsOpen regions.new region) }
    ensures elements { OnOk result (elements_in regions.new region ≡ elements_in regions.old region + elements plain.now) }
    ensures sound { IfOk result (λ value. AddsValues regions.old regions.new (value ∷ [])) }
    ensures fixed { OnOk result (KeepsFixed regions.old regions.new) }
{
    match plain {
        Plain::Undefined => Ok(Value::Undefined),
        Plain::Null => Ok(Value::Null),
        Plain::Bool(flag) => Ok(Value::Bool(*flag)),
        Plain::Int(number) => Ok(Value::Int(*number)),
        Plain::Text(units) => place_text(regions, region, units),
        Plain::Array(items) => place_array(regions, region, items.as_slice()),
        Plain::Object(props) => place_object(regions, region, props.as_slice()),
    }
}

fn place_text(regions: &mut Regions, region: RegionKey, units: &Units) -> Result<Value, NoMemory>
    requires open { IsOpen regions.old region }
    requires room { elements_in regions.old region + text_cost (length units.now) ≤ 50000 }
    ensures value { IfOk result (λ value. value ≡ Value.Ref (next_ref regions.old region)) }
    ensures store { OnOk result (regions.new ≡ with_new regions.old region (live (Body.Text units.now)) (text_cost (length units.now))) }
    ensures open { OnOk result (IsOpen regions.new region) }
    ensures elements { OnOk result (elements_in regions.new region ≡ elements_in regions.old region + text_cost (length units.now)) }
    ensures sound { IfOk result (λ value. AddsValues regions.old regions.new (value ∷ [])) }
    ensures fixed { OnOk result (KeepsFixed regions.old regions.new) }
{
    let cost = text_elements(units.as_slice().len());
    let copy = units.copy(regions.alloc())?;
    add_new(regions, region, Body::Text(copy), cost as u32)
}

#[cycle(place)]
fn place_array(regions: &mut Regions, region: RegionKey, items: &[Plain]) -> Result<Value, NoMemory>
    requires open { IsOpen regions.old region }
    requires room { elements_in regions.old region + (1 + (length items.now + sum (map elements items.now))) ≤ 50000 }
    ensures value { IfOk result (λ value. value ≡ (made_array region (length items.now) (fold add_item (no_items regions.old) (map (placed region) items.now))).value) }
    ensures store { OnOk result (regions.new ≡ (made_array region (length items.now) (fold add_item (no_items regions.old) (map (placed region) items.now))).store) }
    ensures open { OnOk result (IsOpen regions.new region) }
    ensures elements { OnOk result (elements_in regions.new region ≡ elements_in regions.old region + (1 + (length items.now + sum (map elements items.now)))) }
    ensures sound { IfOk result (λ value. AddsValues regions.old regions.new (value ∷ [])) }
    ensures fixed { OnOk result (KeepsFixed regions.old regions.new) }
{
    let values = place_items(regions, region, items)?;
    add_new(regions, region, Body::Array(values), 1 + items.len() as u32)
}

#[cycle(place)]
fn place_items(
    regions: &mut Regions,
    region: RegionKey,
    items: &[Plain],
) -> Result<List<Value>, NoMemory>
    requires open { IsOpen regions.old region }
    requires room { elements_in regions.old region + sum (map elements items.now) ≤ 50000 }
    ensures placed { IfOk result (λ values. record { values = values; store = regions.new } ≡ fold add_item (no_items regions.old) (map (placed region) items.now)) }
    ensures open { OnOk result (IsOpen regions.new region) }
    ensures elements { OnOk result (elements_in regions.new region ≡ elements_in regions.old region + sum (map elements items.now)) }
    ensures sound { IfOk result (λ values. AddsValues regions.old regions.new values) }
    ensures fixed { OnOk result (KeepsFixed regions.old regions.new) }
{
    let mut values = List::new(regions.alloc());
    for item in items {
        let value = place(regions, region, item)?;
        values.push(value)?;
    }
    Ok(values)
}

#[cycle(place)]
fn place_object(
    regions: &mut Regions,
    region: RegionKey,
    props: &[PlainProp],
) -> Result<Value, NoMemory>
    requires open { IsOpen regions.old region }
    requires room { elements_in regions.old region + (1 + (length props.now + sum (map prop_elements props.now))) ≤ 50000 }
    ensures value { IfOk result (λ value. value ≡ (made_object region (length props.now) (fold add_prop (no_props regions.old) (map (placed_prop region) props.now))).value) }
    ensures store { OnOk result (regions.new ≡ (made_object region (length props.now) (fold add_prop (no_props regions.old) (map (placed_prop region) props.now))).store) }
    ensures open { OnOk result (IsOpen regions.new region) }
    ensures elements { OnOk result (elements_in regions.new region ≡ elements_in regions.old region + (1 + (length props.now + sum (map prop_elements props.now)))) }
    ensures sound { IfOk result (λ value. AddsValues regions.old regions.new (value ∷ [])) }
    ensures fixed { OnOk result (KeepsFixed regions.old regions.new) }
{
    let properties = place_props(regions, region, props)?;
    add_new(
        regions,
        region,
        Body::Object(properties),
        1 + props.len() as u32,
    )
}

#[cycle(place)]
fn place_props(
    regions: &mut Regions,
    region: RegionKey,
    props: &[PlainProp],
) -> Result<Properties, NoMemory>
    requires open { IsOpen regions.old region }
    requires room { elements_in regions.old region + sum (map prop_elements props.now) ≤ 50000 }
    ensures placed { IfOk result (λ properties. record { properties = properties; store = regions.new } ≡ fold add_prop (no_props regions.old) (map (placed_prop region) props.now)) }
    ensures open { OnOk result (IsOpen regions.new region) }
    ensures elements { OnOk result (elements_in regions.new region ≡ elements_in regions.old region + sum (map prop_elements props.now)) }
    ensures sound { IfOk result (λ properties. AddsValues regions.old regions.new (values_of properties)) }
    ensures fixed { OnOk result (KeepsFixed regions.old regions.new) }
{
    let mut properties = Properties::new();
    for prop in props {
        let value = place(regions, region, &prop.value)?;
        regions.set_property_of(region, &mut properties, prop.key.as_slice(), value)?;
    }
    Ok(properties)
}

// Adds an item, which costs so many elements.
fn add_new(
    regions: &mut Regions,
    region: RegionKey,
    body: Body,
    cost: u32,
) -> Result<Value, NoMemory>
    requires open { IsOpen regions.old region }
    requires room { elements_in regions.old region + cost ≤ 50000 }
    ensures value { IfOk result (λ value. value ≡ Value.Ref (next_ref regions.old region)) }
    ensures store { OnOk result (regions.new ≡ with_new regions.old region (live body) cost) }
    ensures open { OnOk result (IsOpen regions.new region) }
    ensures elements { OnOk result (elements_in regions.new region ≡ elements_in regions.old region + cost) }
    ensures sound { OnOk result (AddsItem regions.old regions.new body (next_ref regions.old region)) }
    ensures fixed { OnOk result (KeepsFixed regions.old regions.new) }
{
    match regions.add(region, body, cost) {
        Ok(r) => Ok(Value::Ref(r)),
        Err(_) => Err(NoMemory),
    }
}
