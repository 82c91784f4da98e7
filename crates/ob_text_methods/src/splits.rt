//! `split`.
ghost use Rattle.std.specs.Prelude.{◌≡◌, ◌≢◌, ◌⊎◌, ◌+◌, ◌<◌, ◌≤◌, [], ◌∷◌, ◌++◌, IsSome, IfOk, IfErr, OnErr, OnOk, Ok, Err, length, map};
ghost use Rattle.std.specs.Result.{result_map_both};
ghost use Rattle.ob_items.specs.Bodies.{text_of};
ghost use Rattle.ob_items.specs.Items.{live};
ghost use Rattle.ob_text_methods.specs.Parts.{array_cost, parts_answer};
ghost use Rattle.ob_values.specs.Effects.{with_text, done_of, answer_of, Answers, Leaves, argument};
ghost use Rattle.ob_values.specs.Fixed.{KeepsFixed};
ghost use Rattle.ob_values.specs.Operators.{AddsValue, text_in};
ghost use Rattle.ob_values.specs.Sound.{AddsValues};
ghost use Rattle.ob_values.specs.Store.{IsOpen, read_item, elements_in, with_new, next_ref, text_cost};
ghost use Rattle.ob_values.specs.TextMethods.{units_at, cut, split_by, gives_texts, split, with_texts, text_values, texts_cost};

use crate::make::{charge, made};
use crate::parts::{parts_cost, parts_of, units_apart};
use crate::search::shifts;
use crate::units::copy_of;
use ob_base::{List, NoMemory, Units};
use ob_values::{
    Done, OpError, Ref, RegionKey, Regions, Thrown, Value, argument, text_elements, text_in,
};
use std::alloc::Global;

// The units of a text, each as a text.
#[tactic(auto, using(crate::proofs::PartLemmas::units_cost))]
fn all_units(
    alloc: Global,
    regions: &Regions,
    region: RegionKey,
    units: &[u16],
    left: u64,
) -> Result<List<Units>, OpError>
    requires { IsOpen regions.now region }
    ensures value { (result ≡ Err OpError.NoMemory) ⊎ (result ≡ parts_answer (elements_in regions.now region) left (map (λ unit. unit ∷ []) units.now)) }
    ensures room { IfOk result (λ parts. elements_in regions.now region + array_cost parts ≤ 50000) }
{
    charge(regions, region, 2 * units.len() + 1, 0, left)?;
    match units_apart(alloc, units) {
        Ok(parts) => Ok(parts),
        Err(_) => Err(OpError::NoMemory),
    }
}

// A text in which the piece doesn't stand, as its only part.
fn whole(
    alloc: Global,
    regions: &Regions,
    region: RegionKey,
    units: &[u16],
    left: u64,
) -> Result<List<Units>, OpError>
    requires { IsOpen regions.now region }
    ensures value { (result ≡ Err OpError.NoMemory) ⊎ (result ≡ parts_answer (elements_in regions.now region) left (units.now ∷ [])) }
    ensures room { IfOk result (λ parts. elements_in regions.now region + array_cost parts ≤ 50000) }
{
    charge(regions, region, text_elements(units.len()) + 2, 0, left)?;
    let mut parts = List::new(alloc);
    match parts.push(copy_of(alloc, units)?) {
        Ok(_) => Ok(parts),
        Err(_) => Err(OpError::NoMemory),
    }
}

// The parts of a text between pieces, of which each has some units.
#[tactic(auto, using(crate::proofs::PartLemmas::limited_capped))]
fn between(
    alloc: Global,
    regions: &Regions,
    region: RegionKey,
    units: &[u16],
    piece: &[u16],
    left: u64,
) -> Result<List<Units>, OpError>
    requires open { IsOpen regions.now region }
    requires some { 0 < length piece.now }
    ensures value { (result ≡ Err OpError.NoMemory) ⊎ (result ≡ parts_answer (elements_in regions.now region) left (cut (length units.now) piece.now units.now)) }
    ensures room { IfOk result (λ parts. elements_in regions.now region + array_cost parts ≤ 50000) }
{
    let shifts = shifts(alloc, piece)?;
    let cost = parts_cost(units, piece, shifts.as_slice()).saturating_add(1);
    charge(regions, region, cost, 0, left)?;
    match parts_of(alloc, units, piece, shifts.as_slice()) {
        Ok(parts) => Ok(parts),
        Err(_) => Err(OpError::NoMemory),
    }
}

// The parts of a text.
#[tactic(auto, using(crate::proofs::PartLemmas::cut_longer))]
fn parts_by(
    alloc: Global,
    regions: &Regions,
    region: RegionKey,
    units: &[u16],
    piece: &[u16],
    left: u64,
) -> Result<List<Units>, OpError>
    requires { IsOpen regions.now region }
    ensures value { (result ≡ Err OpError.NoMemory) ⊎ (result ≡ parts_answer (elements_in regions.now region) left (split_by piece.now units.now)) }
    ensures room { IfOk result (λ parts. elements_in regions.now region + array_cost parts ≤ 50000) }
{
    if piece.is_empty() {
        return all_units(alloc, regions, region, units, left);
    }
    if piece.len() > units.len() {
        return whole(alloc, regions, region, units, left);
    }
    between(alloc, regions, region, units, piece, left)
}

// The parts of a text, of which an array of texts is to be made.
fn parts(
    alloc: Global,
    regions: &Regions,
    region: RegionKey,
    units: &[u16],
    piece: &[u16],
    left: u64,
) -> Result<List<Units>, OpError>
    requires { IsOpen regions.now region }
    ensures value { (result ≡ Err OpError.NoMemory) ⊎ (result_map_both (λ parts. gives_texts regions.now region parts) (λ e. e) result ≡ answer_of regions.now left (Ok (gives_texts regions.now region (split_by piece.now units.now)))) }
    ensures room { IfOk result (λ parts. elements_in regions.now region + array_cost parts ≤ 50000) }
{
    parts_by(alloc, regions, region, units, piece, left)
}

// Makes a text of these units.
fn place_text(regions: &mut Regions, region: RegionKey, units: Units) -> Result<Value, NoMemory>
    requires open { IsOpen regions.old region }
    requires room { elements_in regions.old region + text_cost (length units) ≤ 50000 }
    ensures value { IfOk result (λ value. value ≡ Value.Ref (next_ref regions.old region)) }
    ensures store { OnOk result (regions.new ≡ with_text region regions.old units) }
    ensures open { OnOk result (IsOpen regions.new region) }
    ensures elements { OnOk result (elements_in regions.new region ≡ elements_in regions.old region + text_cost (length units)) }
    ensures sound { IfOk result (λ value. AddsValues regions.old regions.new (value ∷ [])) }
    ensures fixed { KeepsFixed regions.old regions.new }
{
    match regions.alloc_units(region, units) {
        Ok(r) => Ok(Value::Ref(r)),
        Err(_) => Err(NoMemory),
    }
}

// Makes a text of each of these, in order.
fn place_texts(
    alloc: Global,
    regions: &mut Regions,
    region: RegionKey,
    texts: List<Units>,
) -> Result<List<Value>, NoMemory>
    requires open { IsOpen regions.old region }
    requires room { elements_in regions.old region + texts_cost texts ≤ 50000 }
    ensures values { IfOk result (λ values. values ≡ text_values region regions.old texts) }
    ensures store { OnOk result (regions.new ≡ with_texts region regions.old texts) }
    ensures open { OnOk result (IsOpen regions.new region) }
    ensures elements { OnOk result (elements_in regions.new region ≡ elements_in regions.old region + texts_cost texts) }
    ensures sound { IfOk result (λ values. AddsValues regions.old regions.new values) }
    ensures fixed { KeepsFixed regions.old regions.new }
{
    let mut values = List::new(alloc);
    for units in texts.into_vec() {
        let value = place_text(regions, region, units)?;
        values.push(value)?;
    }
    Ok(values)
}

// Makes a text of each of these, and an array of them.
fn place_parts(
    alloc: Global,
    regions: &mut Regions,
    region: RegionKey,
    parts: List<Units>,
) -> Result<Done, OpError>
    requires open { IsOpen regions.old region }
    requires room { elements_in regions.old region + array_cost parts ≤ 50000 }
    ensures value { IfOk result (λ done. done ≡ done_of (gives_texts regions.old region parts)) }
    ensures store { OnOk result (regions.new ≡ (gives_texts regions.old region parts).store) }
    ensures memory { IfErr result (λ e. e ≡ OpError.NoMemory) }
    ensures sound { IfOk result (λ done. AddsValue regions.old regions.new [] done.value) }
    ensures fixed { KeepsFixed regions.old regions.new }
{
    let Ok(values) = place_texts(alloc, regions, region, parts) else {
        return Err(OpError::NoMemory);
    };
    match regions.alloc_values(region, values) {
        Ok(r) => Ok(Done {
            value: Value::Ref(r),
            steps: 0,
        }),
        Err(_) => Err(OpError::NoMemory),
    }
}

/// `split(t)` of a text: the parts between the places of the text t, each as a new text, in a new
/// array; by the empty text its units. It costs the elements of the parts and of the array (ECMA-262,
/// "String.prototype.split"). The search is linear in the text, whatever t.
///
/// # Errors
/// In this order: `Throws`, with `BadArgument` where t is no text; `HeapFull` where the region would
/// have more than 50,000 elements; `StepsOut` where the elements are more than `left`. All is then as
/// before. `NoMemory` where an allocation is refused; the region may then have more texts than before.
pub fn split(
    alloc: Global,
    regions: &mut Regions,
    region: RegionKey,
    receiver: Ref,
    args: &[Value],
    left: u64,
) -> Result<Done, OpError>
    requires open { IsOpen regions.old region }
    requires text { IsSome (read_item text_of regions.old receiver) }
    ensures answer { Answers result (answer_of regions.old left (split regions.old region (units_at regions.old receiver) args.now)) }
    ensures memory { result ≡ Err OpError.NoMemory → IsSome (text_in regions.old (argument args.now 0)) }
    ensures store { Leaves result (answer_of regions.old left (split regions.old region (units_at regions.old receiver) args.now)) regions.new }
    ensures err { result ≢ Err OpError.NoMemory → OnErr result (regions.new ≡ regions.old) }
    ensures sound { IfOk result (λ done. AddsValue regions.old regions.new [] done.value) }
    ensures fixed { KeepsFixed regions.old regions.new }
{
    let Some(piece) = text_in(regions, argument(args, 0)) else {
        return Err(OpError::Throws(Thrown::BadArgument));
    };
    let units = regions.text(receiver);
    let parts = parts(alloc, regions, region, units, piece, left)?;
    place_parts(alloc, regions, region, parts)
}
