//! Calls of methods by number.
ghost use Rattle.std.specs.Prelude.{◌≡◌, ◌≢◌, ◌∷◌, Err, List as SpecList, IsSome, IfSome, IfOk, OnErr, is_some};
ghost use Rattle.ob_builtins.specs.Calls.{array_call, text_call, CarriesOut};
ghost use Rattle.ob_items.specs.Bodies.{array_of, text_of};
ghost use Rattle.ob_items.specs.declared.value.RegionKey.{RegionKey as TheRegionKey};
ghost use Rattle.ob_items.specs.declared.value.Value.{Value as TheValue};
ghost use Rattle.ob_values.specs.Builtins.{method_call};
ghost use Rattle.ob_values.specs.Effects.{Answers, Leaves, answer_of};
ghost use Rattle.ob_values.specs.Fixed.{KeepsFixed};
ghost use Rattle.ob_values.specs.Operators.{AddsValue};
ghost use Rattle.ob_values.specs.Sound.{AsValue, pointers_of};
ghost use Rattle.ob_values.specs.Store.{IsOpen, read_item};

use ob_array_methods as arrays;
use ob_text_methods as texts;
use ob_values::{Done, OpError, Ref, RegionKey, Regions, Value};
use std::alloc::Global;

// Carries out the method of a number of an array.
fn call_array(
    alloc: Global,
    regions: &mut Regions,
    region: RegionKey,
    method: u16,
    receiver: Ref,
    args: &[Value],
    left: u64,
) -> Result<Done, OpError>
    requires open { IsOpen regions.old region }
    requires array { IsSome (read_item array_of regions.old receiver) }
    requires called { IsSome (array_call regions.old region method receiver args.now) }
    ensures { IfSome (array_call regions.old region method receiver args.now) (λ call. CarriesOut regions.old regions.new left ((AsValue, receiver) ∷ pointers_of args.now) call result) }
{
    match method {
        9 => arrays::push(regions, receiver, args, left),
        10 => arrays::pop(regions, receiver, left),
        11 => arrays::shift(regions, receiver, left),
        12 => arrays::reverse(regions, receiver, left),
        13 => arrays::slice(alloc, regions, region, receiver, args, left),
        14 => arrays::concat(alloc, regions, region, receiver, args, left),
        15 => arrays::index_of(regions, region, receiver, args, left),
        16 => arrays::includes(regions, region, receiver, args, left),
        17 => texts::join(alloc, regions, region, receiver, args, left),
        _ => unreachable!(),
    }
}

// Carries out the method of a number of a text.
fn call_text(
    alloc: Global,
    regions: &mut Regions,
    region: RegionKey,
    method: u16,
    receiver: Ref,
    args: &[Value],
    left: u64,
) -> Result<Done, OpError>
    requires open { IsOpen regions.old region }
    requires text { IsSome (read_item text_of regions.old receiver) }
    requires called { IsSome (text_call regions.old region method receiver args.now) }
    ensures { IfSome (text_call regions.old region method receiver args.now) (λ call. CarriesOut regions.old regions.new left ((AsValue, receiver) ∷ pointers_of args.now) call result) }
{
    match method {
        24 => texts::slice(alloc, regions, region, receiver, args, left),
        25 => texts::repeat(alloc, regions, region, receiver, args, left),
        26 => texts::pad_start(alloc, regions, region, receiver, args, left),
        27 => texts::index_of(alloc, regions, region, receiver, args, left),
        28 => texts::includes(alloc, regions, region, receiver, args, left),
        29 => texts::starts_with(regions, region, receiver, args, left),
        30 => texts::ends_with(regions, region, receiver, args, left),
        31 => texts::split(alloc, regions, region, receiver, args, left),
        32 => texts::char_code_at(regions, region, receiver, args, left),
        _ => unreachable!(),
    }
}

/// Whether `call_method` carries out the method of this number for the item that a reference points
/// to: a method of arrays for an array, one of texts for a text, and none that is carried out by a run
/// (those written in the language itself, `next` and `then`). It takes no memory.
pub fn is_method(regions: &Regions, method: u16, receiver: Ref) -> bool
    ensures { (region : TheRegionKey) (args : SpecList TheValue) → result ≡ is_some (method_call regions.now region method receiver args) }
{
    if regions.is_array(receiver) {
        9 <= method && method <= 17
    } else if regions.is_text(receiver) {
        24 <= method && method <= 32
    } else {
        false
    }
}

/// Carries out the method of a number, as `find_method` gives it, of the array or the text that a
/// reference points to, and makes what it makes in a region (ECMA-262, "Properties of the Array
/// Prototype Object" and "Properties of the String Prototype Object", in this project's profile). The
/// call itself was charged before.
///
/// # Errors
/// In this order: `Throws` with the first fault that the method throws; `HeapFull` where the region,
/// for `push` that of the array, would have more than 50,000 elements; `StepsOut` where the steps, with
/// one for each element that is made, are more than `left`. All is then as before. `NoMemory` where an
/// allocation is refused; the regions may then have changed.
pub fn call_method(
    alloc: Global,
    regions: &mut Regions,
    region: RegionKey,
    method: u16,
    receiver: Ref,
    args: &[Value],
    left: u64,
) -> Result<Done, OpError>
    requires open { IsOpen regions.old region }
    requires called { IsSome (method_call regions.old region method receiver args.now) }
    ensures answer { IfSome (method_call regions.old region method receiver args.now) (λ call. Answers result (answer_of regions.old left call)) }
    ensures store { IfSome (method_call regions.old region method receiver args.now) (λ call. Leaves result (answer_of regions.old left call) regions.new) }
    ensures err { result ≢ Err OpError.NoMemory → OnErr result (regions.new ≡ regions.old) }
    ensures sound { IfOk result (λ done. AddsValue regions.old regions.new ((AsValue, receiver) ∷ pointers_of args.now) done.value) }
    ensures fixed { KeepsFixed regions.old regions.new }
{
    if regions.is_array(receiver) {
        call_array(alloc, regions, region, method, receiver, args, left)
    } else {
        call_text(alloc, regions, region, method, receiver, args, left)
    }
}
