//! Calls of functions by number.
ghost use Rattle.std.specs.Prelude.{◌≡◌, ◌≢◌, ◌≤◌, Err, List as SpecList, IsSome, IfSome, IfOk, OnErr, is_some};
ghost use Rattle.ob_builtins.specs.Calls.{CarriesOut};
ghost use Rattle.ob_items.specs.declared.value.RegionKey.{RegionKey as TheRegionKey};
ghost use Rattle.ob_items.specs.declared.value.Value.{Value as TheValue};
ghost use Rattle.ob_values.specs.Builtins.{function_call};
ghost use Rattle.ob_values.specs.Effects.{Answers, Leaves, answer_of};
ghost use Rattle.ob_values.specs.Fixed.{KeepsFixed};
ghost use Rattle.ob_values.specs.Operators.{AddsValue};
ghost use Rattle.ob_values.specs.Sound.{pointers_of};
ghost use Rattle.ob_values.specs.Store.{IsOpen, Store};

use ob_array_methods as arrays;
use ob_text_methods as texts;
use ob_values::{Done, ErrorKind, OpError, RegionKey, Regions, Value};
use std::alloc::Global;

// Carries out the function of a number of `Math`.
fn call_math(
    regions: &Regions,
    region: RegionKey,
    builtin: u16,
    args: &[Value],
    left: u64,
) -> Result<Done, OpError>
    requires open { IsOpen regions.now region }
    requires from { 35 ≤ builtin }
    requires to { builtin ≤ 38 }
    ensures { IfSome (function_call regions.now region builtin args.now) (λ call. CarriesOut regions.now regions.now left (pointers_of args.now) call result) }
{
    match builtin {
        35 => texts::min(regions, region, args, left),
        36 => texts::max(regions, region, args, left),
        37 => texts::abs(regions, region, args, left),
        38 => texts::sign(regions, region, args, left),
        _ => unreachable!(),
    }
}

// Carries out the function of a number of `Object` or `Array`.
fn call_object(
    alloc: Global,
    regions: &mut Regions,
    region: RegionKey,
    builtin: u16,
    args: &[Value],
    left: u64,
) -> Result<Done, OpError>
    requires open { IsOpen regions.old region }
    requires from { 39 ≤ builtin }
    requires to { builtin ≤ 43 }
    ensures { IfSome (function_call regions.old region builtin args.now) (λ call. CarriesOut regions.old regions.new left (pointers_of args.now) call result) }
{
    match builtin {
        39 => arrays::keys(alloc, regions, region, args, left),
        40 => arrays::values(alloc, regions, region, args, left),
        41 => arrays::entries(alloc, regions, region, args, left),
        42 => arrays::has_own(alloc, regions, region, args, left),
        43 => arrays::is_array(regions, region, args, left),
        _ => unreachable!(),
    }
}

// Carries out `String` or one of the three errors.
fn call_named(
    alloc: Global,
    regions: &mut Regions,
    region: RegionKey,
    builtin: u16,
    args: &[Value],
    left: u64,
) -> Result<Done, OpError>
    requires open { IsOpen regions.old region }
    requires from { 3 ≤ builtin }
    requires to { builtin ≤ 6 }
    ensures { IfSome (function_call regions.old region builtin args.now) (λ call. CarriesOut regions.old regions.new left (pointers_of args.now) call result) }
{
    match builtin {
        3 => texts::string(alloc, regions, region, args, left),
        4 => texts::error(regions, region, ErrorKind::Error, args, left),
        5 => texts::error(regions, region, ErrorKind::TypeError, args, left),
        6 => texts::error(regions, region, ErrorKind::RangeError, args, left),
        _ => unreachable!(),
    }
}

/// Whether `call_function` carries out the builtin of this number: `String`, the three errors and the
/// functions of `Math`, `Object` and `Array` but `Array.from`; none of the other names, which are no
/// functions or are carried out by a run. It takes no memory.
pub fn is_function(builtin: u16) -> bool
    ensures { (s : Store) (region : TheRegionKey) (args : SpecList TheValue) → result ≡ is_some (function_call s region builtin args) }
{
    if builtin <= 6 {
        3 <= builtin
    } else {
        35 <= builtin && builtin <= 43
    }
}

/// Carries out the builtin of a number, one of the names or a function as `find_property` gives it, and
/// makes what it makes in a region (ECMA-262, "Function Properties of the Math Object", "Properties of
/// the Object Constructor", "Array.isArray", "String" and "Error", in this project's profile). The call
/// itself was charged before.
///
/// # Errors
/// In this order: `Throws` with the first fault that the function throws; `HeapFull` where the region
/// would have more than 50,000 elements; `StepsOut` where the steps, with one for each element that is
/// made, are more than `left`. All is then as before. `NoMemory` where an allocation is refused; the
/// region may then have changed.
pub fn call_function(
    alloc: Global,
    regions: &mut Regions,
    region: RegionKey,
    builtin: u16,
    args: &[Value],
    left: u64,
) -> Result<Done, OpError>
    requires open { IsOpen regions.old region }
    requires called { IsSome (function_call regions.old region builtin args.now) }
    ensures answer { IfSome (function_call regions.old region builtin args.now) (λ call. Answers result (answer_of regions.old left call)) }
    ensures store { IfSome (function_call regions.old region builtin args.now) (λ call. Leaves result (answer_of regions.old left call) regions.new) }
    ensures err { result ≢ Err OpError.NoMemory → OnErr result (regions.new ≡ regions.old) }
    ensures sound { IfOk result (λ done. AddsValue regions.old regions.new (pointers_of args.now) done.value) }
    ensures fixed { KeepsFixed regions.old regions.new }
{
    if builtin <= 6 {
        call_named(alloc, regions, region, builtin, args, left)
    } else if builtin <= 38 {
        call_math(regions, region, builtin, args, left)
    } else {
        call_object(alloc, regions, region, builtin, args, left)
    }
}
