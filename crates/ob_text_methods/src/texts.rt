//! The methods of texts that make a text, and `charCodeAt`.
ghost use Rattle.ob_values.specs.Sound.{pointers_of};
ghost use Rattle.std.specs.Prelude.{◌≡◌, ◌++◌, ◌⊎◌, ◌+◌, ◌<◌, ◌≤◌, ◌^◌, [], IsSome, IsTrue, IfOk, OnErr, Err, is_ok, length, ◌∷◌};
ghost use Rattle.std.specs.List.{repeat};
ghost use Rattle.std.specs.Result.{result_map_both};
ghost use Rattle.ob_items.specs.Bodies.{text_of};
ghost use Rattle.ob_values.specs.Effects.{in_steps, gives_text, makes_text, answer_of, done_of, Answers, Leaves};
ghost use Rattle.ob_values.specs.TextMethods.{units_at, slice_text, repeat_text, padding, padded, pad_start, char_code_at};
ghost use Rattle.ob_values.specs.Fixed.{KeepsFixed};
ghost use Rattle.ob_values.specs.Operators.{AddsValue};
ghost use Rattle.ob_values.specs.Store.{IsOpen, read_item, elements_in, text_cost};

use crate::arguments::{count_of, number_of, pad_of, range_of};
use crate::make::{given, made, room_for};
use crate::units::{copies, copy_of, unit_at, with_padding};
use ob_base::Units;
use ob_values::{Done, OpError, Ref, RegionKey, Regions, Thrown, Value, argument, places_of};
use std::alloc::Global;

// The units of the text that `slice` gives.
fn sliced(
    alloc: Global,
    regions: &Regions,
    region: RegionKey,
    receiver: Ref,
    args: &[Value],
    left: u64,
) -> Result<Units, OpError>
    requires open { IsOpen regions.now region }
    requires text { IsSome (read_item text_of regions.now receiver) }
    ensures value { (result ≡ Err OpError.NoMemory) ⊎ (result_map_both (λ units. in_steps 0 (gives_text regions.now region units)) (λ e. e) result ≡ answer_of regions.now left (slice_text regions.now region (units_at regions.now receiver) args.now)) }
    ensures memory { result ≡ Err OpError.NoMemory → IsTrue (is_ok (answer_of regions.now left (slice_text regions.now region (units_at regions.now receiver) args.now))) }
    ensures room { IfOk result (λ units. elements_in regions.now region + text_cost (length units) ≤ 50000) }
{
    let units = regions.text(receiver);
    match places_of(units.len(), args) {
        Some((from, to)) => {
            let part = range_of(units, from, to);
            room_for(regions, region, part.len(), left)?;
            match copy_of(alloc, part) {
                Ok(copy) => Ok(copy),
                Err(_) => Err(OpError::NoMemory),
            }
        }
        None => Err(OpError::Throws(Thrown::BadArgument)),
    }
}

/// `slice(a, b)` of a text: the units from place a up to before place b, as a new text. A negative
/// place counts from the end, then it is cut to the range; by default all (ECMA-262,
/// "String.prototype.slice").
///
/// # Errors
/// In this order: `Throws`, with `BadArgument` for a place that is no number; `TextTooLong` above
/// 65,536 units; `HeapFull` where the region would have more than 50,000 elements; `StepsOut` where
/// the elements of the text are more than `left`; `NoMemory` where an allocation is refused. All is
/// then as before.
pub fn slice(
    alloc: Global,
    regions: &mut Regions,
    region: RegionKey,
    receiver: Ref,
    args: &[Value],
    left: u64,
) -> Result<Done, OpError>
    requires open { IsOpen regions.old region }
    requires text { IsSome (read_item text_of regions.old receiver) }
    ensures answer { Answers result (answer_of regions.old left (slice_text regions.old region (units_at regions.old receiver) args.now)) }
    ensures memory { result ≡ Err OpError.NoMemory → IsTrue (is_ok (answer_of regions.old left (slice_text regions.old region (units_at regions.old receiver) args.now))) }
    ensures store { Leaves result (answer_of regions.old left (slice_text regions.old region (units_at regions.old receiver) args.now)) regions.new }
    ensures err { OnErr result (regions.new ≡ regions.old) }
    ensures sound { IfOk result (λ done. AddsValue regions.old regions.new [] done.value) }
    ensures fixed { KeepsFixed regions.old regions.new }
{
    let units = sliced(alloc, regions, region, receiver, args, left)?;
    made(regions, region, units)
}

// The units of a text so many times.
#[tactic(auto, using(crate::proofs::UnitLemmas::length_repeat))]
fn repeated(
    alloc: Global,
    regions: &Regions,
    region: RegionKey,
    units: &[u16],
    count: usize,
    left: u64,
) -> Result<Units, OpError>
    requires { IsOpen regions.now region }
    ensures value { (result ≡ Err OpError.NoMemory) ⊎ (result_map_both (λ units. in_steps 0 (gives_text regions.now region units)) (λ e. e) result ≡ answer_of regions.now left (makes_text regions.now region 0 (repeat count units.now))) }
    ensures memory { result ≡ Err OpError.NoMemory → IsTrue (is_ok (answer_of regions.now left (makes_text regions.now region 0 (repeat count units.now)))) }
    ensures room { IfOk result (λ units. elements_in regions.now region + text_cost (length units) ≤ 50000) }
{
    let Some(len) = units.len().checked_mul(count) else {
        return Err(OpError::Throws(Thrown::TextTooLong));
    };
    room_for(regions, region, len, left)?;
    match copies(alloc, units, count) {
        Ok(made) => Ok(made),
        Err(_) => Err(OpError::NoMemory),
    }
}

/// `repeat(n)` of a text: its units n times, as a new text (ECMA-262, "String.prototype.repeat").
///
/// # Errors
/// In this order: `Throws`, with `BadArgument` where n is no number, `BadCount` where it is below 0;
/// then as `slice`.
pub fn repeat(
    alloc: Global,
    regions: &mut Regions,
    region: RegionKey,
    receiver: Ref,
    args: &[Value],
    left: u64,
) -> Result<Done, OpError>
    requires open { IsOpen regions.old region }
    requires text { IsSome (read_item text_of regions.old receiver) }
    ensures answer { Answers result (answer_of regions.old left (repeat_text regions.old region (units_at regions.old receiver) args.now)) }
    ensures memory { result ≡ Err OpError.NoMemory → IsTrue (is_ok (answer_of regions.old left (repeat_text regions.old region (units_at regions.old receiver) args.now))) }
    ensures store { Leaves result (answer_of regions.old left (repeat_text regions.old region (units_at regions.old receiver) args.now)) regions.new }
    ensures err { OnErr result (regions.new ≡ regions.old) }
    ensures sound { IfOk result (λ done. AddsValue regions.old regions.new [] done.value) }
    ensures fixed { KeepsFixed regions.old regions.new }
{
    let Some(number) = number_of(argument(args, 0)) else {
        return Err(OpError::Throws(Thrown::BadArgument));
    };
    let Some(count) = count_of(number) else {
        return Err(OpError::Throws(Thrown::BadCount));
    };
    let receiver = regions.text(receiver);
    let units = repeated(alloc, regions, region, receiver, count, left)?;
    made(regions, region, units)
}

// How many units of a pad a text lacks of so many: none where the pad is empty.
#[tactic(auto, using(crate::proofs::UnitLemmas::length_padding, crate::proofs::UnitLemmas::padding_none))]
fn lacking(len: i64, pad: &[u16], units: &[u16]) -> usize
    ensures text { padded len pad.now units.now ≡ padding result pad.now ++ units.now }
    ensures count { length (padding result pad.now) ≡ result }
    ensures bound { result < 2 ^ 63 }
{
    if pad.is_empty() {
        return 0;
    }
    match count_of(len) {
        Some(count) => count.saturating_sub(units.len()),
        None => 0,
    }
}

// The units of a text behind so many of a pad.
fn padded(
    alloc: Global,
    regions: &Regions,
    region: RegionKey,
    lacking: usize,
    pad: &[u16],
    units: &[u16],
    left: u64,
) -> Result<Units, OpError>
    requires open { IsOpen regions.now region }
    requires count { length (padding lacking pad.now) ≡ lacking }
    requires bound { lacking < 2 ^ 63 }
    ensures value { (result ≡ Err OpError.NoMemory) ⊎ (result_map_both (λ units. in_steps 0 (gives_text regions.now region units)) (λ e. e) result ≡ answer_of regions.now left (makes_text regions.now region 0 (padding lacking pad.now ++ units.now))) }
    ensures memory { result ≡ Err OpError.NoMemory → IsTrue (is_ok (answer_of regions.now left (makes_text regions.now region 0 (padding lacking pad.now ++ units.now)))) }
    ensures room { IfOk result (λ units. elements_in regions.now region + text_cost (length units) ≤ 50000) }
{
    room_for(regions, region, lacking + units.len(), left)?;
    match with_padding(alloc, lacking, pad, units) {
        Ok(made) => Ok(made),
        Err(_) => Err(OpError::NoMemory),
    }
}

/// `padStart(n, t)` of a text: before it what it lacks of n units, by the text t again and again,
/// which is by default a space (ECMA-262, "String.prototype.padStart").
///
/// # Errors
/// In this order: `Throws`, with `BadArgument` where n is no number or t no text; then as `slice`.
pub fn pad_start(
    alloc: Global,
    regions: &mut Regions,
    region: RegionKey,
    receiver: Ref,
    args: &[Value],
    left: u64,
) -> Result<Done, OpError>
    requires open { IsOpen regions.old region }
    requires text { IsSome (read_item text_of regions.old receiver) }
    ensures answer { Answers result (answer_of regions.old left (pad_start regions.old region (units_at regions.old receiver) args.now)) }
    ensures memory { result ≡ Err OpError.NoMemory → IsTrue (is_ok (answer_of regions.old left (pad_start regions.old region (units_at regions.old receiver) args.now))) }
    ensures store { Leaves result (answer_of regions.old left (pad_start regions.old region (units_at regions.old receiver) args.now)) regions.new }
    ensures err { OnErr result (regions.new ≡ regions.old) }
    ensures sound { IfOk result (λ done. AddsValue regions.old regions.new [] done.value) }
    ensures fixed { KeepsFixed regions.old regions.new }
{
    let Some(len) = number_of(argument(args, 0)) else {
        return Err(OpError::Throws(Thrown::BadArgument));
    };
    let Some(pad) = pad_of(regions, argument(args, 1)) else {
        return Err(OpError::Throws(Thrown::BadArgument));
    };
    let receiver = regions.text(receiver);
    let lacking = lacking(len, pad, receiver);
    let units = padded(alloc, regions, region, lacking, pad, receiver, left)?;
    made(regions, region, units)
}

/// `charCodeAt(i)` of a text: the unit at place i (ECMA-262, "String.prototype.charCodeAt"; that a
/// place outside throws is this project's). It takes no memory.
///
/// # Errors
/// `Throws`, with `BadArgument` for a place that is no number, `PastEnd` for one outside; `HeapFull`
/// where the region has more than 50,000 elements already.
pub fn char_code_at(
    regions: &Regions,
    region: RegionKey,
    receiver: Ref,
    args: &[Value],
    left: u64,
) -> Result<Done, OpError>
    requires open { IsOpen regions.now region }
    requires text { IsSome (read_item text_of regions.now receiver) }
    ensures answer { result ≡ result_map_both done_of (λ e. e) (answer_of regions.now left (char_code_at regions.now region (units_at regions.now receiver) args.now)) }
    ensures plain { IfOk result (λ done. pointers_of (done.value ∷ []) ≡ []) }
{
    let Some(number) = number_of(argument(args, 0)) else {
        return Err(OpError::Throws(Thrown::BadArgument));
    };
    let Some(place) = count_of(number) else {
        return Err(OpError::Throws(Thrown::PastEnd));
    };
    match unit_at(regions.text(receiver), place) {
        Some(unit) => given(regions, region, Value::Int(i64::from(unit)), 0, left),
        None => Err(OpError::Throws(Thrown::PastEnd)),
    }
}
