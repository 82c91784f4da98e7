//! The methods of texts that look for a piece. Each takes a step for each 16 units of the text.
ghost use Rattle.ob_values.specs.Sound.{pointers_of};
ghost use Rattle.std.specs.Prelude.{◌≡◌, ◌+◌, ◌/◌, ◌≤◌, IfOk, length, IsSome, IsTrue, Err, is_ok, ◌∷◌, []};
ghost use Rattle.std.specs.Option.{ForSome};
ghost use Rattle.std.specs.Result.{result_map_both};
ghost use Rattle.ob_items.specs.Bodies.{text_of};
ghost use Rattle.ob_values.specs.Effects.{answer_of, done_of, Answers};
ghost use Rattle.ob_values.specs.TextMethods.{units_at, first_place, index_of_text, includes_text, starts_with_text, ends_with_text};
ghost use Rattle.ob_values.specs.Store.{IsOpen, read_item};

use crate::make::{charge, given};
use crate::search::{place_of, shifts};
use ob_base::NoMemory;
use ob_values::{Done, OpError, Ref, RegionKey, Regions, Thrown, Value, argument, found, text_in};
use std::alloc::Global;

/// The first place at which a piece stands in a text, in time linear in the text, whatever the piece.
/// It takes memory for a piece that is no longer than the text.
///
/// # Errors
/// `NoMemory` where an allocation is refused.
fn first_place(alloc: Global, units: &[u16], piece: &[u16]) -> Result<Option<usize>, NoMemory>
    ensures place { IfOk result (λ place. place ≡ first_place units.now piece.now) }
    ensures within { IfOk result (λ place. ForSome place (λ k. k ≤ length units.now)) }
{
    if piece.len() > units.len() {
        return Ok(None);
    }
    let shifts = shifts(alloc, piece)?;
    Ok(place_of(units, piece, shifts.as_slice()))
}

// The steps of a search in a text of so many units: one for each 16, rounded up.
fn search_steps(len: usize) -> usize
    ensures { result ≡ (len + 15) / 16 }
{
    len.div_ceil(16)
}

/// `startsWith(t)` of a text: whether it begins with the text t (ECMA-262,
/// "String.prototype.startsWith"). It takes no memory.
///
/// # Errors
/// `Throws`, with `BadArgument` where t is no text; `StepsOut` where the steps are more than `left`;
/// `HeapFull` where the region has more than 50,000 elements already.
pub fn starts_with(
    regions: &Regions,
    region: RegionKey,
    receiver: Ref,
    args: &[Value],
    left: u64,
) -> Result<Done, OpError>
    requires open { IsOpen regions.now region }
    requires text { IsSome (read_item text_of regions.now receiver) }
    ensures answer { result ≡ result_map_both done_of (λ e. e) (answer_of regions.now left (starts_with_text regions.now region (units_at regions.now receiver) args.now)) }
    ensures plain { IfOk result (λ done. pointers_of (done.value ∷ []) ≡ []) }
{
    let units = regions.text(receiver);
    match text_in(regions, argument(args, 0)) {
        Some(piece) => {
            let is = Value::Bool(units.starts_with(piece));
            given(regions, region, is, search_steps(units.len()), left)
        }
        None => Err(OpError::Throws(Thrown::BadArgument)),
    }
}

/// `endsWith(t)` of a text: whether it ends with the text t (ECMA-262, "String.prototype.endsWith").
/// It takes no memory.
///
/// # Errors
/// As `starts_with`.
pub fn ends_with(
    regions: &Regions,
    region: RegionKey,
    receiver: Ref,
    args: &[Value],
    left: u64,
) -> Result<Done, OpError>
    requires open { IsOpen regions.now region }
    requires text { IsSome (read_item text_of regions.now receiver) }
    ensures answer { result ≡ result_map_both done_of (λ e. e) (answer_of regions.now left (ends_with_text regions.now region (units_at regions.now receiver) args.now)) }
    ensures plain { IfOk result (λ done. pointers_of (done.value ∷ []) ≡ []) }
{
    let units = regions.text(receiver);
    match text_in(regions, argument(args, 0)) {
        Some(piece) => {
            let is = Value::Bool(units.ends_with(piece));
            given(regions, region, is, search_steps(units.len()), left)
        }
        None => Err(OpError::Throws(Thrown::BadArgument)),
    }
}

/// `indexOf(t)` of a text: the first place at which the text t stands, from 0; -1 where it stands
/// nowhere (ECMA-262, "String.prototype.indexOf"). The search is linear in the text, whatever t.
///
/// # Errors
/// As `starts_with`; `NoMemory` where an allocation is refused.
pub fn index_of(
    alloc: Global,
    regions: &Regions,
    region: RegionKey,
    receiver: Ref,
    args: &[Value],
    left: u64,
) -> Result<Done, OpError>
    requires open { IsOpen regions.now region }
    requires text { IsSome (read_item text_of regions.now receiver) }
    ensures answer { Answers result (answer_of regions.now left (index_of_text regions.now region (units_at regions.now receiver) args.now)) }
    ensures memory { result ≡ Err OpError.NoMemory → IsTrue (is_ok (answer_of regions.now left (index_of_text regions.now region (units_at regions.now receiver) args.now))) }
    ensures plain { IfOk result (λ done. pointers_of (done.value ∷ []) ≡ []) }
{
    let units = regions.text(receiver);
    match text_in(regions, argument(args, 0)) {
        Some(piece) => {
            let steps = search_steps(units.len());
            charge(regions, region, 0, steps, left)?;
            match first_place(alloc, units, piece) {
                Ok(place) => Ok(Done {
                    value: found(place),
                    steps: steps as u64,
                }),
                Err(_) => Err(OpError::NoMemory),
            }
        }
        None => Err(OpError::Throws(Thrown::BadArgument)),
    }
}

/// `includes(t)` of a text: whether the text t stands in it (ECMA-262, "String.prototype.includes").
/// The search is linear in the text, whatever t.
///
/// # Errors
/// As `index_of`.
pub fn includes(
    alloc: Global,
    regions: &Regions,
    region: RegionKey,
    receiver: Ref,
    args: &[Value],
    left: u64,
) -> Result<Done, OpError>
    requires open { IsOpen regions.now region }
    requires text { IsSome (read_item text_of regions.now receiver) }
    ensures answer { Answers result (answer_of regions.now left (includes_text regions.now region (units_at regions.now receiver) args.now)) }
    ensures memory { result ≡ Err OpError.NoMemory → IsTrue (is_ok (answer_of regions.now left (includes_text regions.now region (units_at regions.now receiver) args.now))) }
    ensures plain { IfOk result (λ done. pointers_of (done.value ∷ []) ≡ []) }
{
    let units = regions.text(receiver);
    match text_in(regions, argument(args, 0)) {
        Some(piece) => {
            let steps = search_steps(units.len());
            charge(regions, region, 0, steps, left)?;
            match first_place(alloc, units, piece) {
                Ok(place) => Ok(Done {
                    value: Value::Bool(place.is_some()),
                    steps: steps as u64,
                }),
                Err(_) => Err(OpError::NoMemory),
            }
        }
        None => Err(OpError::Throws(Thrown::BadArgument)),
    }
}
