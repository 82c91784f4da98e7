//! The three errors.
ghost use Rattle.std.specs.Prelude.{◌≡◌, ◌≢◌, ◌+◌, ◌≤◌, [], ◌∷◌, IsSome, IfOk, IfErr, OnErr, OnOk, Ok, Err};
ghost use Rattle.ob_items.specs.Bodies.{text_of};
ghost use Rattle.ob_items.specs.Items.{live};
ghost use Rattle.ob_values.specs.Effects.{answer_of, Answers, Leaves, argument};
ghost use Rattle.ob_values.specs.Functions.{gives_error, make_error, message_of};
ghost use Rattle.ob_values.specs.Fixed.{KeepsFixed};
ghost use Rattle.ob_values.specs.Operators.{AddsValue};
ghost use Rattle.ob_values.specs.Sound.{AsText, AddsSound};
ghost use Rattle.ob_values.specs.Store.{IsOpen, read_item, elements_in, with_new, next_ref, literal_ref, with_literal_in};

use crate::make::charge;
use crate::values::written;
use ob_values::{Body, Done, ErrorKind, OpError, Ref, RegionKey, Regions, Thrown, Value, argument};

// The literal of these units in a region.
fn literal(regions: &mut Regions, region: RegionKey, units: &[u16]) -> Result<Ref, OpError>
    requires { IsOpen regions.old region }
    ensures value { IfOk result (λ r. r ≡ literal_ref regions.old region units.now) }
    ensures store { OnOk result (regions.new ≡ with_literal_in regions.old region units.now) }
    ensures open { OnOk result (IsOpen regions.new region) }
    ensures elements { OnOk result (elements_in regions.new region ≡ elements_in regions.old region) }
    ensures memory { IfErr result (λ e. e ≡ OpError.NoMemory) }
    ensures err { OnErr result (regions.new ≡ regions.old) }
    ensures sound { IfOk result (λ r. AddsSound regions.old regions.new [] (AsText, r)) }
    ensures fixed { KeepsFixed regions.old regions.new }
{
    match regions.literal(region, units) {
        Ok(r) => Ok(r),
        Err(_) => Err(OpError::NoMemory),
    }
}

// Makes an error with the text of its message.
fn made_error(
    regions: &mut Regions,
    region: RegionKey,
    kind: ErrorKind,
    message: Ref,
) -> Result<Done, OpError>
    requires open { IsOpen regions.old region }
    requires room { elements_in regions.old region + 1 ≤ 50000 }
    ensures value { IfOk result (λ done. done ≡ record { value = Value.Ref (next_ref regions.old region); steps = 0 }) }
    ensures store { OnOk result (regions.new ≡ with_new regions.old region (live (Body.Error kind message)) 1) }
    ensures memory { IfErr result (λ e. e ≡ OpError.NoMemory) }
    ensures err { OnErr result (regions.new ≡ regions.old) }
    ensures sound { IfOk result (λ done. AddsValue regions.old regions.new ((AsText, message) ∷ []) done.value) }
    ensures fixed { KeepsFixed regions.old regions.new }
{
    match regions.alloc_error(region, kind, message) {
        Ok(r) => Ok(Done {
            value: Value::Ref(r),
            steps: 0,
        }),
        Err(_) => Err(OpError::NoMemory),
    }
}

// An error whose message is a text that is there.
fn with_text(
    regions: &mut Regions,
    region: RegionKey,
    kind: ErrorKind,
    message: Ref,
    left: u64,
) -> Result<Done, OpError>
    requires open { IsOpen regions.old region }
    requires text { IsSome (read_item text_of regions.old message) }
    ensures answer { Answers result (answer_of regions.old left (Ok (gives_error regions.old region kind (Value.Ref message) []))) }
    ensures store { Leaves result (answer_of regions.old left (Ok (gives_error regions.old region kind (Value.Ref message) []))) regions.new }
    ensures err { OnErr result (regions.new ≡ regions.old) }
    ensures sound { IfOk result (λ done. AddsValue regions.old regions.new [] done.value) }
    ensures fixed { KeepsFixed regions.old regions.new }
{
    charge(regions, region, 1, 0, left)?;
    made_error(regions, region, kind, message)
}

// An error whose message is a literal.
fn with_literal(
    regions: &mut Regions,
    region: RegionKey,
    kind: ErrorKind,
    units: &[u16],
    left: u64,
) -> Result<Done, OpError>
    requires { IsOpen regions.old region }
    ensures answer { Answers result (answer_of regions.old left (Ok (gives_error regions.old region kind Value.Undefined units.now))) }
    ensures store { Leaves result (answer_of regions.old left (Ok (gives_error regions.old region kind Value.Undefined units.now))) regions.new }
    ensures err { result ≢ Err OpError.NoMemory → OnErr result (regions.new ≡ regions.old) }
    ensures sound { IfOk result (λ done. AddsValue regions.old regions.new [] done.value) }
    ensures fixed { KeepsFixed regions.old regions.new }
{
    charge(regions, region, 1, 0, left)?;
    let message = literal(regions, region, units)?;
    made_error(regions, region, kind, message)
}

/// `Error(m)`, `TypeError(m)` or `RangeError(m)`, by its kind: an error whose message is the text m
/// itself, the literal of what `String(m)` gives, or the empty one for undefined. It costs one element
/// (ECMA-262, "Error").
///
/// # Errors
/// In this order: `Throws`, with `BadArgument` for a message that has no text; `HeapFull` where the
/// region has 50,000 elements; `StepsOut` where `left` is 0. All is then as before. `NoMemory` where an
/// allocation is refused; the region may then have one literal more.
pub fn error(
    regions: &mut Regions,
    region: RegionKey,
    kind: ErrorKind,
    args: &[Value],
    left: u64,
) -> Result<Done, OpError>
    requires { IsOpen regions.old region }
    ensures answer { Answers result (answer_of regions.old left (make_error regions.old region kind args.now)) }
    ensures memory { result ≡ Err OpError.NoMemory → IsSome (message_of regions.old (argument args.now 0)) }
    ensures store { Leaves result (answer_of regions.old left (make_error regions.old region kind args.now)) regions.new }
    ensures err { result ≢ Err OpError.NoMemory → OnErr result (regions.new ≡ regions.old) }
    ensures sound { IfOk result (λ done. AddsValue regions.old regions.new [] done.value) }
    ensures fixed { KeepsFixed regions.old regions.new }
{
    let message = argument(args, 0);
    match message {
        Value::Undefined => with_literal(regions, region, kind, &[], left),
        Value::Ref(r) => {
            if regions.is_text(r) {
                with_text(regions, region, kind, r, left)
            } else {
                Err(OpError::Throws(Thrown::BadArgument))
            }
        }
        _ => {
            let units = written(regions, message)?;
            with_literal(regions, region, kind, units.as_slice(), left)
        }
    }
}
