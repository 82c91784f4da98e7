//! `join` of arrays.
ghost use Rattle.std.specs.Prelude.{◌≡◌, ◌++◌, ◌⊎◌, ◌+◌, ◌-◌, ◌≤◌, ◌^◌, [], IsSome, IfSome, IfOk, OnOk, OnErr, Err, length, min, option_map};
ghost use Rattle.std.specs.List.{flat_map, join_by};
ghost use Rattle.std.specs.Option.{option_copied};
ghost use Rattle.std.specs.Result.{result_map_both};
ghost use Rattle.ob_items.specs.Bodies.{array_of};
ghost use Rattle.ob_values.specs.ArrayMethods.{join, separator, written_as};
ghost use Rattle.ob_values.specs.Effects.{all_some, answer_of, gives_text, in_steps, Answers, Leaves};
ghost use Rattle.ob_values.specs.Fixed.{KeepsFixed};
ghost use Rattle.ob_values.specs.Operators.{AddsValue};
ghost use Rattle.ob_values.specs.Store.{IsOpen, elements_in, read_item, text_cost};
ghost use Rattle.ob_text_methods.specs.Join.{join_answer};

use crate::make::{charge, made};
use itoa::Buffer;
use ob_base::{MAX_TEXT_UNITS, NoMemory, Units};
use ob_values::{
    Done, OpError, Ref, RegionKey, Regions, Thrown, Value, argument, elements_of, text_elements,
    text_in,
};
use std::alloc::Global;

// How many units `join` writes of an element; none where that has no text.
fn written_len(regions: &Regions, value: Value) -> Option<usize>
    ensures { result ≡ option_map length (written_as regions.now value) }
{
    match value {
        Value::Undefined | Value::Null => Some(0),
        Value::Bool(true) => Some(4),
        Value::Bool(false) => Some(5),
        Value::Int(number) => {
            let mut buffer = Buffer::new();
            Some(buffer.format(number).as_bytes().len())
        }
        Value::Builtin(_) | Value::Holder(_) => None,
        Value::Ref(_) => match text_in(regions, value) {
            Some(units) => Some(units.len()),
            None => None,
        },
    }
}

// How many units there are with those of more elements, each behind a separator; 2^64-1 for more, none
// where an element has no text.
fn rest_len(regions: &Regions, len: usize, values: &[Value], between: &[u16]) -> Option<usize>
    ensures { result ≡ option_map (λ texts. min (len + length (flat_map (λ units. between.now ++ units) texts)) (2 ^ 64 - 1)) (all_some (written_as regions.now) values.now) }
{
    let mut total = len;
    for value in values {
        match written_len(regions, *value) {
            Some(more) => {
                total = total.saturating_add(between.len().saturating_add(more));
            }
            None => return None,
        }
    }
    Some(total)
}

fn put_bytes(out: &mut Vec<u16>, bytes: &[u8]) -> Result<(), NoMemory>
    ensures { OnOk result (out.new.items ≡ out.old.items ++ bytes.now) }
{
    for byte in bytes {
        out.push(u16::from(*byte))?;
    }
    Ok(())
}

// Adds the units that `join` writes of an element.
fn put_written(out: &mut Vec<u16>, regions: &Regions, value: Value) -> Result<(), NoMemory>
    requires { IsSome (written_as regions.now value) }
    ensures { OnOk result (IfSome (written_as regions.now value) (λ units. out.new.items ≡ out.old.items ++ units)) }
{
    match value {
        Value::Undefined | Value::Null => Ok(()),
        Value::Bool(true) => put_bytes(out, b"true"),
        Value::Bool(false) => put_bytes(out, b"false"),
        Value::Int(number) => {
            let mut buffer = Buffer::new();
            put_bytes(out, buffer.format(number).as_bytes())
        }
        Value::Builtin(_) | Value::Holder(_) => unreachable!(),
        Value::Ref(_) => match text_in(regions, value) {
            Some(units) => {
                out.extend_from_slice(units)?;
                Ok(())
            }
            None => unreachable!(),
        },
    }
}

// Adds the units of more elements, each behind a separator.
fn put_rest(
    out: &mut Vec<u16>,
    regions: &Regions,
    values: &[Value],
    between: &[u16],
) -> Result<(), NoMemory>
    requires { IsSome (all_some (written_as regions.now) values.now) }
    ensures { OnOk result (IfSome (all_some (written_as regions.now) values.now) (λ texts. out.new.items ≡ out.old.items ++ flat_map (λ units. between.now ++ units) texts)) }
{
    for value in values {
        out.extend_from_slice(between)?;
        put_written(out, regions, *value)?;
    }
    Ok(())
}

// Adds the units of elements with a separator between them.
fn put_joined(
    out: &mut Vec<u16>,
    regions: &Regions,
    values: &[Value],
    between: &[u16],
) -> Result<(), NoMemory>
    requires { IsSome (all_some (written_as regions.now) values.now) }
    ensures { OnOk result (IfSome (all_some (written_as regions.now) values.now) (λ texts. out.new.items ≡ out.old.items ++ join_by (λ units. units) between.now texts)) }
{
    match values {
        [] => Ok(()),
        [first, rest @ ..] => {
            put_written(out, regions, *first)?;
            put_rest(out, regions, rest, between)
        }
    }
}

// How many units the texts of elements have with a separator between them; 2^64-1 for more, none where
// an element has no text.
fn joined_len(regions: &Regions, values: &[Value], between: &[u16]) -> Option<usize>
    ensures { result ≡ option_map (λ texts. min (length (join_by (λ units. units) between.now texts)) (2 ^ 64 - 1)) (all_some (written_as regions.now) values.now) }
{
    match values {
        [] => Some(0),
        [first, rest @ ..] => {
            let len = written_len(regions, *first)?;
            rest_len(regions, len, rest, between)
        }
    }
}

// The texts of elements with a separator between them.
fn joined(
    alloc: Global,
    regions: &Regions,
    values: &[Value],
    between: &[u16],
    len: usize,
) -> Result<Units, NoMemory>
    requires { IsSome (all_some (written_as regions.now) values.now) }
    ensures { IfOk result (λ units. IfSome (all_some (written_as regions.now) values.now) (λ texts. units ≡ join_by (λ units. units) between.now texts)) }
{
    let mut out = Vec::with_capacity(alloc, len)?;
    put_joined(&mut out, regions, values, between)?;
    Ok(Units::from_vec(out))
}

// The units of the separator, by default a comma; none for what is no text.
fn separator(regions: &Regions, value: Value) -> Option<&[u16]>
    ensures { option_copied result ≡ separator regions.now value }
{
    match value {
        Value::Undefined => Some(&[44]),
        _ => text_in(regions, value),
    }
}

// The units of the text that `join` gives of elements, where there is room for it.
fn fitting(
    alloc: Global,
    regions: &Regions,
    region: RegionKey,
    values: &[Value],
    between: &[u16],
    left: u64,
) -> Result<Units, OpError>
    requires { IsOpen regions.now region }
    ensures value { (result ≡ Err OpError.NoMemory) ⊎ (result_map_both (λ units. in_steps (length values.now) (gives_text regions.now region units)) (λ e. e) result ≡ answer_of regions.now left (join_answer regions.now region values.now between.now)) }
    ensures room { IfOk result (λ units. elements_in regions.now region + text_cost (length units) ≤ 50000) }
{
    let Some(len) = joined_len(regions, values, between) else {
        return Err(OpError::Throws(Thrown::BadArgument));
    };
    if len > MAX_TEXT_UNITS {
        return Err(OpError::Throws(Thrown::TextTooLong));
    }
    charge(regions, region, text_elements(len), values.len(), left)?;
    match joined(alloc, regions, values, between, len) {
        Ok(units) => Ok(units),
        Err(_) => Err(OpError::NoMemory),
    }
}

/// `join(s)` of an array: the texts of its elements with the text s between them, by default a comma,
/// as a new text; undefined and null are written as the empty text. It takes as many steps as the array
/// has elements (ECMA-262, "Array.prototype.join", in this project's profile).
///
/// # Errors
/// In this order: `Throws`, with `BadArgument` where s is no text or an element has none, `TextTooLong`
/// above 65,536 units; `HeapFull` where the region would have more than 50,000 elements; `StepsOut`
/// where the steps, with one for each element of the text, are more than `left`; `NoMemory` where an
/// allocation is refused. All is then as before.
pub fn join(
    alloc: Global,
    regions: &mut Regions,
    region: RegionKey,
    receiver: Ref,
    args: &[Value],
    left: u64,
) -> Result<Done, OpError>
    requires open { IsOpen regions.old region }
    requires array { IsSome (read_item array_of regions.old receiver) }
    ensures answer { Answers result (answer_of regions.old left (join regions.old region receiver args.now)) }
    ensures store { Leaves result (answer_of regions.old left (join regions.old region receiver args.now)) regions.new }
    ensures err { OnErr result (regions.new ≡ regions.old) }
    ensures sound { IfOk result (λ done. AddsValue regions.old regions.new [] done.value) }
    ensures fixed { KeepsFixed regions.old regions.new }
{
    let Some(between) = separator(regions, argument(args, 0)) else {
        return Err(OpError::Throws(Thrown::BadArgument));
    };
    let values = elements_of(regions, receiver);
    let steps = values.len() as u64;
    let units = fitting(alloc, regions, region, values, between, left)?;
    let text = made(regions, region, units)?;
    Ok(Done {
        value: text.value,
        steps,
    })
}
