//! What the call of a row answers, in words.

use crate::tests::printing::{error_name, put_value};
use crate::tests::words::{BadRow, Made, number, two};
use crate::{Done, call_function, call_method, find_method, find_property, is_function, is_method};
use ob_base::Units;
use ob_values::{Kind, OpError, Ref, RegionKey, Regions, Value};
use std::alloc::Global;

// The calls ask for an open region and a number that they carry out: these test that first, and give
// nothing if it doesn't hold.

fn method(
    alloc: Global,
    regions: &mut Regions,
    key: RegionKey,
    number: u16,
    receiver: Ref,
    args: &[Value],
    left: u64,
) -> Option<Result<Done, OpError>> {
    if regions.is_open(key) && is_method(regions, number, receiver) {
        Some(call_method(alloc, regions, key, number, receiver, args, left))
    } else {
        None
    }
}

fn function(
    alloc: Global,
    regions: &mut Regions,
    key: RegionKey,
    number: u16,
    args: &[Value],
    left: u64,
) -> Option<Result<Done, OpError>> {
    if regions.is_open(key) && is_function(number) {
        Some(call_function(alloc, regions, key, number, args, left))
    } else {
        None
    }
}

fn elements(regions: &Regions, key: RegionKey) -> u32 {
    if regions.is_open(key) {
        regions.elements(key)
    } else {
        0
    }
}

fn kind(regions: &Regions, r: Ref) -> Kind {
    if regions.is_item(r) {
        regions.kind(r)
    } else {
        Kind::Box
    }
}

/// What a method answers: `[7,8] slice 1` is its receiver, its name and its arguments; `frozen:` stands
/// before a receiver that is frozen. Behind the answer the receiver stands as the call leaves it, if it is
/// an array.
pub fn method_answer(alloc: Global, row: &str, left: u64) -> Result<String, BadRow> {
    let mut made = Made::new(alloc)?;
    let (word, call) = two(row, ' ');
    let receiver = receiver_of(&mut made, word)?;
    let (name, args) = two(call, ' ');
    let args = made.values(args)?;
    let before = elements(&made.regions, made.key);
    let answer = match number_of(&made, receiver, name)? {
        Some(number) => method(
            alloc,
            &mut made.regions,
            made.key,
            number,
            receiver,
            args.as_slice(),
            left,
        ),
        None => None,
    };
    let mut out = answer_text(&made, before, answer)?;
    if made.regions.is_array(receiver) {
        out.push(' ')?;
        put_value(&mut out, &made.regions, Value::Ref(receiver))?;
    }
    Ok(out)
}

fn receiver_of(made: &mut Made, word: &str) -> Result<Ref, BadRow> {
    let plain = word.strip_prefix("frozen:");
    let value = made.value(plain.unwrap_or(word))?;
    if plain.is_some() {
        made.regions.freeze(value)?;
    }
    match value {
        Value::Ref(r) => Ok(r),
        _ => Err(BadRow::NoSuchWord),
    }
}

fn number_of(made: &Made, receiver: Ref, name: &str) -> Result<Option<u16>, BadRow> {
    let name = Units::from_bytes(made.alloc, name.as_bytes())?;
    Ok(find_method(kind(&made.regions, receiver), &name))
}

/// What a function answers: `Math.min 2 -1` is its name and its arguments.
pub fn function_answer(alloc: Global, row: &str, left: u64) -> Result<String, BadRow> {
    let mut made = Made::new(alloc)?;
    let (name, args) = two(row, ' ');
    let args = made.values(args)?;
    let before = elements(&made.regions, made.key);
    let answer = match function_number(alloc, name)? {
        Some(number) => function(
            alloc,
            &mut made.regions,
            made.key,
            number,
            args.as_slice(),
            left,
        ),
        None => None,
    };
    answer_text(&made, before, answer)
}

// The number of a function by its name, or in digits.
fn function_number(alloc: Global, name: &str) -> Result<Option<u16>, BadRow> {
    let (object, property) = two(name, '.');
    let property = Units::from_bytes(alloc, property.as_bytes())?;
    Ok(match object {
        "Math" => find_property(0, &property),
        "Object" => find_property(1, &property),
        "Array" => find_property(2, &property),
        "String" => Some(3),
        "Error" => Some(4),
        "TypeError" => Some(5),
        "RangeError" => Some(6),
        digits => u16::try_from(number(digits)?).ok(),
    })
}

// The value, the elements that the call made and the steps besides; or the fault.
fn answer_text(
    made: &Made,
    before: u32,
    answer: Option<Result<Done, OpError>>,
) -> Result<String, BadRow> {
    let mut out = String::new(made.alloc);
    match answer {
        Some(Ok(done)) => {
            let count = elements(&made.regions, made.key).saturating_sub(before);
            put_value(&mut out, &made.regions, done.value)?;
            write!(out, " {} {}", count, done.steps)?;
        }
        Some(Err(OpError::Throws(thrown))) => {
            out.push_str(error_name(thrown.kind()))?;
            out.push_str(": ")?;
            out.push_str(thrown.message())?;
        }
        Some(Err(OpError::HeapFull)) => out.push_str("too many elements")?,
        Some(Err(OpError::StepsOut)) => out.push_str("too many steps")?,
        Some(Err(OpError::NoMemory)) => out.push_str("no memory")?,
        None => out.push_str("no call")?,
    }
    Ok(out)
}
