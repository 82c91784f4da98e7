use crate::{
    Done, abs, char_code_at, ends_with, error, includes, index_of, join, max, min, pad_start,
    repeat, sign, slice, split, starts_with, string,
};
use ob_base::Units;
use ob_values::{AllocError, Body, ErrorKind, OpError, Ref, RegionKey, Regions, Thrown, Value};
use std::alloc::Global;
use std::test::Fail;

/// A method or function.
#[derive(Clone, Copy)]
enum Call {
    Slice,
    Repeat,
    PadStart,
    IndexOf,
    Includes,
    StartsWith,
    EndsWith,
    Split,
    CharCodeAt,
    Min,
    Max,
    Abs,
    Sign,
    Text,
    Error,
}

use Call::{
    Abs, CharCodeAt, EndsWith, Includes, IndexOf, Max, Min, PadStart, Repeat, Sign, Slice, Split,
    StartsWith, Text,
};

/// An argument of a call.
#[derive(Clone, Copy)]
enum Argument {
    /// There is none.
    Missing,
    Undefined,
    Null,
    True,
    Int(i64),
    Of(&'static str),
    Function,
}

use Argument::{Function, Int, Missing, Null, Of, True, Undefined};

// The calls ask for an open region and for a text: this tests that first, and answers as where memory
// is refused if it doesn't hold.
fn run(
    alloc: Global,
    regions: &mut Regions,
    key: RegionKey,
    call: Call,
    receiver: Ref,
    args: &[Value],
    left: u64,
) -> Result<Done, OpError> {
    if regions.is_open(key) {
        if regions.is_text(receiver) {
            match call {
                Call::Slice => slice(alloc, regions, key, receiver, args, left),
                Call::Repeat => repeat(alloc, regions, key, receiver, args, left),
                Call::PadStart => pad_start(alloc, regions, key, receiver, args, left),
                Call::IndexOf => index_of(alloc, regions, key, receiver, args, left),
                Call::Includes => includes(alloc, regions, key, receiver, args, left),
                Call::StartsWith => starts_with(regions, key, receiver, args, left),
                Call::EndsWith => ends_with(regions, key, receiver, args, left),
                Call::Split => split(alloc, regions, key, receiver, args, left),
                Call::CharCodeAt => char_code_at(regions, key, receiver, args, left),
                Call::Min => min(regions, key, args, left),
                Call::Max => max(regions, key, args, left),
                Call::Abs => abs(regions, key, args, left),
                Call::Sign => sign(regions, key, args, left),
                Call::Text => string(alloc, regions, key, args, left),
                Call::Error => error(regions, key, ErrorKind::RangeError, args, left),
            }
        } else {
            Err(OpError::NoMemory)
        }
    } else {
        Err(OpError::NoMemory)
    }
}

fn units_text(regions: &mut Regions, key: RegionKey, units: &[u16]) -> Result<Ref, AllocError> {
    if regions.is_open(key) {
        regions.alloc_text(key, units)
    } else {
        Err(AllocError::NoMemory)
    }
}

fn text(
    alloc: Global,
    regions: &mut Regions,
    key: RegionKey,
    text: &str,
) -> Result<Ref, AllocError> {
    let units = Units::from_bytes(alloc, text.as_bytes())?;
    units_text(regions, key, units.as_slice())
}

fn array(regions: &mut Regions, key: RegionKey, items: &[Value]) -> Result<Ref, AllocError> {
    if regions.is_open(key) {
        regions.alloc_array(key, items)
    } else {
        Err(AllocError::NoMemory)
    }
}

fn elements(regions: &Regions, key: RegionKey) -> u32 {
    if regions.is_open(key) {
        regions.elements(key)
    } else {
        0
    }
}

// The values of the arguments up to the first that is missing.
fn values_of(
    alloc: Global,
    regions: &mut Regions,
    key: RegionKey,
    args: &[Argument],
) -> Result<Vec<Value>, Fail> {
    let mut values = Vec::with_capacity(alloc, args.len())?;
    for arg in args {
        let value = match arg {
            Argument::Missing => return Ok(values),
            Argument::Undefined => Value::Undefined,
            Argument::Null => Value::Null,
            Argument::True => Value::Bool(true),
            Argument::Int(number) => Value::Int(*number),
            Argument::Of(units) => Value::Ref(text(alloc, regions, key, units)?),
            Argument::Function => Value::Builtin(7),
        };
        values.push(value)?;
    }
    Ok(values)
}

fn put_units(out: &mut String, units: &[u16]) -> Result<(), Fail> {
    for unit in units {
        let byte = u8::try_from(*unit).unwrap_or(b'?');
        out.push(char::from(byte))?;
    }
    Ok(())
}

// The units of a text.
fn put_text(out: &mut String, regions: &Regions, value: Value) -> Result<(), Fail> {
    if let Value::Ref(r) = value {
        if let Some(body) = regions.find(r) {
            if let Body::Text(units) = body {
                return put_units(out, units.as_slice());
            }
        }
    }
    out.push_str("another")?;
    Ok(())
}

// The texts of an array, with a bar before each, or an error with its message.
fn put_item(out: &mut String, regions: &Regions, r: Ref) -> Result<(), Fail> {
    let Some(body) = regions.find(r) else {
        return Ok(());
    };
    match body {
        Body::Array(values) => {
            for part in values.as_slice() {
                out.push('|')?;
                put_text(out, regions, *part)?;
            }
            Ok(())
        }
        Body::Error(ErrorKind::RangeError, message) => {
            out.push_str("RangeError ")?;
            put_text(out, regions, Value::Ref(*message))
        }
        _ => put_text(out, regions, Value::Ref(r)),
    }
}

fn put_value(out: &mut String, regions: &Regions, value: Value) -> Result<(), Fail> {
    match value {
        Value::Bool(true) => out.push_str("true")?,
        Value::Bool(false) => out.push_str("false")?,
        Value::Int(number) => write!(out, "{number}")?,
        Value::Ref(r) => put_item(out, regions, r)?,
        _ => out.push_str("another")?,
    }
    Ok(())
}

// What a call gives, with the elements that it made and its steps, or why it gives nothing.
fn put_answer(
    out: &mut String,
    regions: &Regions,
    made: u32,
    answer: Result<Done, OpError>,
) -> Result<(), Fail> {
    match answer {
        Ok(done) => {
            put_value(out, regions, done.value)?;
            write!(out, " {} {}", made, done.steps)?;
        }
        Err(OpError::Throws(thrown)) => out.push_str(thrown.message())?,
        Err(OpError::HeapFull) => out.push_str("elements")?,
        Err(OpError::StepsOut) => out.push_str("steps")?,
        Err(OpError::NoMemory) => out.push_str("memory")?,
    }
    Ok(())
}

// The answer of a call on a text in a region of its own, where so many steps are left.
fn answer_with(
    alloc: Global,
    call: Call,
    receiver: &str,
    args: &[Argument],
    left: u64,
) -> Result<String, Fail> {
    let mut regions = Regions::new(alloc);
    let key = regions.open()?;
    let receiver = text(alloc, &mut regions, key, receiver)?;
    let values = values_of(alloc, &mut regions, key, args)?;
    let before = elements(&regions, key);
    let answer = run(
        alloc,
        &mut regions,
        key,
        call,
        receiver,
        values.as_slice(),
        left,
    );
    let made = elements(&regions, key).saturating_sub(before);
    let mut out = String::new(alloc);
    put_answer(&mut out, &regions, made, answer)?;
    Ok(out)
}

fn answer(alloc: Global, call: Call, receiver: &str, args: &[Argument]) -> Result<String, Fail> {
    answer_with(alloc, call, receiver, args, 100_000)
}

// Each answer is the value, the elements made and the steps besides.

#[test]
fn texts_are_made(rt: HostRuntime) -> Result<(), Fail> {
    for (call, receiver, first, second, expected) in [
        (Slice, "abcde", Missing, Missing, "abcde 1 0"),
        (Slice, "abcde", Int(1), Missing, "bcde 1 0"),
        (Slice, "abcde", Int(1), Int(3), "bc 1 0"),
        (Slice, "abcde", Int(-2), Missing, "de 1 0"),
        (Slice, "abcde", Int(-9), Int(-4), "a 1 0"),
        (Slice, "abcde", Int(3), Int(1), " 1 0"),
        (Slice, "abcde", Undefined, Int(99), "abcde 1 0"),
        (
            Slice,
            "abcdefghijklmnopq",
            Missing,
            Missing,
            "abcdefghijklmnopq 2 0",
        ),
        (
            Slice,
            "abcdefghijklmnop",
            Missing,
            Missing,
            "abcdefghijklmnop 1 0",
        ),
        (Slice, "abcde", Null, Missing, "bad argument"),
        (Slice, "abcde", Int(0), Of("1"), "bad argument"),
        (Repeat, "ab", Int(3), Missing, "ababab 1 0"),
        (Repeat, "ab", Int(0), Missing, " 1 0"),
        (Repeat, "", Int(9_007_199_254_740_991), Missing, " 1 0"),
        (Repeat, "ab", Int(-1), Missing, "bad count"),
        (Repeat, "ab", Int(32_769), Missing, "text too long"),
        (
            Repeat,
            "ab",
            Int(9_007_199_254_740_991),
            Missing,
            "text too long",
        ),
        (Repeat, "ab", Missing, Missing, "bad argument"),
        (PadStart, "ab", Int(5), Of("xy"), "xyxab 1 0"),
        (PadStart, "ab", Int(5), Undefined, "   ab 1 0"),
        (PadStart, "ab", Int(3), Of("xyz"), "xab 1 0"),
        (PadStart, "ab", Int(8), Of("xyz"), "xyzxyzab 1 0"),
        (PadStart, "ab", Int(2), Of("xy"), "ab 1 0"),
        (PadStart, "ab", Int(-7), Of("xy"), "ab 1 0"),
        (PadStart, "ab", Int(70_000), Of(""), "ab 1 0"),
        (PadStart, "ab", Int(65_537), Of("xy"), "text too long"),
        (PadStart, "ab", Of("5"), Of("xy"), "bad argument"),
        (PadStart, "ab", Int(5), Int(0), "bad argument"),
        (Text, "", Of("ab"), Missing, "ab 1 0"),
        (Text, "", Int(-120), Missing, "-120 1 0"),
        (Text, "", True, Missing, "true 1 0"),
        (Text, "", Null, Missing, "null 1 0"),
        (Text, "", Missing, Missing, "undefined 1 0"),
        (Text, "", Function, Missing, "bad argument"),
        (Call::Error, "", Of("ab"), Missing, "RangeError ab 1 0"),
        (Call::Error, "", Int(5), Missing, "RangeError 5 1 0"),
        (Call::Error, "", Missing, Missing, "RangeError  1 0"),
        (Call::Error, "", Null, Missing, "RangeError null 1 0"),
        (Call::Error, "", Function, Missing, "bad argument"),
    ] {
        let found = answer(rt.alloc(), call, receiver, &[first, second])?;
        assert_eq!(rt; found.as_str(), expected);
    }
    Ok(())
}

#[test]
fn pieces_are_found(rt: HostRuntime) -> Result<(), Fail> {
    for (call, receiver, arg, expected) in [
        (IndexOf, "abcabd", Of("abd"), "3 0 1"),
        (IndexOf, "abcabd", Of("abc"), "0 0 1"),
        (IndexOf, "abcabd", Of("d"), "5 0 1"),
        (IndexOf, "abcabd", Of(""), "0 0 1"),
        (IndexOf, "", Of(""), "0 0 0"),
        (IndexOf, "", Of("a"), "-1 0 0"),
        (IndexOf, "abcabd", Of("abcabde"), "-1 0 1"),
        (IndexOf, "aabaaabaaaab", Of("aaaab"), "7 0 1"),
        (IndexOf, "abababac", Of("ababac"), "2 0 1"),
        (IndexOf, "abcabcabcabcabcabd", Of("abcabd"), "12 0 2"),
        (IndexOf, "abc", Int(1), "bad argument"),
        (IndexOf, "abc", Missing, "bad argument"),
        (Includes, "abcabd", Of("bd"), "true 0 1"),
        (Includes, "abcabd", Of("bb"), "false 0 1"),
        (Includes, "abc", Null, "bad argument"),
        (StartsWith, "abcabd", Of("abc"), "true 0 1"),
        (StartsWith, "abcabd", Of("abd"), "false 0 1"),
        (StartsWith, "ab", Of("abc"), "false 0 1"),
        (StartsWith, "ab", True, "bad argument"),
        (EndsWith, "abcabd", Of("abd"), "true 0 1"),
        (EndsWith, "abcabd", Of("abc"), "false 0 1"),
        (EndsWith, "ab", Of(""), "true 0 1"),
        (EndsWith, "ab", Missing, "bad argument"),
        (Split, "a,b,c", Of(","), "|a|b|c 7 0"),
        (Split, "a,,b", Of(","), "|a||b 7 0"),
        (Split, ",", Of(","), "|| 5 0"),
        (Split, "abab", Of("ab"), "||| 7 0"),
        (Split, "aaa", Of("aa"), "||a 5 0"),
        (Split, "abc", Of("x"), "|abc 3 0"),
        (Split, "abc", Of("abcd"), "|abc 3 0"),
        (Split, "abc", Of(""), "|a|b|c 7 0"),
        (Split, "", Of(""), " 1 0"),
        (Split, "", Of("x"), "| 3 0"),
        (
            Split,
            "abcdefghijklmnopq,r",
            Of(","),
            "|abcdefghijklmnopq|r 6 0",
        ),
        (Split, "abc", Missing, "bad argument"),
        (CharCodeAt, "abc", Int(0), "97 0 0"),
        (CharCodeAt, "abc", Int(2), "99 0 0"),
        (CharCodeAt, "abc", Int(3), "index past the end"),
        (CharCodeAt, "abc", Int(-1), "index past the end"),
        (CharCodeAt, "abc", Of("0"), "bad argument"),
    ] {
        let found = answer(rt.alloc(), call, receiver, &[arg])?;
        assert_eq!(rt; found.as_str(), expected);
    }
    Ok(())
}

#[test]
fn numbers_are_given(rt: HostRuntime) -> Result<(), Fail> {
    for (call, args, expected) in [
        (Min, [Int(3), Int(-2), Int(5)], "-2 0 0"),
        (Min, [Int(3), Missing, Missing], "3 0 0"),
        (Min, [Missing, Missing, Missing], "bad count"),
        (Min, [Int(3), Of("2"), Missing], "bad argument"),
        (Min, [Undefined, Int(2), Missing], "bad argument"),
        (Max, [Int(3), Int(-2), Int(5)], "5 0 0"),
        (Max, [Int(-3), Int(-3), Missing], "-3 0 0"),
        (Max, [Missing, Missing, Missing], "bad count"),
        (Max, [Int(3), Int(2), Null], "bad argument"),
        (
            Abs,
            [Int(-9_007_199_254_740_991), Missing, Missing],
            "9007199254740991 0 0",
        ),
        (Abs, [Int(0), Missing, Missing], "0 0 0"),
        (Abs, [Missing, Missing, Missing], "bad argument"),
        (Sign, [Int(-7), Missing, Missing], "-1 0 0"),
        (Sign, [Int(0), Missing, Missing], "0 0 0"),
        (Sign, [Int(12), Missing, Missing], "1 0 0"),
        (Sign, [True, Missing, Missing], "bad argument"),
    ] {
        let found = answer(rt.alloc(), call, "", &args)?;
        assert_eq!(rt; found.as_str(), expected);
    }
    Ok(())
}

#[test]
fn steps_run_out(rt: HostRuntime) -> Result<(), Fail> {
    for (call, receiver, first, second, left, expected) in [
        (Slice, "ab", Missing, Missing, 0, "steps"),
        (Slice, "ab", Missing, Missing, 1, "ab 1 0"),
        (Slice, "ab", Null, Missing, 0, "bad argument"),
        (Repeat, "abcdefgh", Int(3), Missing, 1, "steps"),
        (
            Repeat,
            "abcdefgh",
            Int(2),
            Missing,
            1,
            "abcdefghabcdefgh 1 0",
        ),
        (Repeat, "ab", Int(40_000), Missing, 0, "text too long"),
        (PadStart, "ab", Int(17), Missing, 1, "steps"),
        (IndexOf, "ab", Of("b"), Missing, 0, "steps"),
        (IndexOf, "ab", Of("b"), Missing, 1, "1 0 1"),
        (IndexOf, "abcdefghijklmnopq", Of("q"), Missing, 1, "steps"),
        (IndexOf, "", Of("q"), Missing, 0, "-1 0 0"),
        (StartsWith, "ab", Of("b"), Missing, 0, "steps"),
        (EndsWith, "ab", Int(1), Missing, 0, "bad argument"),
        (Split, "a,b", Of(","), Missing, 4, "steps"),
        (Split, "a,b", Of(","), Missing, 5, "|a|b 5 0"),
        (Split, "ab", Of(""), Missing, 4, "steps"),
        (Split, "ab", Of("abc"), Missing, 2, "steps"),
        (CharCodeAt, "ab", Int(1), Missing, 0, "98 0 0"),
        (Text, "", Int(7), Missing, 0, "steps"),
        (Call::Error, "", Int(7), Missing, 0, "steps"),
        (Max, "", Int(7), Int(8), 0, "8 0 0"),
    ] {
        let found = answer_with(rt.alloc(), call, receiver, &[first, second], left)?;
        assert_eq!(rt; found.as_str(), expected);
    }
    Ok(())
}

// A region that has so many elements beside those of a text "ab" and of the texts "," and "".
fn full(
    alloc: Global,
    regions: &mut Regions,
    beside: usize,
) -> Result<(RegionKey, [Ref; 3]), Fail> {
    let key = regions.open()?;
    let receiver = text(alloc, regions, key, "a,b")?;
    let comma = text(alloc, regions, key, ",")?;
    let empty = text(alloc, regions, key, "")?;
    let mut items = Vec::with_capacity(alloc, beside)?;
    for _turn in 0..beside {
        items.push(Value::Undefined)?;
    }
    array(regions, key, items.as_slice())?;
    Ok((key, [receiver, comma, empty]))
}

// A region of 50,000 elements less the room that is left: each call needs so many, and with one less
// it is refused.
#[test]
fn regions_get_full(rt: HostRuntime) -> Result<(), Fail> {
    let alloc = rt.alloc();
    for (call, needs) in [(Slice, 1), (Split, 5), (Text, 1), (Call::Error, 1)] {
        for less in [0, 1] {
            let mut regions = Regions::new(alloc);
            let (key, [receiver, comma, _empty]) = full(
                alloc,
                &mut regions,
                49_996 - needs + less,
            )?;
            let arg = if needs == 5 {
                Value::Ref(comma)
            } else {
                Value::Undefined
            };
            let answer = run(alloc, &mut regions, key, call, receiver, &[arg], 100_000);
            assert_eq!(rt; answer.is_ok(), less == 0);
            assert_eq!(rt; answer == Err(OpError::HeapFull), less == 1);
            let fits = if less == 0 { 50_000 } else { 50_001 - needs };
            assert_eq!(rt; elements(&regions, key) as usize, fits);
        }
    }
    Ok(())
}

// The search goes on from what it knows: a search that began anew at each place would take a thousand
// million turns here.
#[test]
fn a_long_search_is_quick(rt: HostRuntime) -> Result<(), Fail> {
    let alloc = rt.alloc();
    let mut regions = Regions::new(alloc);
    let key = regions.open()?;
    let mut units = vec![in alloc; 97u16; 65_536]?;
    let receiver = units_text(&mut regions, key, units.as_slice())?;
    units.truncate(32_768);
    units.push(98)?;
    let piece = units_text(&mut regions, key, units.as_slice())?;
    for call in [IndexOf, Includes] {
        let answer = run(
            alloc,
            &mut regions,
            key,
            call,
            receiver,
            &[Value::Ref(piece)],
            4_096,
        );
        assert!(rt; answer.is_ok());
    }
    let answer = run(
        alloc,
        &mut regions,
        key,
        Split,
        receiver,
        &[Value::Ref(piece)],
        4_098,
    );
    assert!(rt; answer.is_ok());
    Ok(())
}

fn joined(
    alloc: Global,
    regions: &mut Regions,
    key: RegionKey,
    r: Ref,
    args: &[Value],
    left: u64,
) -> Result<Done, OpError> {
    if regions.is_open(key) && regions.is_array(r) {
        join(alloc, regions, key, r, args, left)
    } else {
        Err(OpError::NoMemory)
    }
}

#[test]
fn elements_are_joined(rt: HostRuntime) -> Result<(), Fail> {
    let alloc = rt.alloc();
    let mut regions = Regions::new(alloc);
    let key = regions.open()?;
    let x = text(alloc, &mut regions, key, "x")?;
    let bar = text(alloc, &mut regions, key, "--")?;
    let items = [
        Value::Int(-12),
        Value::Null,
        Value::Bool(false),
        Value::Ref(x),
        Value::Undefined,
    ];
    let r = array(&mut regions, key, &items)?;
    for (separator, left, expected) in [
        (Value::Undefined, 6, "-12,,false,x, 1 5"),
        (Value::Undefined, 5, "steps"),
        (Value::Ref(bar), 7, "-12----false--x-- 2 5"),
        (Value::Ref(bar), 6, "steps"),
        (Value::Ref(r), 9, "bad argument"),
    ] {
        let before = elements(&regions, key);
        let answer = joined(alloc, &mut regions, key, r, &[separator], left);
        let made = elements(&regions, key).saturating_sub(before);
        let mut out = String::new(alloc);
        put_answer(&mut out, &regions, made, answer)?;
        assert_eq!(rt; out.as_str(), expected);
    }
    Ok(())
}

// The fault of an element comes before that of the length, and that before the limits.
#[test]
fn what_is_joined_may_be_too_long(rt: HostRuntime) -> Result<(), Fail> {
    let alloc = rt.alloc();
    let mut regions = Regions::new(alloc);
    let key = regions.open()?;
    let units = vec![in alloc; 97u16; 32_768]?;
    let long = units_text(&mut regions, key, units.as_slice())?;
    let two = array(&mut regions, key, &[Value::Ref(long), Value::Ref(long)])?;
    let bad = array(
        &mut regions,
        key,
        &[Value::Ref(long), Value::Ref(long), Value::Ref(two)],
    )?;
    let empty = text(alloc, &mut regions, key, "")?;
    let long = Err(OpError::Throws(Thrown::TextTooLong));
    assert!(rt; joined(alloc, &mut regions, key, two, &[], 0) == long);
    let all = joined(alloc, &mut regions, key, two, &[Value::Ref(empty)], 4_098);
    assert!(rt; all.is_ok());
    let answer = joined(alloc, &mut regions, key, bad, &[], 0);
    assert!(rt; answer == Err(OpError::Throws(Thrown::BadArgument)));
    Ok(())
}
