use crate::{failure_message, failure_text, inspect};
use ob_base::{Limit, List, NoMemory, Units};
use ob_items::decimal_units;
use ob_values::{
    AllocError, CodeKey, ErrorKind, Failure, Frame, Ref, RegionKey, Regions, SetError, Value,
};
use std::alloc::Global;
use std::test::Fail;

// The calls of the store ask for an open region, or for an item of some kind: each of these tests that
// first, and answers as where memory is refused if it doesn't hold.

fn text(regions: &mut Regions, key: RegionKey, units: &[u16]) -> Result<Ref, AllocError> {
    if regions.is_open(key) {
        regions.alloc_text(key, units)
    } else {
        Err(AllocError::NoMemory)
    }
}

fn array(regions: &mut Regions, key: RegionKey, items: &[Value]) -> Result<Value, AllocError> {
    if regions.is_open(key) {
        Ok(Value::Ref(regions.alloc_array(key, items)?))
    } else {
        Err(AllocError::NoMemory)
    }
}

fn object(regions: &mut Regions, key: RegionKey) -> Result<Ref, AllocError> {
    if regions.is_open(key) {
        regions.alloc_object(key)
    } else {
        Err(AllocError::NoMemory)
    }
}

fn set_key(regions: &mut Regions, r: Ref, key: &Units, value: Value) -> Result<(), SetError> {
    if regions.is_object(r) {
        regions.set_key(r, key, value)
    } else {
        Err(SetError::NoMemory)
    }
}

fn set_index(regions: &mut Regions, value: Value, item: Value) -> Result<(), SetError> {
    match value {
        Value::Ref(r) if regions.is_array(r) => regions.set_index(r, 0, item),
        _ => Err(SetError::NoMemory),
    }
}

fn error(
    regions: &mut Regions,
    key: RegionKey,
    kind: ErrorKind,
    message: &[u16],
) -> Result<Value, AllocError> {
    let message = text(regions, key, message)?;
    if regions.is_open(key) {
        Ok(Value::Ref(regions.alloc_error(key, kind, message)?))
    } else {
        Err(AllocError::NoMemory)
    }
}

fn inputs(regions: &mut Regions, key: RegionKey) -> Result<Ref, NoMemory> {
    if regions.is_open(key) {
        regions.place_inputs(key, &[])
    } else {
        Err(NoMemory)
    }
}

fn closure(regions: &mut Regions, key: RegionKey, inputs: Ref) -> Result<Value, AllocError> {
    let code = CodeKey {
        code: 0,
        function: 1,
    };
    if regions.is_open(key) {
        Ok(Value::Ref(regions.alloc_closure(key, code, &[], inputs, None)?))
    } else {
        Err(AllocError::NoMemory)
    }
}

fn generator(
    alloc: Global,
    regions: &mut Regions,
    key: RegionKey,
    inputs: Ref,
) -> Result<Value, AllocError> {
    let frame = Frame {
        code: CodeKey {
            code: 0,
            function: 1,
        },
        place: 0,
        boxes: List::new(alloc),
        inputs,
        locals: List::new(alloc),
        operands: List::new(alloc),
        catches: List::new(alloc),
    };
    if regions.is_open(key) {
        Ok(Value::Ref(regions.alloc_generator(key, frame)?))
    } else {
        Err(AllocError::NoMemory)
    }
}

fn invalidation(regions: &mut Regions, key: RegionKey) -> Result<Value, NoMemory> {
    if regions.is_open(key) {
        Ok(Value::Ref(regions.alloc_invalidation(key)?))
    } else {
        Err(NoMemory)
    }
}

// The units of a text.
fn units(alloc: Global, text: &str) -> Result<Units, NoMemory> {
    let mut units = Units::new(alloc);
    for unit in text.encode_utf16() {
        units.push(unit)?;
    }
    Ok(units)
}

// A text so many times.
fn repeated(alloc: Global, text: &str, times: usize) -> Result<String, NoMemory> {
    let mut all = String::new(alloc);
    for _ in 0..times {
        all.push_str(text)?;
    }
    Ok(all)
}

// A text, another one so many times, and a third.
fn around(
    alloc: Global,
    before: &str,
    text: &str,
    times: usize,
    after: &str,
) -> Result<String, NoMemory> {
    let mut all = String::from_str(alloc, before)?;
    all.push_str(repeated(alloc, text, times)?.as_str())?;
    all.push_str(after)?;
    Ok(all)
}

fn shows(alloc: Global, regions: &Regions, value: Value, text: &str) -> bool {
    match inspect(alloc, regions, value) {
        Ok(shown) => shown.as_str() == text,
        Err(_) => false,
    }
}

// Whether a text of these units is shown so.
fn is_quoted(alloc: Global, units: &[u16], shown: &str) -> Result<bool, Fail> {
    let mut regions = Regions::new(alloc);
    let key = regions.open()?;
    let value = Value::Ref(text(&mut regions, key, units)?);
    Ok(shows(alloc, &regions, value, shown))
}

// Whether an object with this key and the value 0 is shown so.
fn is_key(alloc: Global, name: &str, shown: &str) -> Result<bool, Fail> {
    let mut regions = Regions::new(alloc);
    let key = regions.open()?;
    let r = object(&mut regions, key)?;
    set_key(&mut regions, r, &units(alloc, name)?, Value::Int(0))?;
    let text = around(alloc, "{", shown, 1, ": 0}")?;
    Ok(shows(alloc, &regions, Value::Ref(r), text.as_str()))
}

#[test]
fn each_kind_of_value_has_its_text(rt: HostRuntime) -> Result<(), Fail> {
    let regions = Regions::new(rt.alloc());
    let nowhere = Ref {
        region: RegionKey(9),
        item: 0,
    };
    for (value, text) in [
        (Value::Undefined, "undefined"),
        (Value::Null, "null"),
        (Value::Bool(true), "true"),
        (Value::Bool(false), "false"),
        (Value::Int(0), "0"),
        (Value::Int(42), "42"),
        (Value::Int(-9_007_199_254_740_991), "-9007199254740991"),
        (Value::Builtin(0), "builtin"),
        (Value::Builtin(1), "builtin"),
        (Value::Builtin(2), "builtin"),
        (Value::Builtin(3), "function"),
        (Value::Builtin(7), "function"),
        (Value::Builtin(8), "invalidation"),
        (Value::Builtin(9), "function"),
        (Value::Builtin(1_000), "function"),
        (Value::Holder(3), "undefined"),
        (Value::Ref(nowhere), "undefined"),
    ] {
        assert!(rt; shows(rt.alloc(), &regions, value, text), "{text}");
    }
    Ok(())
}

#[test]
fn each_kind_of_item_has_its_text(rt: HostRuntime) -> Result<(), Fail> {
    let alloc = rt.alloc();
    let mut regions = Regions::new(alloc);
    let key = regions.open()?;
    let inputs = inputs(&mut regions, key)?;
    let said = [97, 34];
    let list = array(&mut regions, key, &[Value::Int(-1), Value::Null])?;
    for (value, text) in [
        (Value::Ref(text(&mut regions, key, &[])?), "\"\""),
        (array(&mut regions, key, &[])?, "[]"),
        (list, "[-1, null]"),
        (array(&mut regions, key, &[list])?, "[[-1, null]]"),
        (Value::Ref(object(&mut regions, key)?), "{}"),
        (closure(&mut regions, key, inputs)?, "function"),
        (generator(alloc, &mut regions, key, inputs)?, "generator"),
        (invalidation(&mut regions, key)?, "invalidation"),
        (
            error(&mut regions, key, ErrorKind::Error, &[])?,
            "Error(\"\")",
        ),
        (
            error(&mut regions, key, ErrorKind::Error, &said)?,
            "Error(\"a\\\"\")",
        ),
        (
            error(&mut regions, key, ErrorKind::TypeError, &said)?,
            "TypeError(\"a\\\"\")",
        ),
        (
            error(&mut regions, key, ErrorKind::RangeError, &said)?,
            "RangeError(\"a\\\"\")",
        ),
        (
            error(&mut regions, key, ErrorKind::ReferenceError, &said)?,
            "ReferenceError(\"a\\\"\")",
        ),
    ] {
        assert!(rt; shows(alloc, &regions, value, text), "{text}");
    }
    Ok(())
}

#[test]
fn texts_are_escaped(rt: HostRuntime) -> Result<(), Fail> {
    let alloc = rt.alloc();
    assert!(rt; is_quoted(alloc, &[34, 92, 10, 13, 9], "\"\\\"\\\\\\n\\r\\t\"")?);
    assert!(rt; is_quoted(alloc, &[0, 8, 0x1F, 0x20], "\"\\u0000\\u0008\\u001f \"")?);
    assert!(rt; is_quoted(alloc, &[0x7E, 0x7F, 0x80], "\"~\\u007f\u{80}\"")?);
    assert!(rt;
        is_quoted(
            alloc,
            &[0x2027, 0x2028, 0x2029, 0x202A],
            "\"\u{2027}\\u2028\\u2029\u{202A}\""
        )?
    );
    assert!(rt;
        is_quoted(
            alloc,
            &[0xE9, 0x7FF, 0x800, 0xFFFF],
            "\"\u{E9}\u{7FF}\u{800}\u{FFFF}\""
        )?
    );
    assert!(rt; is_quoted(alloc, &[39, 47, 36, 123], "\"'/${\"")?);
    Ok(())
}

#[test]
fn lone_surrogates_are_escaped(rt: HostRuntime) -> Result<(), Fail> {
    let alloc = rt.alloc();
    assert!(rt; is_quoted(alloc, &[0xD83D, 0xDE00], "\"\u{1F600}\"")?);
    assert!(rt;
        is_quoted(
            alloc,
            &[0xD800, 0xDC00, 0xDBFF, 0xDFFF],
            "\"\u{10000}\u{10FFFF}\""
        )?
    );
    assert!(rt; is_quoted(alloc, &[0xD83D], "\"\\ud83d\"")?);
    assert!(rt; is_quoted(alloc, &[0xDE00], "\"\\ude00\"")?);
    assert!(rt; is_quoted(alloc, &[0xDE00, 0xD83D], "\"\\ude00\\ud83d\"")?);
    assert!(rt; is_quoted(alloc, &[0xD83D, 97], "\"\\ud83da\"")?);
    assert!(rt;
        is_quoted(
            alloc,
            &[0xD83D, 0xD83D, 0xDE00, 0xDE00],
            "\"\\ud83d\u{1F600}\\ude00\""
        )?
    );
    assert!(rt; is_quoted(alloc, &[0xD7FF, 0xE000], "\"\u{D7FF}\u{E000}\"")?);
    Ok(())
}

#[test]
fn texts_are_cut_after_100_units(rt: HostRuntime) -> Result<(), Fail> {
    let alloc = rt.alloc();
    let whole = around(alloc, "\"", "a", 100, "\"")?;
    let cut = around(alloc, "\"", "a", 100, "\"...")?;
    let split = around(alloc, "\"", "a", 99, "\\ud83d\"...")?;
    let fits = around(alloc, "\"", "a", 98, "\u{1F600}\"")?;
    let escaped = around(alloc, "\"", "\\n", 100, "\"...")?;
    for (written, times, last, shown) in [
        ("a", 100, "", &whole),
        ("a", 101, "", &cut),
        ("a", 1_000, "", &cut),
        ("a", 98, "\u{1F600}", &fits),
        ("a", 99, "\u{1F600}", &split),
        ("\n", 101, "", &escaped),
    ] {
        let text = around(alloc, "", written, times, last)?;
        let given = units(alloc, text.as_str())?;
        assert!(rt;
            is_quoted(alloc, given.as_slice(), shown.as_str())?,
            "{shown}"
        );
    }
    Ok(())
}

#[test]
fn keys_are_plain_or_quoted(rt: HostRuntime) -> Result<(), Fail> {
    let alloc = rt.alloc();
    for (name, shown) in [
        ("a", "a"),
        ("$_Zz09", "$_Zz09"),
        ("if", "if"),
        ("undefined", "undefined"),
        ("0", "0"),
        ("16", "16"),
        ("4294967294", "4294967294"),
        ("4294967295", "\"4294967295\""),
        ("01", "\"01\""),
        ("-1", "\"-1\""),
        ("9a", "\"9a\""),
        ("", "\"\""),
        ("a b", "\"a b\""),
        ("a-b", "\"a-b\""),
        ("\u{E9}", "\"\u{E9}\""),
        ("a\"\n", "\"a\\\"\\n\""),
    ] {
        assert!(rt; is_key(alloc, name, shown)?, "{name}");
    }
    Ok(())
}

#[test]
fn a_key_that_is_cut_is_quoted(rt: HostRuntime) -> Result<(), Fail> {
    let alloc = rt.alloc();
    let whole = repeated(alloc, "k", 100)?;
    let long = repeated(alloc, "k", 101)?;
    let cut = around(alloc, "\"", "k", 100, "\"...")?;
    assert!(rt; is_key(alloc, whole.as_str(), whole.as_str())?);
    assert!(rt; is_key(alloc, long.as_str(), cut.as_str())?);
    Ok(())
}

#[test]
fn properties_stand_in_the_order_of_keys(rt: HostRuntime) -> Result<(), Fail> {
    let alloc = rt.alloc();
    let mut regions = Regions::new(alloc);
    let key = regions.open()?;
    let r = object(&mut regions, key)?;
    for (name, number) in [("b", 1), ("1", 2), ("a", 3)] {
        set_key(&mut regions, r, &units(alloc, name)?, Value::Int(number))?;
    }
    assert!(rt; shows(alloc, &regions, Value::Ref(r), "{1: 2, b: 1, a: 3}"));
    for (name, number) in [("10", 4), ("b", 5), ("9", 6)] {
        set_key(&mut regions, r, &units(alloc, name)?, Value::Int(number))?;
    }
    let list = array(&mut regions, key, &[Value::Ref(r)])?;
    assert!(rt; shows(alloc, &regions, list, "[{1: 2, 9: 6, 10: 4, b: 5, a: 3}]"));
    Ok(())
}

// So many arrays in one another, round a value.
fn nested(
    regions: &mut Regions,
    key: RegionKey,
    inner: Value,
    depth: usize,
) -> Result<Value, AllocError> {
    let mut value = inner;
    for _ in 0..depth {
        value = array(regions, key, &[value])?;
    }
    Ok(value)
}

#[test]
fn values_are_opened_to_depth_6(rt: HostRuntime) -> Result<(), Fail> {
    let alloc = rt.alloc();
    let mut regions = Regions::new(alloc);
    let key = regions.open()?;
    let one = object(&mut regions, key)?;
    set_key(&mut regions, one, &units(alloc, "a")?, Value::Int(1))?;
    let empty = Value::Ref(object(&mut regions, key)?);
    let none = array(&mut regions, key, &[])?;
    let one = Value::Ref(one);
    for (inner, depth, text) in [
        (Value::Int(1), 5, "[[[[[1]]]]]"),
        (Value::Int(1), 6, "[[[[[[1]]]]]]"),
        (Value::Int(1), 7, "[[[[[[[...]]]]]]]"),
        (Value::Int(1), 100, "[[[[[[[...]]]]]]]"),
        (none, 6, "[[[[[[[]]]]]]]"),
        (none, 7, "[[[[[[[...]]]]]]]"),
        (one, 5, "[[[[[{a: 1}]]]]]"),
        (one, 6, "[[[[[[{...}]]]]]]"),
        (empty, 6, "[[[[[[{}]]]]]]"),
    ] {
        let value = nested(&mut regions, key, inner, depth)?;
        assert!(rt; shows(alloc, &regions, value, text), "{text}");
    }
    Ok(())
}

#[test]
fn what_holds_itself_is_shown(rt: HostRuntime) -> Result<(), Fail> {
    let alloc = rt.alloc();
    let mut regions = Regions::new(alloc);
    let key = regions.open()?;
    let list = array(&mut regions, key, &[])?;
    assert!(rt; set_index(&mut regions, list, list) == Ok(()));
    assert!(rt; shows(alloc, &regions, list, "[[[[[[[...]]]]]]]"));
    let r = object(&mut regions, key)?;
    set_key(&mut regions, r, &units(alloc, "a")?, Value::Ref(r))?;
    assert!(rt;
        shows(
            alloc,
            &regions,
            Value::Ref(r),
            "{a: {a: {a: {a: {a: {a: {...}}}}}}}"
        )
    );
    Ok(())
}

// An array of so many zeros.
fn zeros(
    alloc: Global,
    regions: &mut Regions,
    key: RegionKey,
    count: usize,
) -> Result<Value, Fail> {
    let mut items = Vec::new(alloc);
    for _ in 0..count {
        items.push(Value::Int(0))?;
    }
    Ok(array(regions, key, items.as_slice())?)
}

#[test]
fn at_most_200_values_are_shown(rt: HostRuntime) -> Result<(), Fail> {
    let alloc = rt.alloc();
    let mut regions = Regions::new(alloc);
    let key = regions.open()?;
    let one = array(&mut regions, key, &[Value::Int(1)])?;
    for (count, shown, end) in [(199, 198, "0]"), (200, 199, "...]"), (1_000, 199, "...]")] {
        let list = zeros(alloc, &mut regions, key, count)?;
        let text = around(alloc, "[", "0, ", shown, end)?;
        assert!(rt; shows(alloc, &regions, list, text.as_str()), "{count}");
    }
    for (count, shown, end) in [
        (196, 195, "0], [1]]"),
        (197, 196, "0], [...]]"),
        (198, 197, "0], ...]"),
        (199, 198, "...], ...]"),
    ] {
        let list = zeros(alloc, &mut regions, key, count)?;
        let pair = array(&mut regions, key, &[list, one])?;
        let text = around(alloc, "[[", "0, ", shown, end)?;
        assert!(rt; shows(alloc, &regions, pair, text.as_str()), "{count}");
    }
    Ok(())
}

#[test]
fn at_most_199_properties_are_shown(rt: HostRuntime) -> Result<(), Fail> {
    let alloc = rt.alloc();
    let mut regions = Regions::new(alloc);
    let key = regions.open()?;
    let r = object(&mut regions, key)?;
    let mut text = String::from_str(alloc, "{")?;
    for index in 0..200_u64 {
        let name = decimal_units(alloc, index)?;
        set_key(&mut regions, r, &name, Value::Null)?;
        if index < 199 {
            write!(text, "{index}: null, ")?;
        }
    }
    text.push_str("...}")?;
    assert!(rt; shows(alloc, &regions, Value::Ref(r), text.as_str()));
    Ok(())
}

fn is_told(
    alloc: Global,
    regions: &Regions,
    failure: &Failure,
    text: &str,
    message: Option<&str>,
) -> Result<bool, Fail> {
    let told = failure_text(alloc, regions, failure)?;
    let same = match (failure_message(alloc, regions, failure)?, message) {
        (Some(given), Some(message)) => { given.as_slice() == units(alloc, message)?.as_slice() }
        (None, None) => true,
        _ => false,
    };
    Ok(same && told.as_str() == text)
}

#[test]
fn messages_of_the_runtime_are_told(rt: HostRuntime) -> Result<(), Fail> {
    let alloc = rt.alloc();
    let regions = Regions::new(alloc);
    let long = repeated(alloc, "\n", 101)?;
    let cut = around(alloc, "RuntimeError: ", "\\n", 100, "...")?;
    let most = repeated(alloc, "a", 100)?;
    let whole = around(alloc, "RuntimeError: ", "a", 100, "")?;
    for (message, text) in [
        ("", "RuntimeError: "),
        ("x is not defined", "RuntimeError: x is not defined"),
        ("a \"b\"\n\\\u{2028}", "RuntimeError: a \"b\"\\n\\\\\\u2028"),
        ("\u{1F600}", "RuntimeError: \u{1F600}"),
        (most.as_str(), whole.as_str()),
        (long.as_str(), cut.as_str()),
    ] {
        let failure = Failure::Runtime(units(alloc, message)?);
        assert!(rt;
            is_told(alloc, &regions, &failure, text, Some(message))?,
            "{text}"
        );
    }
    Ok(())
}

#[test]
fn errors_that_are_thrown_are_told(rt: HostRuntime) -> Result<(), Fail> {
    let alloc = rt.alloc();
    let mut regions = Regions::new(alloc);
    let key = regions.open()?;
    let long = repeated(alloc, "a", 101)?;
    let cut = around(alloc, "Error: ", "a", 100, "...")?;
    for (kind, message, text) in [
        (ErrorKind::Error, "", "Error: "),
        (ErrorKind::Error, "a\r\"b\"", "Error: a\\r\"b\""),
        (ErrorKind::Error, long.as_str(), cut.as_str()),
        (
            ErrorKind::TypeError,
            "not a function",
            "TypeError: not a function",
        ),
        (ErrorKind::RangeError, "x", "RangeError: x"),
        (ErrorKind::ReferenceError, "x", "ReferenceError: x"),
    ] {
        let said = units(alloc, message)?;
        let failure = Failure::Threw(error(&mut regions, key, kind, said.as_slice())?);
        assert!(rt;
            is_told(alloc, &regions, &failure, text, Some(message))?,
            "{text}"
        );
    }
    Ok(())
}

#[test]
fn other_failures_are_told(rt: HostRuntime) -> Result<(), Fail> {
    let alloc = rt.alloc();
    let mut regions = Regions::new(alloc);
    let key = regions.open()?;
    let said = Value::Ref(text(&mut regions, key, &[97, 34])?);
    let list = array(&mut regions, key, &[said])?;
    let inner = error(&mut regions, key, ErrorKind::Error, &[98])?;
    let holds = array(&mut regions, key, &[inner])?;
    for (failure, text, message) in [
        (Failure::Syntax, "SyntaxError", None),
        (Failure::Threw(Value::Int(5)), "thrown 5", None),
        (Failure::Threw(Value::Undefined), "thrown undefined", None),
        (Failure::Threw(said), "thrown \"a\\\"\"", None),
        (Failure::Threw(list), "thrown [\"a\\\"\"]", None),
        (Failure::Threw(holds), "thrown [Error(\"b\")]", None),
        (
            Failure::Limit(Limit::Steps),
            "RangeError: too many steps",
            Some("too many steps"),
        ),
        (
            Failure::Limit(Limit::Elements),
            "RangeError: too many elements",
            Some("too many elements"),
        ),
        (
            Failure::Limit(Limit::Calls),
            "RangeError: too many calls",
            Some("too many calls"),
        ),
    ] {
        assert!(rt;
            is_told(alloc, &regions, &failure, text, message)?,
            "{text}"
        );
    }
    Ok(())
}
