use crate::{TypeName, binary, compare, is_truthy, type_of, unary};
use ob_base::{BinaryOp, CompareOp, MAX_INTEGER, NoMemory, UnaryOp, Units};
use ob_values::{AllocError, CodeKey, ErrorKind, OpError, Ref, RegionKey, Regions, Thrown, Value};
use std::alloc::Global;
use std::test::Fail;

const MAX: i64 = MAX_INTEGER;

const OPERATORS: [BinaryOp; 12] = [
    BinaryOp::Add,
    BinaryOp::Sub,
    BinaryOp::Mul,
    BinaryOp::Div,
    BinaryOp::Rem,
    BinaryOp::Pow,
    BinaryOp::BitAnd,
    BinaryOp::BitOr,
    BinaryOp::BitXor,
    BinaryOp::Shl,
    BinaryOp::Shr,
    BinaryOp::ShrUnsigned,
];

// The calls ask for an open region: each of these tests that first, and answers as where memory is
// refused if it doesn't hold.

fn run(
    alloc: Global,
    regions: &mut Regions,
    key: RegionKey,
    op: BinaryOp,
    a: Value,
    b: Value,
    left: u64,
) -> Result<Value, OpError> {
    if regions.is_open(key) {
        binary(alloc, regions, key, op, a, b, left)
    } else {
        Err(OpError::NoMemory)
    }
}

fn run_unary(regions: &Regions, op: UnaryOp, a: Value) -> Option<Result<Value, Thrown>> {
    if op != UnaryOp::Typeof {
        Some(unary(regions, op, a))
    } else {
        None
    }
}

fn text(
    alloc: Global,
    regions: &mut Regions,
    key: RegionKey,
    text: &str,
) -> Result<Value, AllocError> {
    let units = Units::from_bytes(alloc, text.as_bytes())?;
    units_text(regions, key, units.as_slice())
}

fn text_ref(regions: &mut Regions, key: RegionKey, units: &[u16]) -> Result<Ref, AllocError> {
    if regions.is_open(key) {
        regions.alloc_text(key, units)
    } else {
        Err(AllocError::NoMemory)
    }
}

fn units_text(regions: &mut Regions, key: RegionKey, units: &[u16]) -> Result<Value, AllocError> {
    Ok(Value::Ref(text_ref(regions, key, units)?))
}

fn array(regions: &mut Regions, key: RegionKey, items: &[Value]) -> Result<Ref, AllocError> {
    if regions.is_open(key) {
        regions.alloc_array(key, items)
    } else {
        Err(AllocError::NoMemory)
    }
}

fn object(regions: &mut Regions, key: RegionKey) -> Result<Ref, AllocError> {
    if regions.is_open(key) {
        regions.alloc_object(key)
    } else {
        Err(AllocError::NoMemory)
    }
}

fn error(regions: &mut Regions, key: RegionKey, message: Ref) -> Result<Ref, AllocError> {
    if regions.is_open(key) {
        regions.alloc_error(key, ErrorKind::Error, message)
    } else {
        Err(AllocError::NoMemory)
    }
}

fn inputs(regions: &mut Regions, key: RegionKey) -> Result<Ref, NoMemory> {
    if regions.is_open(key) {
        regions.place_inputs(key, &[])
    } else {
        Err(NoMemory)
    }
}

fn closure(regions: &mut Regions, key: RegionKey, inputs: Ref) -> Result<Ref, AllocError> {
    let code = CodeKey {
        code: 0,
        function: 1,
    };
    if regions.is_open(key) {
        regions.alloc_closure(key, code, &[], inputs, None)
    } else {
        Err(AllocError::NoMemory)
    }
}

fn invalidation(regions: &mut Regions, key: RegionKey) -> Result<Ref, NoMemory> {
    if regions.is_open(key) {
        regions.alloc_invalidation(key)
    } else {
        Err(NoMemory)
    }
}

fn elements(regions: &Regions, key: RegionKey) -> Option<u32> {
    if regions.is_open(key) {
        Some(regions.elements(key))
    } else {
        None
    }
}

// A value of each kind: 6 that have a text, of which the last is one; then those that have none.
fn kinds(alloc: Global, regions: &mut Regions, key: RegionKey) -> Result<[Value; 12], Fail> {
    let message = text_ref(regions, key, &[])?;
    let inputs = inputs(regions, key)?;
    Ok([
        Value::Int(7),
        Value::Undefined,
        Value::Null,
        Value::Bool(true),
        Value::Bool(false),
        text(alloc, regions, key, "ab")?,
        Value::Builtin(3),
        Value::Ref(array(regions, key, &[])?),
        Value::Ref(object(regions, key)?),
        Value::Ref(error(regions, key, message)?),
        Value::Ref(closure(regions, key, inputs)?),
        Value::Ref(invalidation(regions, key)?),
    ])
}

fn units(alloc: Global, text: &str) -> Result<Units, NoMemory> {
    Units::from_bytes(alloc, text.as_bytes())
}

fn has_units(regions: &Regions, value: Value, units: &[u16]) -> bool {
    match value {
        Value::Ref(r) => regions.is_text(r) && regions.text(r) == units,
        _ => false,
    }
}

fn operator(word: &str) -> Option<BinaryOp> {
    match word {
        "+" => Some(BinaryOp::Add),
        "-" => Some(BinaryOp::Sub),
        "*" => Some(BinaryOp::Mul),
        "/" => Some(BinaryOp::Div),
        "%" => Some(BinaryOp::Rem),
        "**" => Some(BinaryOp::Pow),
        "&" => Some(BinaryOp::BitAnd),
        "|" => Some(BinaryOp::BitOr),
        "^" => Some(BinaryOp::BitXor),
        "<<" => Some(BinaryOp::Shl),
        ">>" => Some(BinaryOp::Shr),
        ">>>" => Some(BinaryOp::ShrUnsigned),
        _ => None,
    }
}

fn number(word: &str) -> Option<Value> {
    match i64::from_str_radix(word, 10) {
        Ok(number) => Some(Value::Int(number)),
        Err(_) => None,
    }
}

// What a row expects: a number, or the fault that is thrown.
fn expected(word: &str) -> Option<Result<Value, OpError>> {
    match word {
        "range" => Some(Err(OpError::Throws(Thrown::OutOfRange))),
        "inexact" => Some(Err(OpError::Throws(Thrown::InexactQuotient))),
        "zero" => Some(Err(OpError::Throws(Thrown::DivisionByZero))),
        _ => match number(word) {
            Some(value) => Some(Ok(value)),
            None => None,
        },
    }
}

// What an operator gives as a row says, and what the row expects: `2 + 3 = 5`.
fn answers(
    alloc: Global,
    regions: &mut Regions,
    key: RegionKey,
    row: &str,
) -> Option<(Result<Value, OpError>, Result<Value, OpError>)> {
    let mut words = row.split_whitespace();
    let a = number(words.next()?)?;
    let op = operator(words.next()?)?;
    let b = number(words.next()?)?;
    let _equals = words.next()?;
    let expected = expected(words.next()?)?;
    Some((run(alloc, regions, key, op, a, b, 0), expected))
}

fn holds(alloc: Global, regions: &mut Regions, key: RegionKey, row: &str) -> bool {
    match answers(alloc, regions, key, row) {
        Some((answer, expected)) => answer == expected,
        None => false,
    }
}

#[test]
fn arithmetic_is_exact(rt: HostRuntime) -> Result<(), Fail> {
    let alloc = rt.alloc();
    let mut regions = Regions::new(alloc);
    let key = regions.open()?;
    for row in [
        "2 + 3 = 5",
        "9007199254740991 + 1 = range",
        "-9007199254740991 + -1 = range",
        "9007199254740991 + -9007199254740991 = 0",
        "3 - 5 = -2",
        "-9007199254740991 - 1 = range",
        "9007199254740991 - 9007199254740991 = 0",
        "-5 * 0 = 0",
        "94906265 * 94906265 = 9007199136250225",
        "94906266 * 94906266 = range",
        "94906266 * -94906266 = range",
        "9007199254740991 * 9007199254740991 = range",
        "9007199254740991 * -1 = -9007199254740991",
        "6 / 4 = inexact",
        "6 / -2 = -3",
        "-7 / 2 = inexact",
        "0 / -5 = 0",
        "7 / 0 = zero",
        "0 / 0 = zero",
        "-9007199254740991 / -1 = 9007199254740991",
        "-7 % 3 = -1",
        "7 % -3 = 1",
        "-6 % 3 = 0",
        "5 % 9007199254740991 = 5",
        "7 % 0 = zero",
        "0 ** 0 = 1",
        "0 ** 9007199254740991 = 0",
        "0 ** -1 = zero",
        "1 ** -5 = 1",
        "-1 ** -3 = -1",
        "-1 ** -2 = 1",
        "-1 ** 9007199254740991 = -1",
        "-1 ** -9007199254740991 = -1",
        "2 ** -1 = inexact",
        "2 ** 52 = 4503599627370496",
        "-2 ** 52 = 4503599627370496",
        "-2 ** 3 = -8",
        "2 ** 53 = range",
        "-2 ** 53 = range",
        "2 ** 9007199254740991 = range",
        "3 ** 33 = 5559060566555523",
        "3 ** 34 = range",
        "10 ** 15 = 1000000000000000",
        "9007199254740991 ** 1 = 9007199254740991",
        "-9007199254740991 ** 0 = 1",
        "9007199254740991 ** 2 = range",
    ] {
        assert!(rt; holds(alloc, &mut regions, key, row), "{row}");
    }
    assert_eq!(rt; elements(&regions, key), Some(0));
    Ok(())
}

#[test]
fn bits_are_those_of_twos_complement(rt: HostRuntime) -> Result<(), Fail> {
    let alloc = rt.alloc();
    let mut regions = Regions::new(alloc);
    let key = regions.open()?;
    for row in [
        "-9007199254740991 & 4294967295 = 1",
        "6 & 3 = 2",
        "-1 & -1 = -1",
        "9007199254740991 | 0 = -1",
        "2147483648 | 0 = -2147483648",
        "4294967296 | 0 = 0",
        "5 | 2 = 7",
        "5 ^ 3 = 6",
        "2147483647 ^ -1 = -2147483648",
        "-1 ^ -1 = 0",
        "1 << 31 = -2147483648",
        "1 << 32 = 1",
        "1 << 33 = 2",
        "1 << -1 = -2147483648",
        "3 << 31 = -2147483648",
        "9007199254740991 << 4 = -16",
        "4294967297 << 4294967297 = 2",
        "-1 >> 31 = -1",
        "-8 >> 1 = -4",
        "-7 >> 1 = -4",
        "2147483648 >> 31 = -1",
        "8 >> 32 = 8",
        "8 >> 33 = 4",
        "1 >> -1 = 0",
        "-1 >>> 0 = 4294967295",
        "-1 >>> 31 = 1",
        "-1 >>> 32 = 4294967295",
        "-1 >>> 33 = 2147483647",
        "-1 >>> -1 = 1",
        "-9007199254740991 >>> 0 = 1",
        "4294967296 >>> 0 = 0",
    ] {
        assert!(rt; holds(alloc, &mut regions, key, row), "{row}");
    }
    Ok(())
}

// The kinds are in the order of `kinds`: the first is a number, the sixth a text, and those from the
// seventh on have no text.
fn is_taken(op: BinaryOp, a: usize, b: usize) -> bool {
    (a == 0 && b == 0) || (op == BinaryOp::Add && (a == 5 && b < 6 || b == 5 && a < 6))
}

// Whether an operator takes a value beside each of the kinds as it is to.
fn takes_as_it_should(
    alloc: Global,
    regions: &mut Regions,
    key: RegionKey,
    op: BinaryOp,
    values: &[Value],
    at: usize,
) -> bool {
    let mut right = true;
    for (beside, b) in values.iter().enumerate() {
        let a = values.get(at).copied().unwrap_or(Value::Undefined);
        let answer = run(alloc, regions, key, op, a, *b, 1);
        let refused = answer == Err(OpError::Throws(Thrown::WrongOperand));
        let taken = is_taken(op, at, beside);
        right = right && answer.is_ok() == taken && refused != taken;
    }
    right
}

#[test]
fn operators_take_their_kinds(rt: HostRuntime) -> Result<(), Fail> {
    let alloc = rt.alloc();
    let mut regions = Regions::new(alloc);
    let key = regions.open()?;
    let values = kinds(alloc, &mut regions, key)?;
    for op in OPERATORS {
        for at in 0..values.len() {
            let right = takes_as_it_should(alloc, &mut regions, key, op, &values, at);
            assert!(rt; right, "{op:?} {at}");
        }
    }
    Ok(())
}

#[test]
fn sums_of_texts_are_texts(rt: HostRuntime) -> Result<(), Fail> {
    let alloc = rt.alloc();
    let mut regions = Regions::new(alloc);
    let key = regions.open()?;
    let ab = text(alloc, &mut regions, key, "ab")?;
    let empty = text(alloc, &mut regions, key, "")?;
    for (a, b, expected) in [
        (ab, Value::Int(-12), "ab-12"),
        (Value::Int(5), ab, "5ab"),
        (ab, ab, "abab"),
        (ab, empty, "ab"),
        (empty, empty, ""),
        (ab, Value::Undefined, "abundefined"),
        (Value::Null, ab, "nullab"),
        (Value::Bool(true), empty, "true"),
        (empty, Value::Bool(false), "false"),
        (Value::Int(MAX), empty, "9007199254740991"),
    ] {
        let before = elements(&regions, key);
        let sum = run(alloc, &mut regions, key, BinaryOp::Add, a, b, 1)?;
        let units = units(alloc, expected)?;
        assert!(rt; has_units(&regions, sum, units.as_slice()), "{expected}");
        let after = before.and_then(|count| count.checked_add(1));
        assert_eq!(rt; elements(&regions, key), after, "{expected}");
    }
    let high = units_text(&mut regions, key, &[0xd83d])?;
    let low = units_text(&mut regions, key, &[0xde00])?;
    let sum = run(alloc, &mut regions, key, BinaryOp::Add, high, low, 1)?;
    assert!(rt; has_units(&regions, sum, &[0xd83d, 0xde00]));
    Ok(())
}

fn long(alloc: Global, len: usize) -> Result<Vec<u16>, Fail> {
    let mut units = Vec::new(alloc);
    for _ in 0..len {
        units.push(120)?;
    }
    Ok(units)
}

#[test]
fn faults_of_sums_have_an_order(rt: HostRuntime) -> Result<(), Fail> {
    let alloc = rt.alloc();
    let mut regions = Regions::new(alloc);
    let key = regions.open()?;
    let full = units_text(&mut regions, key, long(alloc, 65_536)?.as_slice())?;
    let most = units_text(&mut regions, key, long(alloc, 65_535)?.as_slice())?;
    let one = text(alloc, &mut regions, key, "x")?;
    let list = Value::Ref(array(&mut regions, key, &[])?);
    let none = text(alloc, &mut regions, key, "")?;
    for (a, b, left, fault) in [
        (full, one, 0, OpError::Throws(Thrown::TextTooLong)),
        (list, full, 0, OpError::Throws(Thrown::WrongOperand)),
        (most, one, 4_095, OpError::StepsOut),
        (none, none, 0, OpError::StepsOut),
    ] {
        let answer = run(alloc, &mut regions, key, BinaryOp::Add, a, b, left);
        assert!(rt; answer == Err(fault), "{fault:?}");
    }
    assert_eq!(rt; elements(&regions, key), Some(8_195));
    for (a, b, count) in [(most, one, 8_195 + 4_096), (full, none, 8_195 + 8_192)] {
        let answer = run(alloc, &mut regions, key, BinaryOp::Add, a, b, 4_096);
        assert!(rt; answer.is_ok());
        assert_eq!(rt; elements(&regions, key), Some(count));
    }
    Ok(())
}

#[test]
fn a_full_region_takes_no_sum(rt: HostRuntime) -> Result<(), Fail> {
    let alloc = rt.alloc();
    let mut regions = Regions::new(alloc);
    let key = regions.open()?;
    let other = regions.open()?;
    let one = text(alloc, &mut regions, other, "x")?;
    let mut items = Vec::new(alloc);
    for _ in 0..49_998 {
        items.push(Value::Undefined)?;
    }
    let _list = array(&mut regions, key, items.as_slice())?;
    assert_eq!(rt; elements(&regions, key), Some(49_999));
    let last = run(alloc, &mut regions, key, BinaryOp::Add, one, one, 1)?;
    assert_eq!(rt; elements(&regions, key), Some(50_000));
    for (a, b, left, expected) in [
        (one, last, 0, Err(OpError::HeapFull)),
        (
            one,
            Value::Builtin(0),
            0,
            Err(OpError::Throws(Thrown::WrongOperand)),
        ),
        (Value::Int(1), Value::Int(2), 0, Ok(Value::Int(3))),
    ] {
        assert_eq!(rt;
            run(alloc, &mut regions, key, BinaryOp::Add, a, b, left),
            expected
        );
    }
    Ok(())
}

#[test]
fn unary_operators_are_exact(rt: HostRuntime) -> Result<(), Fail> {
    let regions = Regions::new(rt.alloc());
    for (op, a, expected) in [
        (UnaryOp::Minus, 0, 0),
        (UnaryOp::Minus, MAX, -MAX),
        (UnaryOp::Plus, -MAX, -MAX),
        (UnaryOp::BitNot, 0, -1),
        (UnaryOp::BitNot, -1, 0),
        (UnaryOp::BitNot, 2_147_483_647, -2_147_483_648),
        (UnaryOp::BitNot, MAX, 0),
        (UnaryOp::BitNot, 4_294_967_296, -1),
    ] {
        let answer = run_unary(&regions, op, Value::Int(a));
        assert_eq!(rt; answer, Some(Ok(Value::Int(expected))), "{op:?} {a}");
    }
    Ok(())
}

// Whether the unary operators take a value of a kind, by its place, as they are to.
fn takes_one_as_it_should(regions: &Regions, at: usize, a: Value) -> bool {
    let wrong = Some(Err(Thrown::WrongOperand));
    let falsy = at == 1 || at == 2 || at == 4;
    (run_unary(regions, UnaryOp::Minus, a) == wrong) == (at > 0)
        && (run_unary(regions, UnaryOp::Plus, a) == wrong) == (at > 0)
        && (run_unary(regions, UnaryOp::BitNot, a) == wrong) == (at > 0)
        && run_unary(regions, UnaryOp::Void, a) == Some(Ok(Value::Undefined))
        && run_unary(regions, UnaryOp::Not, a) == Some(Ok(Value::Bool(falsy)))
        && is_truthy(regions, a) != falsy
}

#[test]
fn unary_operators_take_their_kinds(rt: HostRuntime) -> Result<(), Fail> {
    let alloc = rt.alloc();
    let mut regions = Regions::new(alloc);
    let key = regions.open()?;
    let values = kinds(alloc, &mut regions, key)?;
    for (at, a) in values.iter().enumerate() {
        assert!(rt; takes_one_as_it_should(&regions, at, *a), "{at}");
    }
    let empty = text(alloc, &mut regions, key, "")?;
    assert!(rt; !is_truthy(&regions, empty));
    assert!(rt; !is_truthy(&regions, Value::Int(0)));
    Ok(())
}

// Whether a value is less than, greater than, at most and at least another, as a row says.
fn is_ordered(regions: &Regions, x: Value, y: Value, expected: [bool; 4]) -> bool {
    let [less, greater, at_most, at_least] = expected;
    compare(regions, CompareOp::Less, x, y) == Ok(less)
        && compare(regions, CompareOp::Greater, x, y) == Ok(greater)
        && compare(regions, CompareOp::LessEq, x, y) == Ok(at_most)
        && compare(regions, CompareOp::GreaterEq, x, y) == Ok(at_least)
}

#[test]
fn orders_are_of_numbers_or_of_texts(rt: HostRuntime) -> Result<(), Fail> {
    let alloc = rt.alloc();
    let mut regions = Regions::new(alloc);
    let key = regions.open()?;
    let a = text(alloc, &mut regions, key, "a")?;
    let ab = text(alloc, &mut regions, key, "ab")?;
    let b = text(alloc, &mut regions, key, "B")?;
    let ten = text(alloc, &mut regions, key, "10")?;
    let nine = text(alloc, &mut regions, key, "9")?;
    let high = units_text(&mut regions, key, &[0xd83d, 0xde00])?;
    let private = units_text(&mut regions, key, &[0xe000])?;
    let below = [true, false, true, false];
    let same = [false, false, true, true];
    let above = [false, true, false, true];
    for (x, y, expected) in [
        (Value::Int(-1), Value::Int(0), below),
        (Value::Int(3), Value::Int(3), same),
        (Value::Int(MAX), Value::Int(-MAX), above),
        (a, ab, below),
        (ab, a, above),
        (a, a, same),
        (b, a, below),
        (ten, nine, below),
        (high, private, below),
    ] {
        assert!(rt; is_ordered(&regions, x, y, expected), "{x:?} {y:?}");
    }
    Ok(())
}

// Whether the comparisons take a value beside each of the kinds as they are to.
fn compares_as_it_should(regions: &Regions, values: &[Value], at: usize) -> bool {
    let mut right = true;
    for (beside, b) in values.iter().enumerate() {
        let a = values.get(at).copied().unwrap_or(Value::Undefined);
        let taken = at == beside && (at == 0 || at == 5);
        let refused = Err(Thrown::WrongOperand);
        right = right
            && (compare(regions, CompareOp::Less, a, *b) == refused) != taken
            && (compare(regions, CompareOp::Greater, a, *b) == refused) != taken
            && (compare(regions, CompareOp::LessEq, a, *b) == refused) != taken
            && (compare(regions, CompareOp::GreaterEq, a, *b) == refused) != taken
            && compare(regions, CompareOp::Same, a, *b) == Ok(at == beside)
            && compare(regions, CompareOp::NotSame, a, *b) == Ok(at != beside);
    }
    right
}

#[test]
fn comparisons_take_their_kinds(rt: HostRuntime) -> Result<(), Fail> {
    let alloc = rt.alloc();
    let mut regions = Regions::new(alloc);
    let key = regions.open()?;
    let values = kinds(alloc, &mut regions, key)?;
    for at in 0..values.len() {
        assert!(rt; compares_as_it_should(&regions, &values, at), "{at}");
    }
    let again = text(alloc, &mut regions, key, "ab")?;
    assert_eq!(rt;
        compare(&regions, CompareOp::Same, values[5], again),
        Ok(true)
    );
    Ok(())
}

#[test]
fn types_have_names(rt: HostRuntime) -> Result<(), Fail> {
    let alloc = rt.alloc();
    let mut regions = Regions::new(alloc);
    let key = regions.open()?;
    let values = kinds(alloc, &mut regions, key)?;
    let names = [
        (TypeName::Number, "number"),
        (TypeName::Undefined, "undefined"),
        (TypeName::Object, "object"),
        (TypeName::Boolean, "boolean"),
        (TypeName::Boolean, "boolean"),
        (TypeName::Text, "string"),
        (TypeName::Function, "function"),
        (TypeName::Object, "object"),
        (TypeName::Object, "object"),
        (TypeName::Object, "object"),
        (TypeName::Function, "function"),
        (TypeName::Object, "object"),
    ];
    for (value, (name, text)) in values.iter().zip(names) {
        assert_eq!(rt; type_of(&regions, *value), name);
        assert!(rt; name.text() == text);
    }
    for (builtin, object) in [
        (0, true),
        (1, true),
        (2, true),
        (3, false),
        (7, false),
        (8, true),
        (9, false),
        (1_000, false),
    ] {
        let name = type_of(&regions, Value::Builtin(builtin));
        assert_eq!(rt; name == TypeName::Object, object, "{builtin}");
        assert_eq!(rt; name == TypeName::Function, !object, "{builtin}");
    }
    Ok(())
}
