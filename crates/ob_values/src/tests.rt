mod plain;

use crate::{
    AllocError, CodeKey, ErrorKind, Frame, HookError, Kind, Ref, RegionKey, Regions, SetError,
    Taken, TextError, Value,
};
use ob_base::{List, NoMemory, Units};
use std::alloc::Global;
use std::test::Fail;

// The calls ask for an open region, or for an item of some kind: each of these tests that first, and
// answers as where memory is refused if it doesn't hold.

fn array(regions: &mut Regions, key: RegionKey, items: &[Value]) -> Result<Ref, AllocError> {
    if regions.is_open(key) {
        regions.alloc_array(key, items)
    } else {
        Err(AllocError::NoMemory)
    }
}

fn object(regions: &mut Regions, key: RegionKey) -> Result<Ref, AllocError> {
    if regions.is_open(key) {
        regions.alloc_object(key)
    } else {
        Err(AllocError::NoMemory)
    }
}

fn text(regions: &mut Regions, key: RegionKey, units: &[u16]) -> Result<Ref, AllocError> {
    if regions.is_open(key) {
        regions.alloc_text(key, units)
    } else {
        Err(AllocError::NoMemory)
    }
}

fn boxed(regions: &mut Regions, key: RegionKey, value: Option<Value>) -> Result<Ref, AllocError> {
    if regions.is_open(key) {
        regions.alloc_box(key, value)
    } else {
        Err(AllocError::NoMemory)
    }
}

fn inputs(regions: &mut Regions, key: RegionKey, values: &[Value]) -> Result<Ref, NoMemory> {
    if regions.is_open(key) {
        regions.place_inputs(key, values)
    } else {
        Err(NoMemory)
    }
}

fn invalidation(regions: &mut Regions, key: RegionKey) -> Result<Ref, NoMemory> {
    if regions.is_open(key) {
        regions.alloc_invalidation(key)
    } else {
        Err(NoMemory)
    }
}

fn literal(regions: &mut Regions, key: RegionKey, units: &[u16]) -> Result<Ref, NoMemory> {
    if regions.is_open(key) {
        regions.literal(key, units)
    } else {
        Err(NoMemory)
    }
}

fn closure(
    regions: &mut Regions,
    key: RegionKey,
    boxes: &[Ref],
    inputs: Ref,
    invalidation: Option<Ref>,
) -> Result<Ref, AllocError> {
    let code = CodeKey {
        code: 3,
        function: 1,
    };
    if regions.is_open(key) {
        regions.alloc_closure(key, code, boxes, inputs, invalidation)
    } else {
        Err(AllocError::NoMemory)
    }
}

fn elements(regions: &Regions, key: RegionKey) -> Option<u32> {
    if regions.is_open(key) {
        Some(regions.elements(key))
    } else {
        None
    }
}

fn kind(regions: &Regions, r: Ref) -> Option<Kind> {
    if regions.is_item(r) {
        Some(regions.kind(r))
    } else {
        None
    }
}

fn is_frozen(regions: &Regions, r: Ref) -> Option<bool> {
    if regions.is_item(r) {
        Some(regions.is_frozen(r))
    } else {
        None
    }
}

fn set(regions: &mut Regions, r: Ref, index: u32, value: Value) -> Result<(), SetError> {
    if regions.is_array(r) {
        regions.set_index(r, i64::from(index), value)
    } else {
        Err(SetError::NoMemory)
    }
}

fn set_key(regions: &mut Regions, r: Ref, key: &Units, value: Value) -> Result<(), SetError> {
    if regions.is_object(r) {
        regions.set_key(r, key, value)
    } else {
        Err(SetError::NoMemory)
    }
}

fn set_box(regions: &mut Regions, r: Ref, value: Value) -> Result<(), SetError> {
    if regions.is_box(r) {
        regions.set_box(r, value)
    } else {
        Err(SetError::NoMemory)
    }
}

fn remove(regions: &mut Regions, r: Ref, index: u32) -> Result<Option<Value>, SetError> {
    if regions.is_array(r) {
        regions.remove_index(r, index)
    } else {
        Err(SetError::NoMemory)
    }
}

fn at(regions: &Regions, r: Ref, index: i64) -> Option<Value> {
    if regions.is_array(r) {
        Some(regions.get_index(r, index))
    } else {
        None
    }
}

fn units(alloc: Global, text: &str) -> Result<Units, NoMemory> {
    Units::from_bytes(alloc, text.as_bytes())
}

#[test]
fn a_closed_region_leaves_the_others(rt: HostRuntime) -> Result<(), Fail> {
    let mut regions = Regions::new(rt.alloc());
    let first = regions.open()?;
    let second = regions.open()?;
    let one = array(&mut regions, first, &[Value::Int(1)])?;
    let two = array(&mut regions, second, &[Value::Int(2)])?;
    if regions.is_open(first) {
        regions.close(first);
    }
    assert!(rt; at(&regions, one, 0).is_none());
    assert!(rt; at(&regions, two, 0) == Some(Value::Int(2)));
    assert!(rt; elements(&regions, second) == Some(2));
    Ok(())
}

#[test]
fn a_region_has_50000_elements(rt: HostRuntime) -> Result<(), Fail> {
    let alloc = rt.alloc();
    let mut regions = Regions::new(alloc);
    let key = regions.open()?;
    let mut items = Vec::new(alloc);
    for _ in 0..49_999 {
        items.push(Value::Undefined)?;
    }
    let r = array(&mut regions, key, items.as_slice())?;
    assert!(rt; elements(&regions, key) == Some(50_000));
    assert!(rt; boxed(&mut regions, key, None) == Err(AllocError::HeapFull));
    assert!(rt; set(&mut regions, r, 49_999, Value::Null) == Err(SetError::HeapFull));
    Ok(())
}

#[test]
fn arrays_are_written(rt: HostRuntime) -> Result<(), Fail> {
    let mut regions = Regions::new(rt.alloc());
    let key = regions.open()?;
    let r = array(&mut regions, key, &[Value::Int(5), Value::Null])?;
    assert!(rt; set(&mut regions, r, 3, Value::Null) == Err(SetError::PastEnd));
    assert!(rt; set(&mut regions, r, 2, Value::Bool(true)) == Ok(()));
    assert!(rt; remove(&mut regions, r, 0) == Ok(Some(Value::Int(5))));
    assert!(rt; remove(&mut regions, r, 2) == Ok(None));
    assert!(rt; at(&regions, r, 1) == Some(Value::Bool(true)));
    Ok(())
}

#[test]
fn elements_outside_are_undefined(rt: HostRuntime) -> Result<(), Fail> {
    let mut regions = Regions::new(rt.alloc());
    let key = regions.open()?;
    let r = array(&mut regions, key, &[Value::Int(5)])?;
    for (index, value) in [
        (0, Value::Int(5)),
        (1, Value::Undefined),
        (-1, Value::Undefined),
    ] {
        assert!(rt; at(&regions, r, index) == Some(value));
    }
    assert!(rt; kind(&regions, r) == Some(Kind::Array));
    Ok(())
}

fn keys(regions: &Regions, r: Ref) -> Result<List<Units>, NoMemory> {
    if regions.is_object(r) {
        regions.keys(r)
    } else {
        Err(NoMemory)
    }
}

fn set_named(
    alloc: Global,
    regions: &mut Regions,
    r: Ref,
    name: &str,
    value: i64,
) -> Result<(), SetError> {
    let name = units(alloc, name)?;
    set_key(regions, r, &name, Value::Int(value))
}

fn get_named(
    alloc: Global,
    regions: &Regions,
    r: Ref,
    name: &str,
) -> Result<Option<Value>, NoMemory> {
    let name = units(alloc, name)?;
    if regions.is_object(r) {
        Ok(regions.get_key(r, &name))
    } else {
        Err(NoMemory)
    }
}

#[test]
fn keys_stand_in_their_order(rt: HostRuntime) -> Result<(), Fail> {
    let alloc = rt.alloc();
    let mut regions = Regions::new(alloc);
    let key = regions.open()?;
    let r = object(&mut regions, key)?;
    for (name, value) in [("b", 1), ("10", 2), ("a", 3), ("1", 4), ("01", 5)] {
        set_named(alloc, &mut regions, r, name, value)?;
    }
    assert!(rt; elements(&regions, key) == Some(6));
    let keys = keys(&regions, r)?;
    for (key, name) in keys.as_slice().iter().zip(["1", "10", "b", "a", "01"]) {
        assert!(rt; key.as_slice() == units(alloc, name)?.as_slice());
    }
    Ok(())
}

#[test]
fn properties_are_read(rt: HostRuntime) -> Result<(), Fail> {
    let alloc = rt.alloc();
    let mut regions = Regions::new(alloc);
    let key = regions.open()?;
    let r = object(&mut regions, key)?;
    set_named(alloc, &mut regions, r, "b", 1)?;
    assert!(rt; get_named(alloc, &regions, r, "b")? == Some(Value::Int(1)));
    assert!(rt; get_named(alloc, &regions, r, "1")?.is_none());
    Ok(())
}

#[test]
fn literals_are_made_once(rt: HostRuntime) -> Result<(), Fail> {
    let mut regions = Regions::new(rt.alloc());
    let key = regions.open()?;
    let made = text(&mut regions, key, &[104, 105])?;
    let first = literal(&mut regions, key, &[104, 105])?;
    let again = literal(&mut regions, key, &[104, 105])?;
    assert!(rt; first == again);
    assert!(rt; first != made);
    assert!(rt; regions.same(Value::Ref(made), Value::Ref(first)));
    assert!(rt; elements(&regions, key) == Some(1));
    Ok(())
}

#[test]
fn arrays_are_the_same_by_identity(rt: HostRuntime) -> Result<(), Fail> {
    let mut regions = Regions::new(rt.alloc());
    let key = regions.open()?;
    let one = array(&mut regions, key, &[])?;
    let two = array(&mut regions, key, &[])?;
    assert!(rt; regions.same(Value::Ref(one), Value::Ref(one)));
    assert!(rt; !regions.same(Value::Ref(one), Value::Ref(two)));
    assert!(rt; !regions.same(Value::Int(0), Value::Bool(false)));
    Ok(())
}

fn is_shown(regions: &Regions, value: Value, text: &[u16]) -> bool {
    match regions.to_text(value) {
        Ok(units) => units.as_slice() == text,
        Err(_) => false,
    }
}

fn is_refused(regions: &Regions, value: Value) -> bool {
    match regions.to_text(value) {
        Err(TextError::NotText) => true,
        _ => false,
    }
}

#[test]
fn values_have_texts(rt: HostRuntime) -> Result<(), Fail> {
    let mut regions = Regions::new(rt.alloc());
    let key = regions.open()?;
    let list = array(&mut regions, key, &[])?;
    assert!(rt; is_shown(&regions, Value::Int(-12), &[45, 49, 50]));
    assert!(rt; is_shown(&regions, Value::Null, &[110, 117, 108, 108]));
    assert!(rt; is_refused(&regions, Value::Ref(list)));
    Ok(())
}

fn length(regions: &Regions, r: Ref) -> Option<u32> {
    if regions.is_text(r) {
        Some(regions.length(r))
    } else {
        None
    }
}

#[test]
fn texts_cost_by_their_units(rt: HostRuntime) -> Result<(), Fail> {
    let mut regions = Regions::new(rt.alloc());
    let units = [55_296u16; 40];
    for (len, cost) in [(0, 1), (1, 1), (16, 1), (17, 2), (33, 3)] {
        let key = regions.open()?;
        let r = text(&mut regions, key, &units[..len])?;
        assert!(rt; elements(&regions, key) == Some(cost));
        assert!(rt; length(&regions, r) == Some(len as u32));
    }
    Ok(())
}

// A function whose box holds an array that holds the function, and an array among its inputs.
fn knot(regions: &mut Regions, key: RegionKey) -> Result<[Ref; 5], AllocError> {
    let other = array(regions, key, &[])?;
    let inputs = inputs(regions, key, &[Value::Ref(other)])?;
    let list = array(regions, key, &[])?;
    let cell = boxed(regions, key, Some(Value::Ref(list)))?;
    let hook = invalidation(regions, key)?;
    let function = closure(regions, key, &[cell], inputs, Some(hook))?;
    match set(regions, list, 0, Value::Ref(function)) {
        Ok(()) => Ok([list, cell, hook, function, other]),
        Err(_) => Err(AllocError::NoMemory),
    }
}

#[test]
fn freezing_stops_at_inputs(rt: HostRuntime) -> Result<(), Fail> {
    let mut regions = Regions::new(rt.alloc());
    let key = regions.open()?;
    let knot = knot(&mut regions, key)?;
    regions.freeze(Value::Ref(knot[0]))?;
    for (r, frozen) in knot.iter().zip([true, true, true, true, false]) {
        assert!(rt; is_frozen(&regions, *r) == Some(frozen));
    }
    assert!(rt; set(&mut regions, knot[0], 0, Value::Null) == Err(SetError::Frozen));
    assert!(rt; set_box(&mut regions, knot[1], Value::Null) == Err(SetError::Frozen));
    Ok(())
}

#[test]
fn a_long_chain_is_frozen(rt: HostRuntime) -> Result<(), Fail> {
    let mut regions = Regions::new(rt.alloc());
    let key = regions.open()?;
    let first = array(&mut regions, key, &[])?;
    let mut last = first;
    for _ in 0..24_999 {
        last = array(&mut regions, key, &[Value::Ref(last)])?;
    }
    regions.freeze(Value::Ref(last))?;
    assert!(rt; is_frozen(&regions, first) == Some(true));
    Ok(())
}

// Each object holds the one before it; 25,000 of them fill a region.
#[test]
fn a_chain_of_50000_objects_is_frozen(rt: HostRuntime) -> Result<(), Fail> {
    let alloc = rt.alloc();
    let mut regions = Regions::new(alloc);
    let name = units(alloc, "next")?;
    let keys = [regions.open()?, regions.open()?];
    let first = object(&mut regions, keys[0])?;
    let mut last = first;
    for key in keys {
        for _ in 0..24_999 {
            let r = object(&mut regions, key)?;
            set_key(&mut regions, r, &name, Value::Ref(last))?;
            last = r;
        }
    }
    assert!(rt; is_frozen(&regions, first) == Some(false));
    regions.freeze(Value::Ref(last))?;
    assert!(rt; is_frozen(&regions, first) == Some(true));
    assert!(rt; set_key(&mut regions, first, &name, Value::Null) == Err(SetError::Frozen));
    Ok(())
}

// An index, what writing 9 there answers, and what stands there afterwards.
#[test]
fn arrays_are_read_and_written(rt: HostRuntime) -> Result<(), Fail> {
    let mut regions = Regions::new(rt.alloc());
    let key = regions.open()?;
    let r = array(&mut regions, key, &[Value::Int(5), Value::Int(6)])?;
    for (index, answer, value) in [
        (1, Ok(()), Value::Int(9)),
        (3, Err(SetError::PastEnd), Value::Undefined),
        (2, Ok(()), Value::Int(9)),
        (0, Ok(()), Value::Int(9)),
    ] {
        assert!(rt; set(&mut regions, r, index, Value::Int(9)) == answer);
        assert!(rt; at(&regions, r, i64::from(index)) == Some(value));
    }
    assert!(rt; elements(&regions, key) == Some(4));
    regions.freeze(Value::Ref(r))?;
    for (index, answer) in [(0, SetError::Frozen), (7, SetError::Frozen)] {
        assert!(rt; set(&mut regions, r, index, Value::Null) == Err(answer));
    }
    assert!(rt; at(&regions, r, 0) == Some(Value::Int(9)));
    assert!(rt; remove(&mut regions, r, 0) == Err(SetError::Frozen));
    Ok(())
}

// Marks before and after a freezing of the second of two arrays, which holds the text.
#[test]
fn marks_are_read(rt: HostRuntime) -> Result<(), Fail> {
    let mut regions = Regions::new(rt.alloc());
    let key = regions.open()?;
    let held = text(&mut regions, key, &[104])?;
    let first = array(&mut regions, key, &[])?;
    let second = array(&mut regions, key, &[Value::Ref(held)])?;
    for r in [held, first, second] {
        assert!(rt; is_frozen(&regions, r) == Some(false));
    }
    regions.freeze(Value::Ref(second))?;
    for (r, frozen) in [(held, true), (first, false), (second, true)] {
        assert!(rt; is_frozen(&regions, r) == Some(frozen));
    }
    Ok(())
}

fn is_counted(regions: &mut Regions, r: Ref) -> Option<HookError> {
    if regions.is_invalidation(r) {
        regions.count_hook(r).err()
    } else {
        Some(HookError::Frozen)
    }
}

#[test]
fn hooks_are_counted(rt: HostRuntime) -> Result<(), Fail> {
    let mut regions = Regions::new(rt.alloc());
    let key = regions.open()?;
    let r = invalidation(&mut regions, key)?;
    for _ in 0..1_000 {
        assert!(rt; is_counted(&mut regions, r).is_none());
    }
    assert!(rt; is_counted(&mut regions, r) == Some(HookError::TooMany));
    regions.freeze(Value::Ref(r))?;
    assert!(rt; is_counted(&mut regions, r) == Some(HookError::Frozen));
    Ok(())
}

fn generator(regions: &mut Regions, key: RegionKey, frame: Frame) -> Result<Ref, AllocError> {
    if regions.is_open(key) {
        regions.alloc_generator(key, frame)
    } else {
        Err(AllocError::NoMemory)
    }
}

// The place of the frame that a generator kept; none where it kept none.
fn take(regions: &mut Regions, r: Ref) -> Option<usize> {
    if regions.is_generator(r) {
        match regions.take_frame(r) {
            Taken::Held(frame) => Some(frame.place),
            _ => None,
        }
    } else {
        None
    }
}

fn put(regions: &mut Regions, r: Ref, frame: Option<Frame>) {
    if regions.is_generator(r) {
        regions.put_frame(r, frame);
    }
}

fn frame(alloc: Global, inputs: Ref, place: usize) -> Frame {
    Frame {
        code: CodeKey {
            code: 0,
            function: 2,
        },
        place,
        boxes: List::new(alloc),
        inputs,
        locals: List::new(alloc),
        operands: List::new(alloc),
        catches: List::new(alloc),
    }
}

#[test]
fn a_generator_keeps_its_frame(rt: HostRuntime) -> Result<(), Fail> {
    let alloc = rt.alloc();
    let mut regions = Regions::new(alloc);
    let key = regions.open()?;
    let inputs = inputs(&mut regions, key, &[])?;
    let r = generator(&mut regions, key, frame(alloc, inputs, 7))?;
    assert!(rt; take(&mut regions, r) == Some(7));
    assert!(rt; take(&mut regions, r).is_none());
    put(&mut regions, r, Some(frame(alloc, inputs, 9)));
    assert!(rt; take(&mut regions, r) == Some(9));
    Ok(())
}

fn error(regions: &mut Regions, key: RegionKey, message: Ref) -> Result<Ref, AllocError> {
    if regions.is_open(key) {
        regions.alloc_error(key, ErrorKind::RangeError, message)
    } else {
        Err(AllocError::NoMemory)
    }
}

fn message(regions: &Regions, r: Ref) -> Option<Ref> {
    if regions.is_error(r) {
        Some(regions.error_message(r))
    } else {
        None
    }
}

#[test]
fn an_error_keeps_its_message(rt: HostRuntime) -> Result<(), Fail> {
    let mut regions = Regions::new(rt.alloc());
    let key = regions.open()?;
    let said = literal(&mut regions, key, &[98])?;
    let r = error(&mut regions, key, said)?;
    assert!(rt; message(&regions, r) == Some(said));
    assert!(rt; kind(&regions, r) == Some(Kind::Error(ErrorKind::RangeError)));
    if regions.is_text(said) {
        assert!(rt; regions.text(said) == [98u16].as_slice());
    }
    Ok(())
}

// Whether the calls that read a function value give these parts.
fn has_parts(regions: &Regions, r: Ref, boxes: &[Ref], inputs: Ref) -> bool {
    if !regions.is_closure(r) {
        return false;
    }
    let code = CodeKey {
        code: 3,
        function: 1,
    };
    regions.closure_code(r) == code
        && regions.closure_boxes(r) == boxes
        && regions.closure_inputs(r) == inputs
}

fn unboxed(regions: &Regions, r: Ref) -> Option<Value> {
    if regions.is_box(r) {
        regions.get_box(r)
    } else {
        None
    }
}

#[test]
fn a_function_keeps_its_parts(rt: HostRuntime) -> Result<(), Fail> {
    let mut regions = Regions::new(rt.alloc());
    let key = regions.open()?;
    let inputs = inputs(&mut regions, key, &[Value::Null])?;
    let cell = boxed(&mut regions, key, None)?;
    let r = closure(&mut regions, key, &[cell], inputs, None)?;
    assert!(rt; has_parts(&regions, r, &[cell], inputs));
    assert!(rt; set_box(&mut regions, cell, Value::Int(8)) == Ok(()));
    assert!(rt; unboxed(&regions, cell) == Some(Value::Int(8)));
    Ok(())
}

#[test]
fn functions_of_one_text_differ(rt: HostRuntime) -> Result<(), Fail> {
    let mut regions = Regions::new(rt.alloc());
    let key = regions.open()?;
    let first = inputs(&mut regions, key, &[Value::Null])?;
    let second = inputs(&mut regions, key, &[])?;
    let hook = invalidation(&mut regions, key)?;
    let cells = [
        boxed(&mut regions, key, None)?,
        boxed(&mut regions, key, Some(Value::Int(8)))?,
    ];
    let bare = closure(&mut regions, key, &[], first, None)?;
    let holding = closure(&mut regions, key, &cells, first, None)?;
    let other = closure(&mut regions, key, &cells, second, Some(hook))?;
    assert!(rt; has_parts(&regions, bare, &[], first));
    assert!(rt; has_parts(&regions, holding, &cells, first));
    assert!(rt; has_parts(&regions, other, &cells, second));
    regions.freeze(Value::Ref(holding))?;
    assert!(rt; is_frozen(&regions, hook) == Some(false));
    regions.freeze(Value::Ref(other))?;
    assert!(rt; is_frozen(&regions, hook) == Some(true));
    Ok(())
}
