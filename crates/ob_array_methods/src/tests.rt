use crate::{
    concat, entries, has_own, includes, index_of, is_array, keys, pop, push, reverse, shift, slice,
    values,
};
use ob_base::{NoMemory, Units};
use ob_values::{
    AllocError, Done, OpError, Ref, RegionKey, Regions, SetError, Thrown, Value, array_of,
};
use std::alloc::Global;
use std::test::Fail;

// The calls ask for an open region and an array: these test that first, and answer as where memory is
// refused if it doesn't hold.

fn array(regions: &mut Regions, key: RegionKey, items: &[Value]) -> Result<Ref, AllocError> {
    if regions.is_open(key) {
        regions.alloc_array(key, items)
    } else {
        Err(AllocError::NoMemory)
    }
}

fn pushed(regions: &mut Regions, r: Ref, args: &[Value], left: u64) -> Result<Done, OpError> {
    if regions.is_array(r) {
        push(regions, r, args, left)
    } else {
        Err(OpError::NoMemory)
    }
}

fn popped(regions: &mut Regions, r: Ref) -> Result<Done, OpError> {
    if regions.is_array(r) {
        pop(regions, r, 0)
    } else {
        Err(OpError::NoMemory)
    }
}

fn shifted(regions: &mut Regions, r: Ref, left: u64) -> Result<Done, OpError> {
    if regions.is_array(r) {
        shift(regions, r, left)
    } else {
        Err(OpError::NoMemory)
    }
}

fn reversed(regions: &mut Regions, r: Ref, left: u64) -> Result<Done, OpError> {
    if regions.is_array(r) {
        reverse(regions, r, left)
    } else {
        Err(OpError::NoMemory)
    }
}

fn sliced(
    alloc: Global,
    regions: &mut Regions,
    key: RegionKey,
    r: Ref,
    args: &[Value],
    left: u64,
) -> Result<Done, OpError> {
    if regions.is_open(key) {
        slice(alloc, regions, key, r, args, left)
    } else {
        Err(OpError::NoMemory)
    }
}

fn concatenated(
    alloc: Global,
    regions: &mut Regions,
    key: RegionKey,
    r: Ref,
    args: &[Value],
    left: u64,
) -> Result<Done, OpError> {
    if regions.is_open(key) {
        concat(alloc, regions, key, r, args, left)
    } else {
        Err(OpError::NoMemory)
    }
}

fn freeze(regions: &mut Regions, r: Ref) -> Result<(), NoMemory> {
    regions.freeze(Value::Ref(r))
}

fn are(regions: &Regions, value: Value, numbers: &[i64]) -> bool {
    match array_of(regions, value) {
        Some(values) => {
            values.len() == numbers.len()
                && values
                    .iter()
                    .zip(numbers)
                    .all(|(value, number)| *value == Value::Int(*number))
        }
        None => false,
    }
}

fn done(value: Value, steps: u64) -> Result<Done, OpError> {
    Ok(Done { value, steps })
}

#[test]
fn arrays_are_changed(rt: HostRuntime) -> Result<(), Fail> {
    let alloc = rt.alloc();
    let mut regions = Regions::new(alloc);
    let key = regions.open()?;
    let r = array(&mut regions, key, &[Value::Int(1), Value::Int(2)])?;
    let three = [Value::Int(3), Value::Int(4), Value::Int(5)];
    assert!(rt; pushed(&mut regions, r, &three, 2) == Err(OpError::StepsOut));
    assert!(rt; are(&regions, Value::Ref(r), &[1, 2]));
    assert!(rt; pushed(&mut regions, r, &three, 3) == done(Value::Int(5), 0));
    assert!(rt; are(&regions, Value::Ref(r), &[1, 2, 3, 4, 5]));
    assert!(rt; popped(&mut regions, r) == done(Value::Int(5), 0));
    assert!(rt; shifted(&mut regions, r, 3) == Err(OpError::StepsOut));
    assert!(rt; shifted(&mut regions, r, 4) == done(Value::Int(1), 4));
    assert!(rt; reversed(&mut regions, r, 2) == Err(OpError::StepsOut));
    assert!(rt; reversed(&mut regions, r, 3) == done(Value::Ref(r), 3));
    assert!(rt; are(&regions, Value::Ref(r), &[4, 3, 2]));
    let empty = array(&mut regions, key, &[])?;
    assert!(rt; popped(&mut regions, empty) == done(Value::Undefined, 0));
    assert!(rt; shifted(&mut regions, empty, 0) == done(Value::Undefined, 0));
    assert!(rt; pushed(&mut regions, empty, &[], 0) == done(Value::Int(0), 0));
    freeze(&mut regions, r)?;
    let frozen = Err(OpError::Throws(Thrown::Frozen));
    assert!(rt; pushed(&mut regions, r, &three, 0) == frozen);
    assert!(rt; popped(&mut regions, r) == frozen);
    assert!(rt; shifted(&mut regions, r, 0) == frozen);
    assert!(rt; reversed(&mut regions, r, 0) == frozen);
    assert!(rt; are(&regions, Value::Ref(r), &[4, 3, 2]));
    Ok(())
}

#[test]
fn parts_are_cut_to_the_range(rt: HostRuntime) -> Result<(), Fail> {
    let alloc = rt.alloc();
    let mut regions = Regions::new(alloc);
    let key = regions.open()?;
    let r = array(
        &mut regions,
        key,
        &[Value::Int(7), Value::Int(8), Value::Int(9)],
    )?;
    let rows: [(&[Value], &[i64]); 8] = [
        (&[], &[7, 8, 9]),
        (&[Value::Undefined, Value::Undefined], &[7, 8, 9]),
        (&[Value::Int(1)], &[8, 9]),
        (&[Value::Int(-1)], &[9]),
        (&[Value::Int(-9), Value::Int(2)], &[7, 8]),
        (&[Value::Int(0), Value::Int(-1)], &[7, 8]),
        (&[Value::Int(2), Value::Int(1)], &[]),
        (&[Value::Int(5), Value::Int(9), Value::Null], &[]),
    ];
    for (args, numbers) in rows {
        match sliced(alloc, &mut regions, key, r, args, 4) {
            Ok(made) => assert!(rt; made.steps == 0 && are(&regions, made.value, numbers)),
            Err(_) => assert!(rt; false),
        }
    }
    let bad = Err(OpError::Throws(Thrown::BadArgument));
    assert!(rt; sliced(alloc, &mut regions, key, r, &[Value::Null], 0) == bad);
    assert!(rt; sliced(alloc, &mut regions, key, r, &[], 3) == Err(OpError::StepsOut));
    Ok(())
}

fn object(regions: &mut Regions, key: RegionKey) -> Result<Ref, AllocError> {
    if regions.is_open(key) {
        regions.alloc_object(key)
    } else {
        Err(AllocError::NoMemory)
    }
}

fn put(
    alloc: Global,
    regions: &mut Regions,
    r: Ref,
    key: &str,
    value: Value,
) -> Result<(), SetError> {
    let key = Units::from_bytes(alloc, key.as_bytes())?;
    if regions.is_object(r) {
        regions.set_key(r, &key, value)
    } else {
        Err(SetError::NoMemory)
    }
}

fn text(
    alloc: Global,
    regions: &mut Regions,
    key: RegionKey,
    text: &str,
) -> Result<Value, NoMemory> {
    let units = Units::from_bytes(alloc, text.as_bytes())?;
    if regions.is_open(key) {
        Ok(Value::Ref(regions.literal(key, units.as_slice())?))
    } else {
        Err(NoMemory)
    }
}

#[test]
fn elements_are_found(rt: HostRuntime) -> Result<(), Fail> {
    let alloc = rt.alloc();
    let mut regions = Regions::new(alloc);
    let key = regions.open()?;
    let a = text(alloc, &mut regions, key, "a")?;
    let r = array(&mut regions, key, &[Value::Int(1), a, Value::Null])?;
    assert!(rt; regions.is_open(key));
    for (sought, place) in [
        (Value::Int(1), 0),
        (a, 1),
        (Value::Null, 2),
        (Value::Undefined, -1),
    ] {
        let args = [sought];
        let found = Value::Bool(place >= 0);
        assert!(rt; index_of(&regions, key, r, &args, 3) == done(Value::Int(place), 3));
        assert!(rt; includes(&regions, key, r, &args, 3) == done(found, 3));
    }
    assert!(rt; index_of(&regions, key, r, &[], 2) == Err(OpError::StepsOut));
    let is = [Value::Ref(r)];
    assert!(rt; is_array(&regions, key, &is, 0) == done(Value::Bool(true), 0));
    assert!(rt; is_array(&regions, key, &[a], 0) == done(Value::Bool(false), 0));
    Ok(())
}

#[test]
fn properties_are_listed(rt: HostRuntime) -> Result<(), Fail> {
    let alloc = rt.alloc();
    let mut regions = Regions::new(alloc);
    let key = regions.open()?;
    let r = object(&mut regions, key)?;
    for (name, number) in [("b", 1), ("1", 2), ("a", 3)] {
        put(alloc, &mut regions, r, name, Value::Int(number))?;
    }
    let b = text(alloc, &mut regions, key, "b")?;
    let missing = text(alloc, &mut regions, key, "c")?;
    let args = [Value::Ref(r)];
    let bad = Err(OpError::Throws(Thrown::BadArgument));
    assert!(rt; regions.is_open(key));
    for (second, has) in [(b, true), (missing, false), (Value::Int(1), true)] {
        let both = [Value::Ref(r), second];
        assert!(rt; has_own(alloc, &regions, key, &both, 0) == done(Value::Bool(has), 0));
    }
    assert!(rt; has_own(alloc, &regions, key, &args, 0) == bad);
    match values(alloc, &mut regions, key, &args, 4) {
        Ok(made) => assert!(rt; made.steps == 0 && are(&regions, made.value, &[2, 1, 3])),
        Err(_) => assert!(rt; false),
    }
    Ok(())
}

#[test]
fn keys_are_listed(rt: HostRuntime) -> Result<(), Fail> {
    let alloc = rt.alloc();
    let mut regions = Regions::new(alloc);
    let key = regions.open()?;
    let r = object(&mut regions, key)?;
    for (name, number) in [("b", 1), ("1", 2)] {
        put(alloc, &mut regions, r, name, Value::Int(number))?;
    }
    let one = text(alloc, &mut regions, key, "1")?;
    let b = text(alloc, &mut regions, key, "b")?;
    assert!(rt; regions.is_open(key));
    assert!(rt;
        keys(alloc, &mut regions, key, &[b], 9) == Err(OpError::Throws(Thrown::BadArgument))
    );
    match keys(alloc, &mut regions, key, &[Value::Ref(r)], 3) {
        Ok(made) => match array_of(&regions, made.value) {
            Some(listed) => assert!(rt; made.steps == 0 && listed == [one, b].as_slice()),
            None => assert!(rt; false),
        },
        Err(_) => assert!(rt; false),
    }
    Ok(())
}

#[test]
fn arrays_are_put_together(rt: HostRuntime) -> Result<(), Fail> {
    let alloc = rt.alloc();
    let mut regions = Regions::new(alloc);
    let key = regions.open()?;
    let r = array(&mut regions, key, &[Value::Int(7), Value::Int(8)])?;
    let empty = array(&mut regions, key, &[])?;
    let rows: [(&[Value], &[i64]); 5] = [
        (&[], &[7, 8]),
        (&[Value::Int(9)], &[7, 8, 9]),
        (&[Value::Ref(r), Value::Int(9)], &[7, 8, 7, 8, 9]),
        (&[Value::Ref(empty)], &[7, 8]),
        (
            &[Value::Int(9), Value::Ref(empty), Value::Ref(r)],
            &[7, 8, 9, 7, 8],
        ),
    ];
    for (args, numbers) in rows {
        match concatenated(alloc, &mut regions, key, r, args, 6) {
            Ok(made) => assert!(rt; made.steps == 0 && are(&regions, made.value, numbers)),
            Err(_) => assert!(rt; false),
        }
    }
    let out = Err(OpError::StepsOut);
    assert!(rt; concatenated(alloc, &mut regions, key, r, &[], 2) == out);
    freeze(&mut regions, r)?;
    assert!(rt; concatenated(alloc, &mut regions, key, r, &[], 3).is_ok());
    Ok(())
}

fn is_pair(regions: &Regions, pair: Value, key: Value, value: Value) -> bool {
    match array_of(regions, pair) {
        Some(values) => values == [key, value].as_slice(),
        None => false,
    }
}

#[test]
fn entries_are_listed(rt: HostRuntime) -> Result<(), Fail> {
    let alloc = rt.alloc();
    let mut regions = Regions::new(alloc);
    let key = regions.open()?;
    let r = object(&mut regions, key)?;
    for (name, number) in [("b", 1), ("1", 2)] {
        put(alloc, &mut regions, r, name, Value::Int(number))?;
    }
    let one = text(alloc, &mut regions, key, "1")?;
    let b = text(alloc, &mut regions, key, "b")?;
    let args = [Value::Ref(r)];
    assert!(rt; regions.is_open(key));
    assert!(rt; entries(alloc, &mut regions, key, &args, 8) == Err(OpError::StepsOut));
    match entries(alloc, &mut regions, key, &args, 9) {
        Ok(made) => match array_of(&regions, made.value) {
            Some([first, second]) => {
                assert!(rt; is_pair(&regions, *first, one, Value::Int(2)));
                assert!(rt; is_pair(&regions, *second, b, Value::Int(1)));
            }
            _ => assert!(rt; false),
        },
        Err(_) => assert!(rt; false),
    }
    Ok(())
}
