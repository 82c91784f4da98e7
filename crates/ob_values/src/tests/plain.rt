use crate::tests::{
    array, boxed, closure, error, frame, generator, inputs, invalidation, literal, object, set,
    set_named, text, units,
};
use crate::{AllocError, PlainError, Ref, RegionKey, Regions, Value};
use ob_base::{List, NoMemory, Plain, PlainProp};
use std::alloc::Global;
use std::test::Fail;

fn is_refused(regions: &Regions, value: Value, error: PlainError) -> bool {
    match regions.to_plain(value) {
        Err(e) => e == error,
        Ok(_) => false,
    }
}

fn is_array_of(plain: &Plain, count: usize) -> bool {
    match plain {
        Plain::Array(items) => items.len() == count,
        _ => false,
    }
}

fn has_items(regions: &Regions, value: Value, count: usize) -> bool {
    match regions.to_plain(value) {
        Ok(plain) => is_array_of(&plain, count),
        Err(_) => false,
    }
}

// So many arrays in one another, round a value.
fn nested(
    regions: &mut Regions,
    key: RegionKey,
    inner: Value,
    depth: usize,
) -> Result<Value, AllocError> {
    let mut value = inner;
    for _ in 0..depth {
        value = Value::Ref(array(regions, key, &[value])?);
    }
    Ok(value)
}

#[test]
fn what_stands_in_itself_is_no_plain_data(rt: HostRuntime) -> Result<(), Fail> {
    let mut regions = Regions::new(rt.alloc());
    let key = regions.open()?;
    let list = array(&mut regions, key, &[Value::Int(1)])?;
    assert!(rt; set(&mut regions, list, 1, Value::Ref(list)) == Ok(()));
    let outer = nested(&mut regions, key, Value::Ref(list), 3)?;
    assert!(rt; is_refused(&regions, Value::Ref(list), PlainError::NotPlain));
    assert!(rt; is_refused(&regions, outer, PlainError::NotPlain));
    Ok(())
}

#[test]
fn a_large_tree_with_a_cycle_is_no_plain_data(rt: HostRuntime) -> Result<(), Fail> {
    let alloc = rt.alloc();
    let mut regions = Regions::new(alloc);
    let key = regions.open()?;
    let other = regions.open()?;
    let mut items = Vec::new(alloc);
    for _ in 0..49_999 {
        items.push(Value::Undefined)?;
    }
    let many = array(&mut regions, key, items.as_slice())?;
    let list = array(&mut regions, other, &[Value::Ref(many)])?;
    assert!(rt; is_refused(&regions, Value::Ref(list), PlainError::HeapFull));
    let round = object(&mut regions, other)?;
    set_named_value(alloc, &mut regions, round, "a", Value::Ref(round))?;
    assert!(rt; set(&mut regions, list, 1, Value::Ref(round)) == Ok(()));
    assert!(rt; is_refused(&regions, Value::Ref(list), PlainError::NotPlain));
    Ok(())
}

fn set_named_value(
    alloc: Global,
    regions: &mut Regions,
    r: Ref,
    name: &str,
    value: Value,
) -> Result<(), crate::SetError> {
    let name = units(alloc, name)?;
    crate::tests::set_key(regions, r, &name, value)
}

// An array that unfolds to 2^17 - 1 arrays: each holds one array twice.
#[test]
fn what_is_shared_counts_each_time(rt: HostRuntime) -> Result<(), Fail> {
    let mut regions = Regions::new(rt.alloc());
    let key = regions.open()?;
    let mut value = Value::Ref(array(&mut regions, key, &[])?);
    for _ in 0..13 {
        value = Value::Ref(array(&mut regions, key, &[value, value])?);
    }
    assert!(rt; has_items(&regions, value, 2));
    for _ in 0..3 {
        value = Value::Ref(array(&mut regions, key, &[value, value])?);
    }
    assert!(rt; is_refused(&regions, value, PlainError::HeapFull));
    Ok(())
}

#[test]
fn plain_data_has_50000_elements(rt: HostRuntime) -> Result<(), Fail> {
    let alloc = rt.alloc();
    let mut regions = Regions::new(alloc);
    let key = regions.open()?;
    let other = regions.open()?;
    let mut items = Vec::new(alloc);
    for _ in 0..49_997 {
        items.push(Value::Undefined)?;
    }
    let many = array(&mut regions, key, items.as_slice())?;
    let list = array(&mut regions, other, &[Value::Ref(many)])?;
    assert!(rt; has_items(&regions, Value::Ref(list), 1));
    assert!(rt; set(&mut regions, many, 49_997, Value::Null) == Ok(()));
    assert!(rt; is_refused(&regions, Value::Ref(list), PlainError::HeapFull));
    Ok(())
}

#[test]
fn plain_data_is_nested_100_deep(rt: HostRuntime) -> Result<(), Fail> {
    let mut regions = Regions::new(rt.alloc());
    let key = regions.open()?;
    let inner = Value::Ref(text(&mut regions, key, &[97])?);
    let deep = nested(&mut regions, key, inner, 100)?;
    assert!(rt; has_items(&regions, deep, 1));
    let deeper = nested(&mut regions, key, deep, 1)?;
    assert!(rt; is_refused(&regions, deeper, PlainError::NotPlain));
    let deepest = nested(&mut regions, key, deep, 20_000)?;
    assert!(rt; is_refused(&regions, deepest, PlainError::NotPlain));
    Ok(())
}

#[test]
fn functions_and_their_like_are_no_plain_data(rt: HostRuntime) -> Result<(), Fail> {
    let alloc = rt.alloc();
    let mut regions = Regions::new(alloc);
    let key = regions.open()?;
    let inputs = inputs(&mut regions, key, &[])?;
    let said = literal(&mut regions, key, &[98])?;
    let values = [
        Value::Builtin(3),
        Value::Holder(0),
        Value::Int(9_007_199_254_740_992),
        Value::Ref(closure(&mut regions, key, &[], inputs, None)?),
        Value::Ref(generator(&mut regions, key, frame(alloc, inputs, 7))?),
        Value::Ref(error(&mut regions, key, said)?),
        Value::Ref(invalidation(&mut regions, key)?),
        Value::Ref(boxed(&mut regions, key, None)?),
    ];
    for value in values {
        assert!(rt; is_refused(&regions, value, PlainError::NotPlain));
        let list = array(&mut regions, key, &[Value::Null, value])?;
        assert!(rt; is_refused(&regions, Value::Ref(list), PlainError::NotPlain));
    }
    Ok(())
}

fn has_keys(alloc: Global, plain: &Plain, names: &[&str]) -> Result<bool, NoMemory> {
    let Plain::Object(props) = plain else {
        return Ok(false);
    };
    if props.len() != names.len() {
        return Ok(false);
    }
    for (prop, name) in props.as_slice().iter().zip(names) {
        if prop.key.as_slice() != units(alloc, name)?.as_slice() {
            return Ok(false);
        }
    }
    Ok(true)
}

#[test]
fn properties_come_in_the_order_of_their_keys(rt: HostRuntime) -> Result<(), Fail> {
    let alloc = rt.alloc();
    let mut regions = Regions::new(alloc);
    let key = regions.open()?;
    let r = object(&mut regions, key)?;
    for (name, value) in [("b", 1), ("1", 2), ("a", 3)] {
        set_named(alloc, &mut regions, r, name, value)?;
    }
    match regions.to_plain(Value::Ref(r)) {
        Ok(plain) => assert!(rt; has_keys(alloc, &plain, &["1", "b", "a"])?),
        Err(_) => assert!(rt; false),
    }
    Ok(())
}

fn place(regions: &mut Regions, key: RegionKey, plain: &Plain) -> Result<Value, AllocError> {
    if regions.is_open(key) {
        regions.from_plain(key, plain)
    } else {
        Err(AllocError::NoMemory)
    }
}

// The object {"b": [null, "hi"], "1": -5}.
fn sample(alloc: Global) -> Result<Plain, NoMemory> {
    let mut items = List::new(alloc);
    items.push(Plain::Null)?;
    items.push(Plain::Text(units(alloc, "hi")?))?;
    let mut props = List::new(alloc);
    props.push(PlainProp {
        key: units(alloc, "b")?,
        value: Plain::Array(items),
    })?;
    props.push(PlainProp {
        key: units(alloc, "1")?,
        value: Plain::Int(-5),
    })?;
    Ok(Plain::Object(props))
}

#[test]
fn plain_data_is_placed(rt: HostRuntime) -> Result<(), Fail> {
    let alloc = rt.alloc();
    let mut regions = Regions::new(alloc);
    let key = regions.open()?;
    let plain = sample(alloc)?;
    let value = place(&mut regions, key, &plain)?;
    assert!(rt; crate::tests::elements(&regions, key) == Some(7));
    match regions.to_plain(value) {
        Ok(Plain::Object(props)) => {
            assert!(rt; props.len() == 2);
            for (prop, is_number) in props.as_slice().iter().zip([true, false]) {
                assert!(rt; matches!(&prop.value, Plain::Int(-5)) == is_number);
                assert!(rt; is_array_of(&prop.value, 2) != is_number);
            }
        }
        _other => assert!(rt; false),
    }
    Ok(())
}

#[test]
fn plain_data_needs_room(rt: HostRuntime) -> Result<(), Fail> {
    let alloc = rt.alloc();
    let mut regions = Regions::new(alloc);
    let key = regions.open()?;
    let plain = sample(alloc)?;
    let mut items = Vec::new(alloc);
    for _ in 0..49_992 {
        items.push(Value::Undefined)?;
    }
    let list = array(&mut regions, key, items.as_slice())?;
    assert!(rt; set(&mut regions, list, 49_992, Value::Null) == Ok(()));
    assert!(rt; place(&mut regions, key, &plain) == Err(AllocError::HeapFull));
    assert!(rt; crate::tests::elements(&regions, key) == Some(49_994));
    let small = Plain::Text(units(alloc, "seventeen units!!")?);
    let text = place(&mut regions, key, &small)?;
    assert!(rt; crate::tests::elements(&regions, key) == Some(49_996));
    assert!(rt; matches!(regions.to_plain(text), Ok(Plain::Text(_))));
    Ok(())
}
