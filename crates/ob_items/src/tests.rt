use crate::{
    CodeKey, ErrorKind, Names, Properties, Ref, RegionKey, SharedFunction, SharedFunctions, Thrown,
    Value, decimal_units, index_of, integer_units,
};
use ob_base::{NoMemory, Units};
use std::alloc::Global;
use std::rc::Rc;
use std::test::Fail;

#[test]
fn index_texts_are_told(rt: HostRuntime) -> Result<(), Fail> {
    let alloc = rt.alloc();
    for (text, index) in [
        ("0", Some(0)),
        ("4294967294", Some(4_294_967_294)),
        ("4294967295", None),
        ("00", None),
        ("-1", None),
        ("", None),
        ("99999999999", None),
    ] {
        let units = Units::from_bytes(alloc, text.as_bytes())?;
        assert_eq!(rt; index_of(units.as_slice()), index);
    }
    let max = decimal_units(alloc, 4_294_967_294)?;
    assert_eq!(rt; index_of(max.as_slice()), Some(4_294_967_294));
    assert_eq!(rt;
        integer_units(alloc, -9_007_199_254_740_991)?
            .as_slice()
            .len(),
        17
    );
    Ok(())
}

// The properties whose keys are the letters of `keys`, written in turn with the letters of `values`.
fn written(alloc: Global, keys: &str, values: &str) -> Result<Properties, NoMemory> {
    let mut names = Names::new(alloc);
    let mut properties = Properties::new();
    for (key, value) in keys.bytes().zip(values.bytes()) {
        let key = [u16::from(key)];
        properties.set(
            alloc,
            &mut names,
            key.as_slice(),
            Value::Int(i64::from(value)),
        )?;
    }
    Ok(properties)
}

#[test]
fn properties_keep_their_places(rt: HostRuntime) -> Result<(), Fail> {
    let alloc = rt.alloc();
    for (keys, values, keys_kept, values_kept) in [
        // by how many there are
        ("", "", "", ""),
        ("a", "1", "a", "1"),
        (
            "abcdefghijklmnop",
            "123456789ABCDEFG",
            "abcdefghijklmnop",
            "123456789ABCDEFG",
        ),
        (
            "abcdefghijklmnopq",
            "123456789ABCDEFGH",
            "abcdefghijklmnopq",
            "123456789ABCDEFGH",
        ),
        (
            "tsrqponmlkjihgfedcba",
            "ABCDEFGHIJKLMNOPQRST",
            "tsrqponmlkjihgfedcba",
            "ABCDEFGHIJKLMNOPQRST",
        ),
        // with an array index first, in the middle and last
        ("7", "1", "7", "1"),
        ("7ba", "123", "7ba", "123"),
        ("b7a", "123", "7ba", "213"),
        ("ba7", "123", "7ba", "312"),
        ("b9a0", "1234", "09ba", "4213"),
        ("hgfedcba7", "123456789", "7hgfedcba", "912345678"),
        // with array indices alone, and then with another key
        ("9170", "1234", "0179", "4231"),
        ("1721", "1234", "127", "432"),
        ("31a2", "1234", "123a", "2413"),
        (
            "ponmlkjihgfedcba7q",
            "123456789ABCDEFGHI",
            "7ponmlkjihgfedcbaq",
            "H123456789ABCDEFGI",
        ),
        // with a key that is written again
        ("aa", "12", "a", "2"),
        ("baab", "1234", "ba", "43"),
        (
            "abcdefghijklmnopp",
            "123456789ABCDEFGH",
            "abcdefghijklmnop",
            "123456789ABCDEFH",
        ),
        (
            "abcdefghijklmnopa",
            "123456789ABCDEFGH",
            "abcdefghijklmnop",
            "H23456789ABCDEFG",
        ),
        (
            "abcdefghijklmnopqd",
            "123456789ABCDEFGHI",
            "abcdefghijklmnopq",
            "123I56789ABCDEFGH",
        ),
        ("b7a7b", "12345", "7ba", "453"),
    ] {
        let properties = written(alloc, keys, values)?;
        let entries = properties.entries(alloc)?;
        assert_eq!(rt; entries.len(), keys_kept.len());
        let kept = keys_kept.bytes().zip(values_kept.bytes());
        for (entry, (key, value)) in entries.as_slice().iter().zip(kept) {
            let key = [u16::from(key)];
            let value = Value::Int(i64::from(value));
            assert!(rt; entry.key.as_slice() == key.as_slice());
            assert!(rt; entry.value == value);
            assert!(rt; properties.get(key.as_slice()) == Some(value));
        }
        assert_eq!(rt; properties.is_empty(), keys.is_empty());
        assert!(rt; properties.get([33u16].as_slice()).is_none());
        assert_eq!(rt; properties.first(alloc, 1)?.len(), keys_kept.len().min(1));
        assert_eq!(rt; properties.keys(alloc)?.len(), keys_kept.len());
        assert_eq!(rt; properties.values(alloc)?.len(), keys_kept.len());
    }
    Ok(())
}

// The properties at the array indices below n, written from the last to the first and each twice, and
// one at the key `a` before or behind them.
fn indexed(alloc: Global, n: u32, is_first: bool) -> Result<Properties, NoMemory> {
    let mut names = Names::new(alloc);
    let mut properties = Properties::new();
    if is_first {
        properties.set(alloc, &mut names, [97u16].as_slice(), Value::Undefined)?;
    }
    for index in (0..n).rev() {
        let key = decimal_units(alloc, u64::from(index))?;
        let value = Value::Int(i64::from(index));
        properties.set(alloc, &mut names, key.as_slice(), Value::Null)?;
        properties.set(alloc, &mut names, key.as_slice(), value)?;
    }
    properties.set(alloc, &mut names, [97u16].as_slice(), Value::Null)?;
    Ok(properties)
}

#[test]
fn array_indices_rise(rt: HostRuntime) -> Result<(), Fail> {
    let alloc = rt.alloc();
    for n in [1u32, 2, 16, 17, 40] {
        for is_first in [false, true] {
            let properties = indexed(alloc, n, is_first)?;
            let entries = properties.entries(alloc)?;
            for (index, entry) in (0..n).zip(entries.as_slice()) {
                assert_eq!(rt; index_of(entry.key.as_slice()), Some(index));
                assert!(rt; entry.value == Value::Int(i64::from(index)));
            }
            assert_eq!(rt; entries.len(), n as usize + 1);
            let last = &entries.as_slice()[n as usize];
            assert!(rt; last.key.as_slice() == [97u16].as_slice());
            assert!(rt; last.value == Value::Null);
        }
    }
    Ok(())
}

#[test]
fn errors_have_kinds_and_messages(rt: HostRuntime) -> Result<(), Fail> {
    assert_eq!(rt; Thrown::NotPlain.message(), "not plain data");
    assert!(rt; Thrown::NotPlain.kind() == ErrorKind::TypeError);
    assert!(rt; Thrown::UsedBefore.kind() == ErrorKind::ReferenceError);
    assert!(rt; Thrown::PastEnd.kind() == ErrorKind::RangeError);
    Ok(())
}

// What function values of one code share, with the array of the inputs at this place.
fn function(inputs: usize) -> SharedFunction {
    SharedFunction {
        code: CodeKey {
            code: 3,
            function: 1,
        },
        inputs: Ref {
            region: RegionKey(0),
            item: inputs,
        },
        invalidation: None,
    }
}

#[test]
fn functions_of_one_text_share(rt: HostRuntime) -> Result<(), Fail> {
    let alloc = rt.alloc();
    let mut functions = SharedFunctions::new(alloc);
    let first = functions.share(alloc, function(7))?;
    let second = functions.share(alloc, function(7))?;
    // These two, and the one that is kept.
    assert_eq!(rt; Rc::strong_count(&first), 3);
    let other = functions.share(alloc, function(8))?;
    assert!(rt; *second == function(7));
    assert!(rt; *other == function(8));
    assert_eq!(rt; Rc::strong_count(&first), 2);
    assert_eq!(rt; Rc::strong_count(&other), 2);
    Ok(())
}
