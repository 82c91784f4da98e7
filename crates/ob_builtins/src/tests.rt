mod answers;
mod printing;
mod words;

use crate::{find_method, find_property};
use answers::{function_answer, method_answer};
use ob_base::Units;
use ob_values::{ErrorKind, Kind};
use std::test::Fail;

// The numbers count on from those of the nine names, 0 to 8, in the order of the table of methods and
// functions.
#[test]
fn methods_have_numbers(rt: HostRuntime) -> Result<(), Fail> {
    for (kind, name, number) in [
        (Kind::Array, "push", Some(9)),
        (Kind::Array, "join", Some(17)),
        (Kind::Array, "reduce", Some(23)),
        (Kind::Array, "padStart", None),
        (Kind::Text, "slice", Some(24)),
        (Kind::Text, "charCodeAt", Some(32)),
        (Kind::Text, "", None),
        (Kind::Text, "slices", None),
        (Kind::Generator, "next", Some(33)),
        (Kind::Generator, "then", None),
        (Kind::Invalidation, "then", Some(34)),
        (Kind::Object, "keys", None),
        (Kind::Closure, "next", None),
        (Kind::Error(ErrorKind::Error), "slice", None),
    ] {
        let name = Units::from_bytes(rt.alloc(), name.as_bytes())?;
        assert_eq!(rt; find_method(kind, &name), number);
    }
    Ok(())
}

#[test]
fn functions_have_numbers(rt: HostRuntime) -> Result<(), Fail> {
    for (builtin, name, number) in [
        (0, "min", Some(35)),
        (0, "sign", Some(38)),
        (0, "keys", None),
        (1, "keys", Some(39)),
        (1, "hasOwn", Some(42)),
        (2, "isArray", Some(43)),
        (2, "from", Some(44)),
        (2, "of", None),
        (3, "min", None),
    ] {
        let name = Units::from_bytes(rt.alloc(), name.as_bytes())?;
        assert_eq!(rt; find_property(builtin, &name), number);
    }
    Ok(())
}

// Each answer is the value, the elements that the call made and the steps besides, or the fault. Behind it
// stands the receiver as the call leaves it, if it is an array. The values are those of ECMA-262 but for
// arguments: those of another kind are faults, a missing one is `undefined` also for `String`, and surplus
// ones are ignored, which are also the second ones of `indexOf`, `includes`, `startsWith`, `endsWith` and
// `split`.

#[test]
fn methods_of_arrays_answer(rt: HostRuntime) -> Result<(), Fail> {
    for (call, expected) in [
        ("[7,8,9] push", "3 0 0 [7,8,9]"),
        ("[7,8,9] push 1", "4 1 0 [7,8,9,1]"),
        ("[7,8,9] push 1 2", "5 2 0 [7,8,9,1,2]"),
        ("[7,8,9] push 1 [2,3] null", "6 3 0 [7,8,9,1,[2,3],null]"),
        ("[] push 'a'", "1 1 0 ['a']"),
        ("[7,8,9] pop", "9 0 0 [7,8]"),
        ("[7,8,9] pop 1", "9 0 0 [7,8]"),
        ("[7,8,9] pop 1 2 3", "9 0 0 [7,8]"),
        ("[] pop", "undefined 0 0 []"),
        ("[7,8,9] shift", "7 0 3 [8,9]"),
        ("[7,8,9] shift 1", "7 0 3 [8,9]"),
        ("[7,8,9] shift 1 2 3", "7 0 3 [8,9]"),
        ("[] shift", "undefined 0 0 []"),
        ("[7,8,9] reverse", "[9,8,7] 0 3 [9,8,7]"),
        ("[7,8,9] reverse 1 2 3", "[9,8,7] 0 3 [9,8,7]"),
        ("[7,8] reverse null", "[8,7] 0 2 [8,7]"),
        ("[] reverse", "[] 0 0 []"),
        ("[7,8,9] slice", "[7,8,9] 4 0 [7,8,9]"),
        ("[7,8,9] slice 1", "[8,9] 3 0 [7,8,9]"),
        ("[7,8,9] slice 5", "[] 1 0 [7,8,9]"),
        ("[7,8,9] slice -1", "[9] 2 0 [7,8,9]"),
        ("[7,8,9] slice -2", "[8,9] 3 0 [7,8,9]"),
        ("[7,8,9] slice 1 2", "[8] 2 0 [7,8,9]"),
        ("[7,8,9] slice 1 9", "[8,9] 3 0 [7,8,9]"),
        ("[7,8,9] slice -2 -1", "[8] 2 0 [7,8,9]"),
        ("[7,8,9] slice -9 -1", "[7,8] 3 0 [7,8,9]"),
        ("[7,8,9] slice 0 -9", "[] 1 0 [7,8,9]"),
        ("[7,8,9] slice undefined 2", "[7,8] 3 0 [7,8,9]"),
        ("[7,8,9] slice 1 undefined", "[8,9] 3 0 [7,8,9]"),
        ("[7,8,9] slice 2 1", "[] 1 0 [7,8,9]"),
        ("[7,8,9] slice 0 1 null", "[7] 2 0 [7,8,9]"),
        ("[7,8,9] slice null", "TypeError: bad argument [7,8,9]"),
        ("[7,8,9] slice 0 '1'", "TypeError: bad argument [7,8,9]"),
        ("[] slice -1 1", "[] 1 0 []"),
        ("[7,8,9] concat", "[7,8,9] 4 0 [7,8,9]"),
        ("[7,8,9] concat 1", "[7,8,9,1] 5 0 [7,8,9]"),
        ("[7,8,9] concat [1,2] 'x'", "[7,8,9,1,2,'x'] 7 0 [7,8,9]"),
        ("[7,8,9] concat [] null [1]", "[7,8,9,null,1] 6 0 [7,8,9]"),
        ("[7,8,9] concat [[]]", "[7,8,9,[]] 5 0 [7,8,9]"),
        ("[7,8,9] indexOf", "-1 0 3 [7,8,9]"),
        ("[7,8,9] indexOf 9", "2 0 3 [7,8,9]"),
        ("[7,8,9] indexOf 7 1", "0 0 3 [7,8,9]"),
        ("[7,8,9] indexOf 8 0 1", "1 0 3 [7,8,9]"),
        ("[7,8,7] indexOf 7", "0 0 3 [7,8,7]"),
        ("['a','b'] indexOf 'b'", "1 0 2 ['a','b']"),
        ("[[],[]] indexOf []", "-1 0 2 [[],[]]"),
        (
            "[1,null,true,undefined,'x'] indexOf 'x'",
            "4 0 5 [1,null,true,undefined,'x']",
        ),
        ("[7,8,9] includes", "false 0 3 [7,8,9]"),
        ("[7,8,9] includes 8", "true 0 3 [7,8,9]"),
        ("[7,8,9] includes '8'", "false 0 3 [7,8,9]"),
        ("[7,8,9] includes 7 1", "true 0 3 [7,8,9]"),
        ("[7,8,9] includes 7 1 2", "true 0 3 [7,8,9]"),
        (
            "[1,null,true,undefined,'x'] includes",
            "true 0 5 [1,null,true,undefined,'x']",
        ),
        ("[null] includes undefined", "false 0 1 [null]"),
        ("[7,8,9] join", "'7,8,9' 1 3 [7,8,9]"),
        ("[7,8,9] join undefined", "'7,8,9' 1 3 [7,8,9]"),
        ("[7,8,9] join ''", "'789' 1 3 [7,8,9]"),
        (
            "[7,8,9] join '_and_so_on_' 1",
            "'7_and_so_on_8_and_so_on_9' 2 3 [7,8,9]",
        ),
        ("[7,8,9] join '-' 1 2", "'7-8-9' 1 3 [7,8,9]"),
        ("[7,8,9] join null", "TypeError: bad argument [7,8,9]"),
        ("[7,8,9] join 0", "TypeError: bad argument [7,8,9]"),
        ("[] join", "'' 1 0 []"),
        ("[-5] join ';'", "'-5' 1 1 [-5]"),
        (
            "[1,null,true,undefined,'x'] join",
            "'1,,true,,x' 1 5 [1,null,true,undefined,'x']",
        ),
        (
            "[1,null,true,undefined,'x'] join 'ab'",
            "'1ababtrueababx' 1 5 [1,null,true,undefined,'x']",
        ),
        ("[1,[]] join", "TypeError: bad argument [1,[]]"),
        (
            "[xs:65000,xs:535] join",
            "65536 units 4096 2 [65000 units,535 units]",
        ),
        (
            "[xs:65000,xs:536] join",
            "RangeError: text too long [65000 units,536 units]",
        ),
        (
            "[xs:65000,xs:536,fn] join",
            "TypeError: bad argument [65000 units,536 units,fn]",
        ),
        ("[7,8,9] map fn", "no call [7,8,9]"),
        ("[7,8,9] padStart 5", "no call [7,8,9]"),
    ] {
        let found = method_answer(rt.alloc(), call, 100_000)?;
        assert_eq!(rt; found.as_str(), expected, "{call}");
    }
    Ok(())
}

#[test]
fn methods_that_make_texts_answer(rt: HostRuntime) -> Result<(), Fail> {
    for (call, expected) in [
        ("'abcdef' slice", "'abcdef' 1 0"),
        ("'abcdef' slice 1", "'bcdef' 1 0"),
        ("'abcdef' slice -2", "'ef' 1 0"),
        ("'abcdef' slice 1 -1", "'bcde' 1 0"),
        ("'abcdef' slice -3 -1", "'de' 1 0"),
        ("'abcdef' slice -9 2", "'ab' 1 0"),
        ("'abcdef' slice 4 99", "'ef' 1 0"),
        ("'abcdef' slice 2 1", "'' 1 0"),
        ("'abcdef' slice undefined 2", "'ab' 1 0"),
        ("'abcdef' slice 0 1 2", "'a' 1 0"),
        ("'abcdef' slice null", "TypeError: bad argument"),
        ("'abcdef' slice 0 '1'", "TypeError: bad argument"),
        ("'abc' slice -2 3", "'bc' 1 0"),
        ("xs:33 slice -17", "'xxxxxxxxxxxxxxxxx' 2 0"),
        ("'abc' repeat", "TypeError: bad argument"),
        ("'abc' repeat 0", "'' 1 0"),
        ("'abc' repeat 2", "'abcabc' 1 0"),
        ("'abc' repeat 2 3", "'abcabc' 1 0"),
        ("'abc' repeat 1 2 3", "'abc' 1 0"),
        ("'abc' repeat -1", "RangeError: bad count"),
        ("'abc' repeat '2'", "TypeError: bad argument"),
        ("'ab' repeat 32768", "65536 units 4096 0"),
        ("'ab' repeat 32769", "RangeError: text too long"),
        ("'ab' repeat 9007199254740991", "RangeError: text too long"),
        ("'' repeat 9007199254740991", "'' 1 0"),
        ("'abc' padStart", "TypeError: bad argument"),
        ("'abc' padStart 5", "'__abc' 1 0"),
        ("'ab' padStart 5 'xy'", "'xyxab' 1 0"),
        ("'ab' padStart 5 'xy' 1", "'xyxab' 1 0"),
        ("'abc' padStart 2", "'abc' 1 0"),
        ("'abc' padStart -5 'x'", "'abc' 1 0"),
        ("'abc' padStart 5 ''", "'abc' 1 0"),
        ("'abc' padStart 5 undefined", "'__abc' 1 0"),
        ("'abc' padStart 5 null", "TypeError: bad argument"),
        ("'abc' padStart 65536", "65536 units 4096 0"),
        ("'abc' padStart 65537", "RangeError: text too long"),
        ("'a-b' split", "TypeError: bad argument"),
        ("'a-b' split '-'", "['a','b'] 5 0"),
        ("'a-b' split '-' 1", "['a','b'] 5 0"),
        ("'a-b' split '-' 1 2", "['a','b'] 5 0"),
        ("'-a--b' split '-'", "['','a','','b'] 9 0"),
        ("'aaa' split 'aa'", "['','a'] 5 0"),
        ("'abc' split 'x'", "['abc'] 3 0"),
        ("'abc' split ''", "['a','b','c'] 7 0"),
        ("'' split ''", "[] 1 0"),
        ("'' split '-'", "[''] 3 0"),
        ("'abc' split undefined", "TypeError: bad argument"),
    ] {
        let found = method_answer(rt.alloc(), call, 100_000)?;
        assert_eq!(rt; found.as_str(), expected, "{call}");
    }
    Ok(())
}

#[test]
fn methods_that_read_texts_answer(rt: HostRuntime) -> Result<(), Fail> {
    for (call, expected) in [
        ("'abcabc' indexOf", "TypeError: bad argument"),
        ("'abcabc' indexOf 'c'", "2 0 1"),
        ("'abcabc' indexOf 'ca'", "2 0 1"),
        ("'abcabc' indexOf 'x'", "-1 0 1"),
        ("'abcabc' indexOf ''", "0 0 1"),
        ("'abcabc' indexOf 'a' 1", "0 0 1"),
        ("'abcabc' indexOf 'a' 1 2", "0 0 1"),
        ("'abcabc' indexOf 1", "TypeError: bad argument"),
        ("'' indexOf ''", "0 0 0"),
        ("xs:16 indexOf 'y'", "-1 0 1"),
        ("xs:17 indexOf 'y'", "-1 0 2"),
        ("'abc' includes", "TypeError: bad argument"),
        ("'abc' includes 'bc'", "true 0 1"),
        ("'abc' includes 'cc'", "false 0 1"),
        ("'abc' includes 'a' 1", "true 0 1"),
        ("'abc' includes 'a' 1 2", "true 0 1"),
        ("'abc' includes null", "TypeError: bad argument"),
        ("'abc' startsWith", "TypeError: bad argument"),
        ("'abc' startsWith 'ab'", "true 0 1"),
        ("'abc' startsWith 'b'", "false 0 1"),
        ("'abc' startsWith 'b' 1", "false 0 1"),
        ("'abc' startsWith '' 1 2", "true 0 1"),
        ("'abc' startsWith 'abcd'", "false 0 1"),
        ("'abc' endsWith", "TypeError: bad argument"),
        ("'abc' endsWith 'bc'", "true 0 1"),
        ("'abc' endsWith 'b'", "false 0 1"),
        ("'abc' endsWith 'b' 2", "false 0 1"),
        ("'abc' endsWith '' 1 2", "true 0 1"),
        ("'abc' endsWith [1]", "TypeError: bad argument"),
        ("'abc' charCodeAt", "TypeError: bad argument"),
        ("'abc' charCodeAt 1", "98 0 0"),
        ("'abc' charCodeAt 2 0", "99 0 0"),
        ("'abc' charCodeAt 0 1 2", "97 0 0"),
        ("'abc' charCodeAt 3", "RangeError: index past the end"),
        ("'abc' charCodeAt -1", "RangeError: index past the end"),
        ("'abc' charCodeAt '1'", "TypeError: bad argument"),
        ("'abc' push 1", "no call"),
        ("{} keys", "no call"),
    ] {
        let found = method_answer(rt.alloc(), call, 100_000)?;
        assert_eq!(rt; found.as_str(), expected, "{call}");
    }
    Ok(())
}

#[test]
fn functions_answer(rt: HostRuntime) -> Result<(), Fail> {
    for (call, expected) in [
        ("0", "no call"),
        ("String", "'undefined' 1 0"),
        ("String 12", "'12' 1 0"),
        ("String -7 1", "'-7' 1 0"),
        ("String null 1 2", "'null' 1 0"),
        ("String true", "'true' 1 0"),
        ("String false", "'false' 1 0"),
        ("String 'ab'", "'ab' 1 0"),
        ("String xs:17", "'xxxxxxxxxxxxxxxxx' 2 0"),
        ("String {b:5,1:6,a:7}", "TypeError: bad argument"),
        ("String []", "TypeError: bad argument"),
        ("String fn", "TypeError: bad argument"),
        ("Error", "Error('') 1 0"),
        ("Error 'm'", "Error('m') 1 0"),
        ("Error null", "Error('null') 1 0"),
        (
            "Error xs:33",
            "Error('xxxxxxxxxxxxxxxxxxxxxxxxxxxxxxxxx') 1 0",
        ),
        ("Error []", "TypeError: bad argument"),
        ("TypeError 5 6", "TypeError('5') 1 0"),
        ("TypeError undefined 1 2", "TypeError('') 1 0"),
        ("RangeError", "RangeError('') 1 0"),
        ("7 null", "no call"),
        ("9 null", "no call"),
        ("34 null", "no call"),
        ("Math.min", "RangeError: bad count"),
        ("Math.min 2", "2 0 0"),
        ("Math.min 2 -1", "-1 0 0"),
        ("Math.min 2 -1 3", "-1 0 0"),
        ("Math.min 2 '1' 3", "TypeError: bad argument"),
        ("Math.max", "RangeError: bad count"),
        ("Math.max -2", "-2 0 0"),
        ("Math.max 2 5", "5 0 0"),
        ("Math.max 2 -1 3", "3 0 0"),
        ("Math.max undefined", "TypeError: bad argument"),
        ("Math.abs", "TypeError: bad argument"),
        ("Math.abs -4", "4 0 0"),
        ("Math.abs 4 -5", "4 0 0"),
        ("Math.abs 0 1 2", "0 0 0"),
        ("Math.abs -9007199254740991", "9007199254740991 0 0"),
        ("Math.sign", "TypeError: bad argument"),
        ("Math.sign -4", "-1 0 0"),
        ("Math.sign 0 1", "0 0 0"),
        ("Math.sign 12 1 2", "1 0 0"),
        ("Math.sign '1'", "TypeError: bad argument"),
        ("Object.keys", "TypeError: bad argument"),
        ("Object.keys {b:5,1:6,a:7}", "['1','b','a'] 4 0"),
        ("Object.keys {b:5,10:6,a:7,9:8} 1", "['9','10','b','a'] 5 0"),
        ("Object.keys {} 1 2", "[] 1 0"),
        ("Object.keys null", "TypeError: bad argument"),
        ("Object.values", "TypeError: bad argument"),
        ("Object.values {b:5,1:6,a:7}", "[6,5,7] 4 0"),
        ("Object.values {b:5,1:6,a:7} 1", "[6,5,7] 4 0"),
        ("Object.values {a:[],b:'x'} 1 2", "[[],'x'] 3 0"),
        ("Object.values [1]", "TypeError: bad argument"),
        ("Object.entries", "TypeError: bad argument"),
        (
            "Object.entries {b:5,1:6,a:7}",
            "[['1',6],['b',5],['a',7]] 13 0",
        ),
        ("Object.entries {b:5} 1", "[['b',5]] 5 0"),
        ("Object.entries {} 1 2", "[] 1 0"),
        ("Object.entries 'ab'", "TypeError: bad argument"),
        ("Object.hasOwn", "TypeError: bad argument"),
        ("Object.hasOwn {b:5,1:6,a:7}", "TypeError: bad argument"),
        ("Object.hasOwn {b:5,1:6,a:7} 1", "true 0 0"),
        ("Object.hasOwn {b:5,1:6,a:7} '1'", "true 0 0"),
        ("Object.hasOwn {b:5,1:6,a:7} 'c' null", "false 0 0"),
        (
            "Object.hasOwn {b:5,1:6,a:7} null",
            "TypeError: bad argument",
        ),
        ("Object.hasOwn [1] 0", "TypeError: bad argument"),
        ("Array.isArray", "false 0 0"),
        ("Array.isArray [1,null,true,undefined,'x']", "true 0 0"),
        ("Array.isArray {} []", "false 0 0"),
        ("Array.isArray 'ab' 1 2", "false 0 0"),
        ("Array.from [1,null,true,undefined,'x']", "no call"),
    ] {
        let found = function_answer(rt.alloc(), call, 100_000)?;
        assert_eq!(rt; found.as_str(), expected, "{call}");
    }
    Ok(())
}

// What changes a frozen array throws before anything else; a text or what is only read may be frozen.
#[test]
fn frozen_receivers_stay(rt: HostRuntime) -> Result<(), Fail> {
    for (left, call, expected) in [
        (0, "frozen:[1,2] push", "TypeError: frozen [1,2]"),
        (0, "frozen:[1,2] push null", "TypeError: frozen [1,2]"),
        (0, "frozen:[1,2] pop null", "TypeError: frozen [1,2]"),
        (0, "frozen:[1,2] shift null", "TypeError: frozen [1,2]"),
        (0, "frozen:[1,2] reverse null", "TypeError: frozen [1,2]"),
        (0, "frozen:[] pop", "TypeError: frozen []"),
        (
            0,
            "frozen:nulls:49999 push 1",
            "TypeError: frozen 49999 values",
        ),
        (9, "frozen:[1,2] slice 1", "[2] 2 0 [1,2]"),
        (9, "frozen:[1,2] concat 3", "[1,2,3] 4 0 [1,2]"),
        (9, "frozen:[1,2] indexOf 2", "1 0 2 [1,2]"),
        (9, "frozen:[1,2] includes 2", "true 0 2 [1,2]"),
        (9, "frozen:[1,2] join", "'1,2' 1 2 [1,2]"),
        (9, "frozen:[1,2] join null", "TypeError: bad argument [1,2]"),
        (9, "frozen:'a-b' split '-'", "['a','b'] 5 0"),
    ] {
        let found = method_answer(rt.alloc(), call, left)?;
        assert_eq!(rt; found.as_str(), expected, "{call}");
    }
    Ok(())
}

// A fault comes before the limit of elements, and that before the limit of steps. Nothing is made or
// changed behind a limit. Surplus arguments fill the region here.
#[test]
fn limits_come_in_their_order(rt: HostRuntime) -> Result<(), Fail> {
    for (left, call, expected) in [
        (0, "[] pop", "undefined 0 0 []"),
        (0, "[] shift", "undefined 0 0 []"),
        (0, "[] reverse", "[] 0 0 []"),
        (1, "[] join", "'' 1 0 []"),
        (0, "[] join", "too many steps []"),
        (2, "[-5] join ';'", "'-5' 1 1 [-5]"),
        (1, "[-5] join ';'", "too many steps [-5]"),
        (
            6,
            "[1,null,true,undefined,'x'] join",
            "'1,,true,,x' 1 5 [1,null,true,undefined,'x']",
        ),
        (
            5,
            "[1,null,true,undefined,'x'] join",
            "too many steps [1,null,true,undefined,'x']",
        ),
        (
            4,
            "[1,null,true,undefined,'x'] includes",
            "too many steps [1,null,true,undefined,'x']",
        ),
        (2, "[7,8,9] indexOf 9", "too many steps [7,8,9]"),
        (2, "[1,2] push 3 4", "4 2 0 [1,2,3,4]"),
        (1, "[1,2] push 3 4", "too many steps [1,2]"),
        (1, "[1,2] shift", "too many steps [1,2]"),
        (1, "[1,2] reverse", "too many steps [1,2]"),
        (4, "[1,2] concat 3", "[1,2,3] 4 0 [1,2]"),
        (3, "[1,2] concat 3", "too many steps [1,2]"),
        (2, "[1,2] slice", "too many steps [1,2]"),
        (1, "'abc' slice -2 3", "'bc' 1 0"),
        (0, "'abc' slice -2 3", "too many steps"),
        (1, "'abc' repeat 2", "'abcabc' 1 0"),
        (1, "'abc' padStart 5", "'__abc' 1 0"),
        (1, "'abc' indexOf 'c'", "2 0 1"),
        (0, "'abc' indexOf 'c'", "too many steps"),
        (0, "'abc' indexOf 3", "TypeError: bad argument"),
        (1, "'abc' includes 'cc'", "false 0 1"),
        (1, "'abc' startsWith 'ab'", "true 0 1"),
        (1, "'abc' endsWith 'bc'", "true 0 1"),
        (5, "'a-b' split '-'", "['a','b'] 5 0"),
        (4, "'a-b' split '-'", "too many steps"),
        (0, "'abc' charCodeAt 1", "98 0 0"),
        (9, "'abc' push 1", "no call"),
        (1, "nulls:49998 push 1", "49999 1 0 49999 values"),
        (0, "nulls:49999 push 1", "too many elements 49999 values"),
        (4, "[7,8,9] slice 0 3 nulls:49991", "[7,8,9] 4 0 [7,8,9]"),
        (3, "[7,8,9] slice 0 3 nulls:49991", "too many steps [7,8,9]"),
        (
            0,
            "[7,8,9] slice 0 3 nulls:49992",
            "too many elements [7,8,9]",
        ),
        (
            0,
            "[7,8,9] slice null 3 nulls:49992",
            "TypeError: bad argument [7,8,9]",
        ),
        (4, "[7,8,9] join ',' nulls:49993", "'7,8,9' 1 3 [7,8,9]"),
        (
            0,
            "[7,8,9] join ',' nulls:49994",
            "too many elements [7,8,9]",
        ),
        (7, "'abc' split '' nulls:49990", "['a','b','c'] 7 0"),
        (0, "'abc' split '' nulls:49991", "too many elements"),
        (1, "'abc' repeat 2 nulls:49997", "'abcabc' 1 0"),
        (0, "'abc' repeat 2 nulls:49998", "too many elements"),
        (0, "'abc' repeat -2 nulls:49998", "RangeError: bad count"),
    ] {
        let found = method_answer(rt.alloc(), call, left)?;
        assert_eq!(rt; found.as_str(), expected, "{call}");
    }
    for (left, call, expected) in [
        (12, "Object.entries {b:5,1:6,a:7}", "too many steps"),
        (
            13,
            "Object.entries {b:5,1:6,a:7}",
            "[['1',6],['b',5],['a',7]] 13 0",
        ),
        (5, "Object.entries {b:5} nulls:49992", "[['b',5]] 5 0"),
        (0, "Object.entries {b:5} nulls:49993", "too many elements"),
        (0, "Object.keys {}", "too many steps"),
        (0, "String 1", "too many steps"),
        (0, "Error 1 nulls:49998", "too many steps"),
        (0, "Error 1 nulls:49999", "too many elements"),
        (0, "Error [] nulls:49998", "TypeError: bad argument"),
        (0, "Math.max 1 2", "2 0 0"),
    ] {
        let found = function_answer(rt.alloc(), call, left)?;
        assert_eq!(rt; found.as_str(), expected, "{call}");
    }
    Ok(())
}
