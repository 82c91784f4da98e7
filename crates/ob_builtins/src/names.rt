//! The names of the methods and functions, and their numbers.
ghost use Rattle.std.specs.Prelude.{◌≡◌, ◌+◌, ◌<◌, ◌≤◌, ◌↔◌, IsTrue, length, nat_eq, option_map, position};
ghost use Rattle.std.specs.Cmp.Lexicographic.{pointwise};
ghost use Rattle.ob_values.specs.BuiltinNames.{method_number, property_number};

use ob_base::Units;
use ob_values::Kind;

const ARRAY_METHODS: [&str; 15] = [
    "push", "pop", "shift", "reverse", "slice", "concat", "indexOf", "includes", "join", "map",
    "filter", "forEach", "some", "every", "reduce",
];

const TEXT_METHODS: [&str; 9] = [
    "slice",
    "repeat",
    "padStart",
    "indexOf",
    "includes",
    "startsWith",
    "endsWith",
    "split",
    "charCodeAt",
];

const MATH_FUNCTIONS: [&str; 4] = ["min", "max", "abs", "sign"];

const OBJECT_FUNCTIONS: [&str; 4] = ["keys", "values", "entries", "hasOwn"];

const ARRAY_FUNCTIONS: [&str; 2] = ["isArray", "from"];

// Whether a name is this one.
fn is_name(name: &[u16], this: &str) -> bool
    ensures { result ≡ pointwise nat_eq this.now name.now }
{
    is_same(name, this.as_bytes())
}

// Whether the units are these bytes.
fn is_same(name: &[u16], bytes: &[u8]) -> bool
    ensures { IsTrue result ↔ (name.now ≡ bytes.now) }
{
    if name.len() != bytes.len() {
        return false;
    }
    for (at, unit) in name.iter().enumerate() {
        if *unit != u16::from(bytes[at]) {
            return false;
        }
    }
    true
}

// The number of a name among names of which the first has a number.
fn number_in(first: u16, names: &[&str], name: &[u16]) -> Option<u16>
    requires { first + length names.now ≤ 60000 }
    ensures { result ≡ option_map (λ k. first + k) (position (λ n. pointwise nat_eq n.now name.now) names.now) }
{
    let mut number = first;
    for this in names {
        if is_name(name, this) {
            return Some(number);
        }
        number += 1;
    }
    None
}

/// The number of the method of a name that items of a kind have; none exactly where they have none of
/// that name. It takes no memory.
pub fn find_method(kind: Kind, name: &Units) -> Option<u16>
    ensures { result ≡ method_number kind name.now }
{
    let name = name.as_slice();
    match kind {
        Kind::Array => number_in(9, &ARRAY_METHODS, name),
        Kind::Text => number_in(24, &TEXT_METHODS, name),
        Kind::Generator => number_in(33, &["next"], name),
        Kind::Invalidation => number_in(34, &["then"], name),
        _ => None,
    }
}

/// The number of the function of a name that `Math`, `Object` or `Array` has, by the number of these,
/// from 0; none exactly where it has none of that name. It takes no memory.
pub fn find_property(builtin: u16, name: &Units) -> Option<u16>
    ensures { result ≡ property_number builtin name.now }
{
    let name = name.as_slice();
    match builtin {
        0 => number_in(35, &MATH_FUNCTIONS, name),
        1 => number_in(39, &OBJECT_FUNCTIONS, name),
        2 => number_in(43, &ARRAY_FUNCTIONS, name),
        _ => None,
    }
}
