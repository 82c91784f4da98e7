//! What is read of values.
ghost use Rattle.std.specs.Prelude.{◌≡◌, ◌≢◌, ◌↔◌, min, IsSome, IfOk, Some, None, Ok, option_map};
ghost use Rattle.std.specs.Option.{option_copied};
ghost use Rattle.ob_items.specs.Bodies.{text_of, properties_of, length_of};
ghost use Rattle.ob_items.specs.Properties.{keys_of};
ghost use Rattle.ob_values.specs.Store.{read_item};
ghost use Rattle.ob_values.specs.Values.{same_value, same_item, string_of};

use crate::regions::Regions;
use ob_base::{List, NoMemory, Units};
use ob_items::{Body, Ref, TextError, Value, integer_units};
use std::alloc::Global;

impl Regions {
    /// The units of a text, or the elements of an array, or 2^32-1 where that is more.
    pub fn length(&self, r: Ref) -> u32
        requires { IsSome (read_item length_of self.now r) }
        ensures { option_map (λ n. min n 4294967295) (read_item length_of self.now r) ≡ Some result }
    {
        match self.find(r) {
            Some(body) => match body {
                Body::Text(units) => capped(units.as_slice().len()),
                Body::Array(values) | Body::Inputs(values) => capped(values.len()),
                _ => unreachable!(),
            },
            None => unreachable!(),
        }
    }

    /// The keys of an object: array indices rising, then the others in order of creation.
    ///
    /// # Errors
    /// `NoMemory` where an allocation is refused.
    pub fn keys(&self, r: Ref) -> Result<List<Units>, NoMemory>
        requires { IsSome (read_item properties_of self.now r) }
        ensures { IfOk result (λ keys. option_map keys_of (read_item properties_of self.now r) ≡ Some keys) }
    {
        match self.find(r) {
            Some(body) => match body {
                Body::Object(properties) => properties.keys(self.alloc()),
                _ => unreachable!(),
            },
            None => unreachable!(),
        }
    }

    fn find_text(&self, r: Ref) -> Option<&[u16]>
        ensures { option_copied result ≡ read_item text_of self.now r }
    {
        match self.find(r) {
            Some(body) => match body {
                Body::Text(units) => Some(units.as_slice()),
                _ => None,
            },
            None => None,
        }
    }

    fn same_items(&self, a: Ref, b: Ref) -> bool
        ensures { result ≡ same_item self.now a b }
    {
        match (self.find_text(a), self.find_text(b)) {
            (Some(x), Some(y)) => x == y,
            _ => a == b,
        }
    }

    /// Whether two values are the same by `===`: texts by their units, all else by identity (ECMA-262,
    /// "IsStrictlyEqual"). It takes no memory.
    pub fn same(&self, a: Value, b: Value) -> bool
        ensures { result ≡ same_value self.now a b }
    {
        match (a, b) {
            (Value::Undefined, Value::Undefined) => true,
            (Value::Null, Value::Null) => true,
            (Value::Bool(a), Value::Bool(b)) => a == b,
            (Value::Int(a), Value::Int(b)) => a == b,
            (Value::Builtin(a), Value::Builtin(b)) => a == b,
            (Value::Holder(a), Value::Holder(b)) => a == b,
            (Value::Ref(a), Value::Ref(b)) => self.same_items(a, b),
            _ => false,
        }
    }

    /// The text of a text, a number, a boolean, null or undefined (ECMA-262, "ToString").
    ///
    /// # Errors
    /// `NotText` exactly for another value, `NoMemory` where an allocation is refused.
    pub fn to_text(&self, value: Value) -> Result<Units, TextError>
        ensures refused { result ≡ Err TextError.NotText ↔ (string_of self.now value ≡ None) }
        ensures ok { IfOk result (λ units. string_of self.now value ≡ Some units) }
    {
        match value {
            Value::Undefined => text_or(Units::from_bytes(self.alloc(), b"undefined")),
            Value::Null => text_or(Units::from_bytes(self.alloc(), b"null")),
            Value::Bool(true) => text_or(Units::from_bytes(self.alloc(), b"true")),
            Value::Bool(false) => text_or(Units::from_bytes(self.alloc(), b"false")),
            Value::Int(number) => text_or(integer_units(self.alloc(), number)),
            Value::Builtin(_) | Value::Holder(_) => Err(TextError::NotText),
            Value::Ref(r) => match self.find_text(r) {
                Some(units) => text_or(copy_units(self.alloc(), units)),
                None => Err(TextError::NotText),
            },
        }
    }
}

fn capped(len: usize) -> u32
    ensures { result ≡ min len 4294967295 }
{
    if len < 4_294_967_295 {
        len as u32
    } else {
        u32::MAX
    }
}

fn copy_units(alloc: Global, units: &[u16]) -> Result<Units, NoMemory>
    ensures { IfOk result (λ copy. copy ≡ units.now) }
{
    Ok(Units::from_vec(Vec::from_slice(alloc, units)?))
}

fn text_or(units: Result<Units, NoMemory>) -> Result<Units, TextError>
    ensures refused { result ≢ Err TextError.NotText }
    ensures ok { IfOk result (λ text. units ≡ Ok text) }
{
    match units {
        Ok(text) => Ok(text),
        Err(_) => Err(TextError::NoMemory),
    }
}
