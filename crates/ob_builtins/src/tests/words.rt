//! Values in words: `undefined`, `null`, `true`, `false`, `fn` for a function, numbers, texts as
//! `'and_so_on'` with `_` for a space, `xs:17` for a text of 17 units, arrays as `[7,'ab']`, `nulls:17` for
//! one of 17 elements, and objects as `{b:5,1:6}`. Only empty arrays and objects stand inside others.

use ob_base::{NoMemory, Units};
use ob_values::{AllocError, Ref, RegionKey, Regions, SetError, Value};
use std::alloc::{AllocError as Refused, AllocFailed, Global};

/// Why a row makes no call.
#[derive(Clone, Copy, Debug)]
pub enum BadRow {
    /// It has a word that is none of these.
    NoSuchWord,
    NoMemory,
}

impl From<NoMemory> for BadRow {
    fn from(_error: NoMemory) -> BadRow {
        BadRow::NoMemory
    }
}

impl From<Refused> for BadRow {
    fn from(_error: Refused) -> BadRow {
        BadRow::NoMemory
    }
}

impl<T: Drop> From<AllocFailed<T>> for BadRow {
    fn from(_error: AllocFailed<T>) -> BadRow {
        BadRow::NoMemory
    }
}

impl From<AllocError> for BadRow {
    fn from(_error: AllocError) -> BadRow {
        BadRow::NoMemory
    }
}

impl From<SetError> for BadRow {
    fn from(_error: SetError) -> BadRow {
        BadRow::NoMemory
    }
}

// The calls ask for an open region or for an object: each of these tests that first, and answers as where
// memory is refused if it doesn't hold.

fn text(regions: &mut Regions, key: RegionKey, units: Units) -> Result<Ref, AllocError> {
    if regions.is_open(key) {
        regions.alloc_units(key, units)
    } else {
        Err(AllocError::NoMemory)
    }
}

fn array(regions: &mut Regions, key: RegionKey, items: &[Value]) -> Result<Ref, AllocError> {
    if regions.is_open(key) {
        regions.alloc_array(key, items)
    } else {
        Err(AllocError::NoMemory)
    }
}

fn object(regions: &mut Regions, key: RegionKey) -> Result<Ref, AllocError> {
    if regions.is_open(key) {
        regions.alloc_object(key)
    } else {
        Err(AllocError::NoMemory)
    }
}

fn put(regions: &mut Regions, r: Ref, key: &Units, value: Value) -> Result<(), SetError> {
    if regions.is_object(r) {
        regions.set_key(r, key, value)
    } else {
        Err(SetError::NoMemory)
    }
}

/// A region in which words make their items.
#[derive(Drop)]
pub struct Made {
    pub alloc: Global,
    pub regions: Regions,
    pub key: RegionKey,
}

impl Made {
    pub fn new(alloc: Global) -> Result<Made, BadRow> {
        let mut regions = Regions::new(alloc);
        let key = regions.open()?;
        Ok(Made {
            alloc,
            regions,
            key,
        })
    }

    /// The value of a word.
    pub fn value(&mut self, word: &str) -> Result<Value, BadRow> {
        if let Some(items) = inside(word, "[", "]") {
            return self.array_of(items);
        }
        if let Some(properties) = inside(word, "{", "}") {
            return self.object_of(properties);
        }
        if let Some(count) = word.strip_prefix("nulls:") {
            return self.long_array(count);
        }
        self.leaf(word)
    }

    /// The values of words with spaces between them.
    pub fn values(&mut self, words: &str) -> Result<Vec<Value>, BadRow> {
        let mut values = Vec::new(self.alloc);
        for word in words.split_whitespace() {
            let value = self.value(word)?;
            values.push(value)?;
        }
        Ok(values)
    }

    fn array_of(&mut self, words: &str) -> Result<Value, BadRow> {
        let mut items = Vec::new(self.alloc);
        if !words.is_empty() {
            for word in words.split(',') {
                let item = self.leaf(word)?;
                items.push(item)?;
            }
        }
        let r = array(&mut self.regions, self.key, items.as_slice())?;
        Ok(Value::Ref(r))
    }

    fn long_array(&mut self, count: &str) -> Result<Value, BadRow> {
        let mut items = Vec::new(self.alloc);
        for _ in 0..number(count)? {
            items.push(Value::Null)?;
        }
        let r = array(&mut self.regions, self.key, items.as_slice())?;
        Ok(Value::Ref(r))
    }

    fn object_of(&mut self, words: &str) -> Result<Value, BadRow> {
        let r = object(&mut self.regions, self.key)?;
        if !words.is_empty() {
            for word in words.split(',') {
                let (name, word) = two(word, ':');
                let name = Units::from_bytes(self.alloc, name.as_bytes())?;
                let value = self.leaf(word)?;
                put(&mut self.regions, r, &name, value)?;
            }
        }
        Ok(Value::Ref(r))
    }

    fn leaf(&mut self, word: &str) -> Result<Value, BadRow> {
        let value = match word {
            "undefined" => Value::Undefined,
            "null" => Value::Null,
            "true" => Value::Bool(true),
            "false" => Value::Bool(false),
            "fn" => Value::Builtin(7),
            "[]" => Value::Ref(array(&mut self.regions, self.key, &[])?),
            "{}" => Value::Ref(object(&mut self.regions, self.key)?),
            _ => match inside(word, "'", "'") {
                Some(word) => self.text_of(word)?,
                None => match word.strip_prefix("xs:") {
                    Some(count) => self.long_text(count)?,
                    None => Value::Int(number(word)?),
                },
            },
        };
        Ok(value)
    }

    fn text_of(&mut self, word: &str) -> Result<Value, BadRow> {
        let mut units = Units::new(self.alloc);
        for byte in word.as_bytes() {
            let byte = if *byte == b'_' { b' ' } else { *byte };
            units.push(u16::from(byte))?;
        }
        let r = text(&mut self.regions, self.key, units)?;
        Ok(Value::Ref(r))
    }

    fn long_text(&mut self, count: &str) -> Result<Value, BadRow> {
        let mut units = Units::new(self.alloc);
        for _ in 0..number(count)? {
            units.push(u16::from(b'x'))?;
        }
        let r = text(&mut self.regions, self.key, units)?;
        Ok(Value::Ref(r))
    }
}

/// What stands before and after the first separator; where there is none, nothing stands after it.
pub fn two(words: &str, separator: char) -> (&str, &str) {
    match words.split_once(separator) {
        Some((first, more)) => (first, more),
        None => (words, ""),
    }
}

fn inside<'a>(word: &'a str, opens: &str, closes: &str) -> Option<&'a str> {
    word.strip_prefix(opens)?.strip_suffix(closes)
}

/// A number in decimal digits.
pub fn number(word: &str) -> Result<i64, BadRow> {
    match i64::from_str_radix(word, 10) {
        Ok(number) => Ok(number),
        Err(_) => Err(BadRow::NoSuchWord),
    }
}
