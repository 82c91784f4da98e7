ghost use Rattle.std.specs.Prelude.{◌≡◌, [], ◌∷◌, ◌++◌, IfOk, OnOk, OnErr};
ghost use Rattle.std.specs.Char.Escape.{encode_utf16};
ghost use Rattle.ob_base.specs.Utf16.{utf16};

use crate::NoMemory;
use std::alloc::Global;
use std::marker::Model;

/// A text of a notebook's language: UTF-16 code units, lone surrogates among them, which contracts
/// see as the list of these numbers (ECMA-262, "The String Type").
#[derive(Debug, Drop)]
pub struct Units {
    items: Vec<u16>,
}

impl Model for Units {
    ghost use Rattle.std.specs.Prelude.{List, ℕ};

    ghost Value = { List ℕ };

    ghost view = { λ u. u.items.items };
}

impl Units {
    /// The text of no unit.
    pub fn new(alloc: Global) -> Units
        ensures { result ≡ [] }
    {
        Units {
            items: Vec::new(alloc),
        }
    }

    /// The text of these units.
    pub fn from_vec(items: Vec<u16>) -> Units
        ensures { result ≡ items.items }
    {
        Units { items }
    }

    /// The UTF-16 code units of a text.
    ///
    /// # Errors
    /// `NoMemory` where an allocation is refused.
    pub fn from_str(alloc: Global, text: &str) -> Result<Units, NoMemory>
        ensures { IfOk result (λ units. units ≡ utf16 text.now) }
    {
        let mut units = Units::new(alloc);
        for c in text.chars() {
            push_char(&mut units, c)?;
        }
        Ok(units)
    }

    /// The text whose units are these bytes, one each.
    ///
    /// # Errors
    /// `NoMemory` where an allocation is refused.
    pub fn from_bytes(alloc: Global, bytes: &[u8]) -> Result<Units, NoMemory>
        ensures { IfOk result (λ units. units ≡ bytes.now) }
    {
        let mut units = Units::new(alloc);
        for byte in bytes {
            units.push(u16::from(*byte))?;
        }
        Ok(units)
    }

    /// The units, given up.
    pub fn into_vec(self) -> Vec<u16>
        ensures { result.items ≡ self }
    {
        let Units { items } = self;
        items
    }

    /// The units.
    pub fn as_slice(&self) -> &[u16]
        ensures { result.now ≡ self.now }
    {
        self.items.as_slice()
    }

    /// Adds a unit at the end.
    ///
    /// # Errors
    /// `NoMemory` where an allocation is refused; the text is then as before.
    pub fn push(&mut self, item: u16) -> Result<(), NoMemory>
        ensures ok { OnOk result (self.new ≡ self.old ++ item ∷ []) }
        ensures err { OnErr result (self.new ≡ self.old) }
    {
        self.items.push(item)?;
        Ok(())
    }

    /// A text of the same units.
    ///
    /// # Errors
    /// `NoMemory` where an allocation is refused.
    pub fn copy(&self, alloc: Global) -> Result<Units, NoMemory>
        ensures { IfOk result (λ copy. copy ≡ self.now) }
    {
        Ok(Units {
            items: Vec::from_slice(alloc, self.items.as_slice())?,
        })
    }
}

// Adds the units of a character; where an allocation is refused, the first of two may be there.
fn push_char(units: &mut Units, c: char) -> Result<(), NoMemory>
    ensures { OnOk result (units.new ≡ units.old ++ encode_utf16 c) }
{
    let mut pair = [0u16; 2];
    for unit in c.encode_utf16(&mut pair).iter() {
        units.push(*unit)?;
    }
    Ok(())
}
