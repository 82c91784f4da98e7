ghost use Rattle.std.specs.Prelude.{◌≡◌, [], ◌==◌, string_bytes, codes, OnOk, if◌then◌else◌};
ghost use Rattle.ob_values.specs.Inspect as spec;
ghost use Rattle.ob_values.specs.Inspect.{write, take_one};

use crate::item::put_item;
use crate::key::put_key;
use ob_base::NoMemory;
use ob_values::{Body, Regions};
use std::alloc::Global;
use std::marker::Model;

/// A text that is being printed, with how many values may still be.
#[derive(Drop)]
pub(crate) struct Page {
    text: String,
    left: u32,
}

impl Model for Page {
    ghost use Rattle.std.specs.Prelude.{string_bytes};
    ghost use Rattle.ob_values.specs.Inspect.{Page as ThePage};

    ghost Value = { ThePage };

    ghost view = { λ p. record { text = string_bytes p.text; left = p.left } };
}

impl Page {
    /// The empty text, and so many values.
    pub fn new(alloc: Global, left: u32) -> Page
        ensures { result ≡ record { text = []; left = left } }
    {
        Page {
            text: String::new(alloc),
            left,
        }
    }

    /// Adds a text.
    ///
    /// # Errors
    /// `NoMemory` where an allocation is refused.
    pub fn write(&mut self, text: &str) -> Result<(), NoMemory>
        ensures { OnOk result (self.new ≡ write text.now self.old) }
    {
        self.text.push_str(text)?;
        Ok(())
    }

    /// Adds a comma, where a part of a list stands before.
    ///
    /// # Errors
    /// `NoMemory` where an allocation is refused.
    pub fn write_separator(&mut self, begun: bool) -> Result<(), NoMemory>
        ensures { OnOk result (self.new ≡ write (if begun then codes ", " else []) self.old) }
    {
        if begun {
            self.text.push_str(", ")?;
        }
        Ok(())
    }

    /// Adds a key.
    ///
    /// # Errors
    /// `NoMemory` where an allocation is refused.
    pub fn write_key(&mut self, units: &[u16]) -> Result<(), NoMemory>
        ensures { OnOk result (self.new ≡ write (spec.key_text units.now) self.old) }
    {
        put_key(&mut self.text, units)
    }

    /// Adds an item that is not opened.
    ///
    /// # Errors
    /// `NoMemory` where an allocation is refused.
    pub fn write_item(&mut self, regions: &Regions, body: &Body) -> Result<(), NoMemory>
        ensures { OnOk result (self.new ≡ write (spec.item_text regions.now body.now) self.old) }
    {
        put_item(&mut self.text, regions, body)
    }

    /// How many values may still be printed.
    pub fn left(&self) -> u32
        ensures { result ≡ self.now.left }
    {
        self.left
    }

    /// Whether no value may be printed any more.
    pub fn is_used_up(&self) -> bool
        ensures { result ≡ (self.now.left == 0) }
    {
        self.left == 0
    }

    /// Takes one value from those that may be printed.
    pub fn take_one(&mut self)
        ensures { self.new ≡ take_one self.old }
    {
        self.left = self.left.saturating_sub(1);
    }

    /// The text.
    pub fn into_text(self) -> String
        ensures { string_bytes result ≡ self.text }
    {
        let Page { text, left: _ } = self;
        text
    }
}
