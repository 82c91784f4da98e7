ghost use Rattle.std.specs.Prelude.{◌≡◌, [], map, bytes_eq, IfOk, OnOk};
ghost use Rattle.ob_tree.specs.Names.{with_one};

use indexmap::IndexSet;
use ob_base::{List, NoMemory, Text};
use std::alloc::Global;
use std::marker::Model;

/// Texts, each once, in the order in which they came.
#[derive(Drop)]
pub struct TextSet<'a> {
    set: IndexSet<&'a str>,
}

impl<'a> Model for TextSet<'a> {
    ghost use Rattle.std.specs.Prelude.{List, ℕ, map};

    ghost Value = { List (List ℕ) };

    ghost view = { λ s. map (λ k. k.now) s.set.keys };
}

impl<'a> TextSet<'a> {
    pub fn new(alloc: Global) -> TextSet<'a>
        ensures { result ≡ [] }
    {
        TextSet {
            set: IndexSet::new(alloc),
        }
    }

    /// Adds a text at the end, unless it is there.
    pub fn add(&mut self, text: &'a str) -> Result<(), NoMemory>
        ensures { OnOk result (self.new ≡ with_one bytes_eq self.old text.now) }
    {
        insert_text(&mut self.set, text)
    }

    /// The texts, copied.
    pub fn copies(&self, alloc: Global) -> Result<List<Text>, NoMemory>
        ensures { IfOk result (λ texts. texts ≡ self.now) }
    {
        copies_of(alloc, self.set.as_slice())
    }
}

fn insert_text<'a>(set: &mut IndexSet<&'a str>, text: &'a str) -> Result<(), NoMemory>
    ensures { OnOk result (map (λ k. k.now) set.new.keys ≡ with_one bytes_eq (map (λ k. k.now) set.old.keys) text.now) }
{
    set.insert(text)?;
    Ok(())
}

fn copies_of(alloc: Global, keys: &[&str]) -> Result<List<Text>, NoMemory>
    ensures { IfOk result (λ texts. texts ≡ map (λ k. k.now) keys.now) }
{
    let mut texts = List::new(alloc);
    for key in keys {
        texts.push(Text::from_string(String::from_str(alloc, key)?))?;
    }
    Ok(texts)
}
