//! The properties of an object at array indices, where these are few.
ghost use Rattle.std.specs.Prelude.{◌≡◌, [], ◌∷◌, ◌++◌, ◌≤◌, length, map, take, decimal, insert, IfOk, OnOk, OnErr};
ghost use Rattle.std.specs.Ordering.{nat_cmp};
ghost use Rattle.std.specs.Map.{lookup};
ghost use Rattle.std.specs.BTreeMap.{insert_entry, is_at};
ghost use Rattle.ob_items.specs.Properties.{index_entry};
ghost use Rattle.ob_items.specs.Rising.{AreRising};

use crate::few::MAX_FEW;
use crate::index_text::decimal_units;
use crate::{Property, Value};
use ob_base::{List, NoMemory, Units};
use std::alloc::Global;
use std::cmp::Ordering;
use std::collections::BTreeMap;
use std::marker::Model;

/// Properties by rising index, which a contract sees as the list of their indices and values.
#[derive(Drop)]
pub(crate) struct FewIndices {
    entries: Box<Vec<(u32, Value)>>,
}

// So a short list keeps each of its properties in 32 bytes.
const _: () = prove!(size_of::<(u32, Value)>() == 32);

impl Model for FewIndices {
    ghost use Rattle.std.specs.Prelude.{List, ℕ};
    ghost use Rattle.ob_items.specs.declared.value.Value.{Value as TheValue};
    ghost use Rattle.ob_items.specs.Rising.{AreRising};

    ghost Value = { List (ℕ × TheValue) };

    ghost view = { λ p. p.entries.value.items };

    ghost invariant = { λ p. AreRising p.entries.value.items };
}

impl FewIndices {
    /// One property.
    ///
    /// # Errors
    /// `NoMemory` where an allocation is refused.
    pub(crate) fn new(alloc: Global, index: u32, value: Value) -> Result<FewIndices, NoMemory>
        ensures { IfOk result (λ few. few ≡ (index, value) ∷ []) }
    {
        let mut entries = Vec::new(alloc);
        push_exact(&mut entries, (index, value))?;
        match Box::new(alloc, entries) {
            Ok(entries) => Ok(FewIndices { entries }),
            Err(_) => Err(NoMemory),
        }
    }

    /// How many there are.
    pub(crate) fn len(&self) -> usize
        ensures { result ≡ length self.now }
    {
        self.entries.as_slice().len()
    }

    /// Whether a property at this index would leave them few.
    pub(crate) fn has_room_for(&self, index: u32) -> bool {
        self.len() < MAX_FEW || self.get(index).is_some()
    }

    /// The same properties once more.
    ///
    /// # Errors
    /// `NoMemory` where an allocation is refused.
    pub(crate) fn copy(&self, alloc: Global) -> Result<FewIndices, NoMemory>
        ensures { IfOk result (λ few. few ≡ self.now) }
    {
        match Box::new(alloc, Vec::from_slice(alloc, self.entries.as_slice())?) {
            Ok(entries) => Ok(FewIndices { entries }),
            Err(_) => Err(NoMemory),
        }
    }

    /// The value at an index; none where it isn't there.
    pub(crate) fn get(&self, index: u32) -> Option<Value>
        ensures { result ≡ lookup (is_at (nat_cmp index)) self.now }
    {
        find(self.entries.as_slice(), index)
    }

    /// Writes the value at an index.
    ///
    /// # Errors
    /// `NoMemory` where an allocation is refused; the properties are then as before.
    pub(crate) fn set(&mut self, index: u32, value: Value) -> Result<(), NoMemory>
        ensures ok { OnOk result (self.new ≡ insert_entry nat_cmp self.old index value) }
        ensures err { OnErr result (self.new ≡ self.old) }
    {
        set_entry(&mut *self.entries, index, value)
    }

    /// The values, in the order of the indices.
    ///
    /// # Errors
    /// `NoMemory` where an allocation is refused.
    pub(crate) fn values(&self, alloc: Global) -> Result<List<Value>, NoMemory>
        ensures { IfOk result (λ values. values ≡ map (λ e. e.1) self.now) }
    {
        values_of(alloc, self.entries.as_slice())
    }

    /// The indices as keys, in their order.
    ///
    /// # Errors
    /// `NoMemory` where an allocation is refused.
    pub(crate) fn keys(&self, alloc: Global) -> Result<List<Units>, NoMemory>
        ensures { IfOk result (λ keys. keys ≡ map (λ e. decimal e.0) self.now) }
    {
        keys_of(alloc, self.entries.as_slice())
    }

    /// The first n keys with their values, in their order; all where there are fewer.
    ///
    /// # Errors
    /// `NoMemory` where an allocation is refused.
    pub(crate) fn first(&self, alloc: Global, n: usize) -> Result<List<Property>, NoMemory>
        ensures { IfOk result (λ entries. entries ≡ take n (map index_entry self.now)) }
    {
        first_entries(alloc, self.entries.as_slice(), n)
    }

    /// The keys with their values, in their order.
    ///
    /// # Errors
    /// `NoMemory` where an allocation is refused.
    pub(crate) fn entries(&self, alloc: Global) -> Result<List<Property>, NoMemory>
        ensures { IfOk result (λ entries. entries ≡ map index_entry self.now) }
    {
        first_entries(alloc, self.entries.as_slice(), self.len())
    }

    /// The tree of these indices and values.
    ///
    /// # Errors
    /// `NoMemory` where an allocation is refused.
    pub(crate) fn tree(&self, alloc: Global) -> Result<BTreeMap<u32, Value>, NoMemory>
        ensures { IfOk result (λ tree. tree.entries ≡ self.now) }
    {
        tree_of(alloc, self.entries.as_slice())
    }
}

fn find(entries: &[(u32, Value)], index: u32) -> Option<Value>
    ensures { result ≡ lookup (is_at (nat_cmp index)) entries.now }
{
    for entry in entries {
        if index.cmp(&entry.0).is_eq() {
            return Some(entry.1);
        }
    }
    None
}

// Writes the value at an index that is there, or adds it at its place among the others.
fn set_entry(entries: &mut Vec<(u32, Value)>, index: u32, value: Value) -> Result<(), NoMemory>
    ensures ok { OnOk result (entries.new.items ≡ insert_entry nat_cmp entries.old.items index value) }
    ensures err { OnErr result (entries.new.items ≡ entries.old.items) }
{
    for at in 0..entries.len() {
        let there = entries[at].0;
        match index.cmp(&there) {
            Ordering::Less => return insert_exact(entries, at, (index, value)),
            Ordering::Equal => {
                entries[at] = (there, value);
                return Ok(());
            }
            Ordering::Greater => {}
        }
    }
    push_exact(entries, (index, value))
}

// Adds an entry at a place, in a list that grows by its one place: an object is to keep no place that
// it doesn't use.
fn insert_exact(
    entries: &mut Vec<(u32, Value)>,
    at: usize,
    entry: (u32, Value),
) -> Result<(), NoMemory>
    requires { at ≤ length entries.old.items }
    ensures ok { OnOk result (entries.new.items ≡ insert entries.old.items at entry) }
    ensures err { OnErr result (entries.new.items ≡ entries.old.items) }
{
    entries.reserve_exact(1)?;
    match entries.insert(at, entry) {
        Ok(()) => Ok(()),
        Err(_) => Err(NoMemory),
    }
}

// Adds an entry at the end, likewise.
fn push_exact(entries: &mut Vec<(u32, Value)>, entry: (u32, Value)) -> Result<(), NoMemory>
    ensures ok { OnOk result (entries.new.items ≡ entries.old.items ++ entry ∷ []) }
    ensures err { OnErr result (entries.new.items ≡ entries.old.items) }
{
    entries.reserve_exact(1)?;
    entries.push_reserved(entry);
    Ok(())
}

fn values_of(alloc: Global, entries: &[(u32, Value)]) -> Result<List<Value>, NoMemory>
    ensures { IfOk result (λ values. values ≡ map (λ e. e.1) entries.now) }
{
    let mut values = List::new(alloc);
    for entry in entries {
        values.push(entry.1)?;
    }
    Ok(values)
}

fn keys_of(alloc: Global, entries: &[(u32, Value)]) -> Result<List<Units>, NoMemory>
    ensures { IfOk result (λ keys. keys ≡ map (λ e. decimal e.0) entries.now) }
{
    let mut keys = List::new(alloc);
    for entry in entries {
        keys.push(decimal_units(alloc, u64::from(entry.0))?)?;
    }
    Ok(keys)
}

fn first_entries(
    alloc: Global,
    entries: &[(u32, Value)],
    n: usize,
) -> Result<List<Property>, NoMemory>
    ensures { IfOk result (λ first. first ≡ take n (map index_entry entries.now)) }
{
    let mut first = List::new(alloc);
    for entry in entries {
        if first.len() == n {
            return Ok(first);
        }
        let key = decimal_units(alloc, u64::from(entry.0))?;
        first.push(Property {
            key,
            value: entry.1,
        })?;
    }
    Ok(first)
}

fn tree_of(alloc: Global, entries: &[(u32, Value)]) -> Result<BTreeMap<u32, Value>, NoMemory>
    requires { AreRising entries.now }
    ensures { IfOk result (λ tree. tree.entries ≡ entries.now) }
{
    let mut tree = BTreeMap::new(alloc);
    for entry in entries {
        tree.insert(entry.0, entry.1)?;
    }
    Ok(tree)
}
