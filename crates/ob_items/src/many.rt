//! The properties of an object that has many of them.
ghost use Rattle.std.specs.Prelude.{◌≡◌, ◌≤◌, ◌==◌, ◌++◌, IfOk, OnOk, OnErr, length, map, take, decimal};
ghost use Rattle.ob_items.specs.Properties.{property, with_property, count, values_of, keys_of, entries_of, index_entry, named_entry};

use crate::index_text::{decimal_units, index_of};
use crate::{Property, UnitsMap, Value};
use ob_base::{List, NoMemory, Units};
use std::alloc::Global;
use std::collections::BTreeMap;
use std::marker::Model;

/// Properties in a table by their keys, and those whose keys are array indices in one by the index.
#[derive(Drop)]
pub(crate) struct ManyProperties {
    maps: Box<PropertyMaps>,
}

// In a place of their own, so that items other than objects stay small.
#[derive(Drop)]
struct PropertyMaps {
    indices: BTreeMap<u32, Value>,
    named: UnitsMap<Value>,
}

impl Model for ManyProperties {
    ghost use Rattle.ob_items.specs.Properties.{Keyed};

    ghost Value = { Keyed };

    ghost view = { λ p. record { indices = p.maps.value.indices.entries; named = p.maps.value.named } };
}

impl ManyProperties {
    /// The properties of a tree of those at array indices and a table of the others.
    ///
    /// # Errors
    /// `NoMemory` where an allocation is refused.
    pub(crate) fn new(
        alloc: Global,
        indices: BTreeMap<u32, Value>,
        named: UnitsMap<Value>,
    ) -> Result<ManyProperties, NoMemory>
        ensures { IfOk result (λ many. many ≡ record { indices = indices.entries; named = named }) }
    {
        let maps = PropertyMaps { indices, named };
        match Box::new(alloc, maps) {
            Ok(maps) => Ok(ManyProperties { maps }),
            Err(_) => Err(NoMemory),
        }
    }

    /// The value at a key; none where there is no such property.
    pub(crate) fn get(&self, key: &[u16]) -> Option<Value>
        ensures { result ≡ property self.now key.now }
    {
        match index_of(key) {
            Some(index) => self.maps.indices.get(&index).copied(),
            None => self.maps.named.get(key),
        }
    }

    /// Writes the value at a key. A key that is there keeps its place.
    ///
    /// # Errors
    /// `NoMemory` where an allocation is refused; the properties are then as before.
    pub(crate) fn set(&mut self, alloc: Global, key: &[u16], value: Value) -> Result<(), NoMemory>
        ensures ok { OnOk result (self.new ≡ with_property self.old key.now value) }
        ensures err { OnErr result (self.new ≡ self.old) }
    {
        let maps = &mut *self.maps;
        match index_of(key) {
            Some(index) => match maps.indices.insert(index, value) {
                Ok(_) => Ok(()),
                Err(_) => Err(NoMemory),
            },
            None => maps.named.set(alloc, key, value),
        }
    }

    /// The values, in the order of the keys.
    ///
    /// # Errors
    /// `NoMemory` where an allocation is refused.
    pub(crate) fn values(&self, alloc: Global) -> Result<List<Value>, NoMemory>
        ensures { IfOk result (λ values. values ≡ values_of self.now) }
    {
        let maps = &*self.maps;
        let mut values = index_values(alloc, &maps.indices)?;
        maps.named.add_values(&mut values)?;
        Ok(values)
    }

    /// The keys, in their order: array indices rising, then the others in order of creation.
    ///
    /// # Errors
    /// `NoMemory` where an allocation is refused.
    pub(crate) fn keys(&self, alloc: Global) -> Result<List<Units>, NoMemory>
        ensures { IfOk result (λ keys. keys ≡ keys_of self.now) }
    {
        let maps = &*self.maps;
        let mut keys = index_keys(alloc, &maps.indices)?;
        maps.named.add_keys(alloc, &mut keys)?;
        Ok(keys)
    }

    /// Whether there is no property. It takes no memory.
    pub(crate) fn is_empty(&self) -> bool
        ensures { result ≡ (count self.now == 0) }
    {
        self.maps.indices.is_empty() && self.maps.named.len() == 0
    }

    /// The first n keys with their values, in the order of the keys; all where there are fewer.
    ///
    /// # Errors
    /// `NoMemory` where an allocation is refused.
    pub(crate) fn first(&self, alloc: Global, n: usize) -> Result<List<Property>, NoMemory>
        ensures { IfOk result (λ entries. entries ≡ take n (entries_of self.now)) }
    {
        let maps = &*self.maps;
        let mut entries = index_entries(alloc, &maps.indices, n)?;
        let left = n - entries.len();
        add_named_entries(alloc, &maps.named, left, &mut entries)?;
        Ok(entries)
    }

    /// The keys with their values, in the order of the keys.
    ///
    /// # Errors
    /// `NoMemory` where an allocation is refused.
    pub(crate) fn entries(&self, alloc: Global) -> Result<List<Property>, NoMemory>
        ensures { IfOk result (λ entries. entries ≡ entries_of self.now) }
    {
        let maps = &*self.maps;
        let mut entries = index_entries(alloc, &maps.indices, maps.indices.len())?;
        add_named_entries(alloc, &maps.named, maps.named.len(), &mut entries)?;
        Ok(entries)
    }
}

// The first n of them.
fn index_entries(
    alloc: Global,
    indices: &BTreeMap<u32, Value>,
    n: usize,
) -> Result<List<Property>, NoMemory>
    ensures value { IfOk result (λ entries. entries ≡ take n (map index_entry indices.now.entries)) }
    ensures most { IfOk result (λ entries. length entries ≤ n) }
{
    let mut entries = List::new(alloc);
    for (index, value) in indices {
        if entries.len() == n {
            return Ok(entries);
        }
        let key = decimal_units(alloc, u64::from(*index))?;
        entries.push(Property { key, value: *value })?;
    }
    Ok(entries)
}

// Adds the first n of them.
fn add_named_entries(
    alloc: Global,
    named: &UnitsMap<Value>,
    n: usize,
    entries: &mut List<Property>,
) -> Result<(), NoMemory>
    ensures { OnOk result (entries.new ≡ entries.old ++ map named_entry (take n named.now)) }
{
    for place in 0..named.len().min(n) {
        if let Some((key, value)) = named.at(place) {
            let key = Units::from_vec(Vec::from_slice(alloc, key)?);
            entries.push(Property { key, value })?;
        }
    }
    Ok(())
}

fn index_values(alloc: Global, indices: &BTreeMap<u32, Value>) -> Result<List<Value>, NoMemory>
    ensures { IfOk result (λ values. values ≡ map (λ e. e.1) indices.now.entries) }
{
    let mut values = List::new(alloc);
    for value in indices.values() {
        values.push(*value)?;
    }
    Ok(values)
}

#[tactic(auto, using(crate::proofs::UnitsMapLemmas::decimal_keys))]
fn index_keys(alloc: Global, indices: &BTreeMap<u32, Value>) -> Result<List<Units>, NoMemory>
    ensures { IfOk result (λ keys. keys ≡ map (λ e. decimal e.0) indices.now.entries) }
{
    let mut keys = List::new(alloc);
    for index in indices.keys() {
        keys.push(decimal_units(alloc, u64::from(*index))?)?;
    }
    Ok(keys)
}
