ghost use Rattle.std.specs.Prelude.{◌≡◌, ◌==◌, ◌++◌, IfOk, OnOk, OnErr, take};
ghost use Rattle.std.specs.Option.{option_map_or};
ghost use Rattle.ob_items.specs.Properties.{property, with_property, no_properties, only_named, only_indices, count, values_of, keys_of, entries_of};
ghost use Rattle.ob_items.specs.Kept.{properties_kept};

use crate::few::FewProperties;
use crate::few_indices::FewIndices;
use crate::index_text::index_of;
use crate::many::ManyProperties;
use crate::{Names, UnitsMap, Value};
use ob_base::{List, NoMemory, Units};
use std::alloc::Global;
use std::collections::BTreeMap;
use std::marker::Model;

/// The properties of an object, in the order of their keys (ECMA-262, "OrdinaryOwnPropertyKeys").
#[derive(Drop)]
pub struct Properties {
    kept: Kept,
}

// An object whose properties are few keeps them in short lists, and an empty one asks for no memory.
const _: () = prove!(size_of::<Properties>() == 24);

/// A property: its key and its value.
#[derive(Drop)]
pub struct Property {
    pub key: Units,
    pub value: Value,
}

// The properties, by how many there are and what keys they have.
#[derive(Drop)]
enum Kept {
    Empty,
    Few(FewProperties),
    Indices(FewIndices),
    Both(FewIndices, FewProperties),
    Many(ManyProperties),
}

impl Model for Properties {
    ghost use Rattle.ob_items.specs.Properties.{Keyed};

    ghost Value = { Keyed };

    ghost use Rattle.ob_items.specs.Kept.{properties_kept};

    ghost view = { λ p. properties_kept p.kept };
}

impl Properties {
    /// No property. It takes no memory.
    pub fn new() -> Properties
        ensures { result ≡ no_properties }
    {
        Properties { kept: Kept::Empty }
    }

    /// The value at a key; none where there is no such property.
    pub fn get(&self, key: &[u16]) -> Option<Value>
        ensures { result ≡ property self.now key.now }
    {
        match &self.kept {
            Kept::Empty => None,
            Kept::Few(few) => match index_of(key) {
                Some(_) => None,
                None => few.get(key),
            },
            Kept::Indices(few) => match index_of(key) {
                Some(index) => few.get(index),
                None => None,
            },
            Kept::Both(indices, named) => match index_of(key) {
                Some(index) => indices.get(index),
                None => named.get(key),
            },
            Kept::Many(many) => many.get(key),
        }
    }

    /// Writes the value at a key. A key that is there keeps its place. While the properties are few, the
    /// name of a new one is taken from these names.
    ///
    /// # Errors
    /// `NoMemory` where an allocation is refused; the properties are then as before.
    pub fn set(
        &mut self,
        alloc: Global,
        names: &mut Names,
        key: &[u16],
        value: Value,
    ) -> Result<(), NoMemory>
        ensures ok { OnOk result (self.new ≡ with_property self.old key.now value) }
        ensures err { OnErr result (self.new ≡ self.old) }
    {
        let grown = match &mut self.kept {
            Kept::Empty => Some(first_kept(alloc, names, key, value)?),
            Kept::Few(named) => set_few(alloc, names, named, key, value)?,
            Kept::Indices(indices) => set_indices(alloc, names, indices, key, value)?,
            Kept::Both(indices, named) => set_both(alloc, names, indices, named, key, value)?,
            Kept::Many(many) => {
                many.set(alloc, key, value)?;
                None
            }
        };
        if let Some(kept) = grown {
            self.kept = kept;
        }
        Ok(())
    }

    /// The values, in the order of the keys.
    ///
    /// # Errors
    /// `NoMemory` where an allocation is refused.
    pub fn values(&self, alloc: Global) -> Result<List<Value>, NoMemory>
        ensures { IfOk result (λ values. values ≡ values_of self.now) }
    {
        match &self.kept {
            Kept::Empty => Ok(List::new(alloc)),
            Kept::Few(few) => few.values(alloc),
            Kept::Indices(few) => few.values(alloc),
            Kept::Both(indices, named) => joined(indices.values(alloc)?, named.values(alloc)?),
            Kept::Many(many) => many.values(alloc),
        }
    }

    /// The keys, in their order: array indices rising, then the others in order of creation.
    ///
    /// # Errors
    /// `NoMemory` where an allocation is refused.
    pub fn keys(&self, alloc: Global) -> Result<List<Units>, NoMemory>
        ensures { IfOk result (λ keys. keys ≡ keys_of self.now) }
    {
        match &self.kept {
            Kept::Empty => Ok(List::new(alloc)),
            Kept::Few(few) => few.keys(alloc),
            Kept::Indices(few) => few.keys(alloc),
            Kept::Both(indices, named) => joined(indices.keys(alloc)?, named.keys(alloc)?),
            Kept::Many(many) => many.keys(alloc),
        }
    }

    /// Whether there is no property. It takes no memory.
    pub fn is_empty(&self) -> bool
        ensures { result ≡ (count self.now == 0) }
    {
        match &self.kept {
            Kept::Empty => true,
            Kept::Few(few) => few.len() == 0,
            Kept::Indices(few) => few.len() == 0,
            Kept::Both(indices, named) => indices.len() == 0 && named.len() == 0,
            Kept::Many(many) => many.is_empty(),
        }
    }

    /// The first n keys with their values, in the order of the keys; all where there are fewer.
    ///
    /// # Errors
    /// `NoMemory` where an allocation is refused.
    pub fn first(&self, alloc: Global, n: usize) -> Result<List<Property>, NoMemory>
        ensures { IfOk result (λ entries. entries ≡ take n (entries_of self.now)) }
    {
        match &self.kept {
            Kept::Empty => Ok(List::new(alloc)),
            Kept::Few(few) => few.first(alloc, n),
            Kept::Indices(few) => few.first(alloc, n),
            Kept::Both(indices, named) => first_of_both(alloc, indices, named, n),
            Kept::Many(many) => many.first(alloc, n),
        }
    }

    /// The keys with their values, in the order of the keys.
    ///
    /// # Errors
    /// `NoMemory` where an allocation is refused.
    pub fn entries(&self, alloc: Global) -> Result<List<Property>, NoMemory>
        ensures { IfOk result (λ entries. entries ≡ entries_of self.now) }
    {
        match &self.kept {
            Kept::Empty => Ok(List::new(alloc)),
            Kept::Few(few) => few.entries(alloc),
            Kept::Indices(few) => few.entries(alloc),
            Kept::Both(indices, named) => joined(indices.entries(alloc)?, named.entries(alloc)?),
            Kept::Many(many) => many.entries(alloc),
        }
    }
}

// What an object with no property keeps once it has this one.
fn first_kept(alloc: Global, names: &mut Names, key: &[u16], value: Value) -> Result<Kept, NoMemory>
    ensures { IfOk result (λ kept. properties_kept kept ≡ with_property no_properties key.now value) }
{
    match index_of(key) {
        None => {
            let name = names.share(alloc, key)?;
            Ok(Kept::Few(FewProperties::new(alloc, name, value)?))
        }
        Some(index) => Ok(Kept::Indices(FewIndices::new(alloc, index, value)?)),
    }
}

// Writes the value at a key, in place where that leaves the form. Where it doesn't, the properties are
// as before, and it answers all of them, with this one.
fn set_few(
    alloc: Global,
    names: &mut Names,
    named: &mut FewProperties,
    key: &[u16],
    value: Value,
) -> Result<Option<Kept>, NoMemory>
    ensures ok { IfOk result (λ grown. option_map_or properties_kept grown (only_named named.new) ≡ with_property (only_named named.old) key.now value) }
    ensures err { OnErr result (named.new ≡ named.old) }
{
    if let Some(index) = index_of(key) {
        let indices = FewIndices::new(alloc, index, value)?;
        return Ok(Some(Kept::Both(indices, named.copy(alloc)?)));
    }
    if named.has_room_for(key) {
        named.set(alloc, names, key, value)?;
        return Ok(None);
    }
    let mut many = ManyProperties::new(alloc, BTreeMap::new(alloc), named.table(alloc)?)?;
    many.set(alloc, key, value)?;
    Ok(Some(Kept::Many(many)))
}

// The same of properties that are all at array indices.
fn set_indices(
    alloc: Global,
    names: &mut Names,
    indices: &mut FewIndices,
    key: &[u16],
    value: Value,
) -> Result<Option<Kept>, NoMemory>
    ensures ok { IfOk result (λ grown. option_map_or properties_kept grown (only_indices indices.new) ≡ with_property (only_indices indices.old) key.now value) }
    ensures err { OnErr result (indices.new ≡ indices.old) }
{
    let Some(index) = index_of(key) else {
        let named = FewProperties::new(alloc, names.share(alloc, key)?, value)?;
        return Ok(Some(Kept::Both(indices.copy(alloc)?, named)));
    };
    if indices.has_room_for(index) {
        indices.set(index, value)?;
        return Ok(None);
    }
    let mut many = ManyProperties::new(alloc, indices.tree(alloc)?, UnitsMap::new(alloc))?;
    many.set(alloc, key, value)?;
    Ok(Some(Kept::Many(many)))
}

// The same of both.
fn set_both(
    alloc: Global,
    names: &mut Names,
    indices: &mut FewIndices,
    named: &mut FewProperties,
    key: &[u16],
    value: Value,
) -> Result<Option<Kept>, NoMemory>
    ensures ok { IfOk result (λ grown. option_map_or properties_kept grown (record { indices = indices.new; named = named.new }) ≡ with_property (record { indices = indices.old; named = named.old }) key.now value) }
    ensures err { OnErr result ((indices.new ≡ indices.old) × (named.new ≡ named.old)) }
{
    match index_of(key) {
        Some(index) => {
            if indices.has_room_for(index) {
                indices.set(index, value)?;
                return Ok(None);
            }
        }
        None => {
            if named.has_room_for(key) {
                named.set(alloc, names, key, value)?;
                return Ok(None);
            }
        }
    }
    let mut many = ManyProperties::new(alloc, indices.tree(alloc)?, named.table(alloc)?)?;
    many.set(alloc, key, value)?;
    Ok(Some(Kept::Many(many)))
}

fn first_of_both(
    alloc: Global,
    indices: &FewIndices,
    named: &FewProperties,
    n: usize,
) -> Result<List<Property>, NoMemory>
    ensures { IfOk result (λ first. first ≡ take n (entries_of (record { indices = indices.now; named = named.now }))) }
{
    let first = indices.first(alloc, n)?;
    let rest = named.first(alloc, n - first.len())?;
    joined(first, rest)
}

fn joined<T: Drop>(first: List<T>, rest: List<T>) -> Result<List<T>, NoMemory>
    ensures { IfOk result (λ all. all ≡ first ++ rest) }
{
    let mut all = first.into_vec();
    let mut rest = rest.into_vec();
    all.append(&mut rest)?;
    Ok(List::from_vec(all))
}
