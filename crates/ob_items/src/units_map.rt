ghost use Rattle.std.specs.Prelude.{◌≡◌, [], length, nat_eq, IfOk, OnOk, OnErr, slice_get, option_map, map, ◌++◌};
ghost use Rattle.std.specs.Cmp.Lexicographic.{pointwise};
ghost use Rattle.std.specs.Map.{lookup, keys_of, values_of};
ghost use Rattle.indexmap.specs.IndexMap.{insert_entry};

use indexmap::IndexMap;
use ob_base::{List, NoMemory, Units};
use std::alloc::Global;
use std::marker::Model;

/// A table whose keys are texts, in UTF-16 units. Contracts see the list of its keys and values, in
/// the order in which the keys were added.
#[derive(Drop)]
pub struct UnitsMap<V> {
    table: IndexMap<Vec<u16>, V>,
}

impl<V> Model for UnitsMap<V> {
    ghost use Rattle.std.specs.Prelude.{List, ℕ, map};

    ghost Value = { List (List ℕ × V) };

    ghost view = { λ m. map (λ e. (e.0.items, e.1)) m.table.entries };
}

impl<V> UnitsMap<V> {
    /// The table of no key.
    pub fn new(alloc: Global) -> UnitsMap<V>
        ensures { result ≡ [] }
    {
        UnitsMap {
            table: IndexMap::new(alloc),
        }
    }

    /// How many keys there are.
    pub fn len(&self) -> usize
        ensures { result ≡ length self.now }
    {
        self.table.len()
    }
}

impl<V: Copy + Drop> UnitsMap<V> {
    /// The value at a key; none where it isn't there.
    pub fn get(&self, key: &[u16]) -> Option<V>
        ensures { result ≡ lookup (pointwise nat_eq key.now) self.now }
    {
        self.table.get(key).copied()
    }

    /// The key and value at a place, from 0; none past the end.
    pub fn at(&self, place: usize) -> Option<(&[u16], V)>
        ensures { option_map (λ e. (e.0.now, e.1)) result ≡ slice_get self.now place }
    {
        match self.table.get_index(place) {
            Some((key, value)) => Some((key.as_slice(), *value)),
            None => None,
        }
    }

    /// Writes the value at a key. A key that is there keeps its place, and a new one goes last.
    ///
    /// # Errors
    /// `NoMemory` where an allocation is refused; the table is then as before.
    pub fn set(&mut self, alloc: Global, key: &[u16], value: V) -> Result<(), NoMemory>
        ensures ok { OnOk result (self.new ≡ insert_entry (pointwise nat_eq) self.old key.now value) }
        ensures err { OnErr result (self.new ≡ self.old) }
    {
        let copy = Vec::from_slice(alloc, key)?;
        self.table.insert(copy, value)?;
        Ok(())
    }

    /// Adds the values to a list, in their order.
    ///
    /// # Errors
    /// `NoMemory` where an allocation is refused; the list may then have some of them.
    pub fn add_values(&self, values: &mut List<V>) -> Result<(), NoMemory>
        ensures { OnOk result (values.new ≡ values.old ++ values_of self.now) }
    {
        add_table_values(&self.table, values)
    }

    /// Adds copies of the keys to a list, in their order.
    ///
    /// # Errors
    /// `NoMemory` where an allocation is refused; the list may then have some of them.
    pub fn add_keys(&self, alloc: Global, keys: &mut List<Units>) -> Result<(), NoMemory>
        ensures { OnOk result (keys.new ≡ keys.old ++ keys_of self.now) }
    {
        add_table_keys(alloc, &self.table, keys)
    }
}

fn add_table_values<V: Copy + Drop>(
    table: &IndexMap<Vec<u16>, V>,
    values: &mut List<V>,
) -> Result<(), NoMemory>
    ensures { OnOk result (values.new ≡ values.old ++ values_of table.now.entries) }
{
    for value in table.values() {
        values.push(*value)?;
    }
    Ok(())
}

fn add_table_keys<V>(
    alloc: Global,
    table: &IndexMap<Vec<u16>, V>,
    keys: &mut List<Units>,
) -> Result<(), NoMemory>
    ensures { OnOk result (keys.new ≡ keys.old ++ map (λ key. key.items) (keys_of table.now.entries)) }
{
    for key in table.keys() {
        keys.push(Units::from_vec(Vec::from_slice(alloc, key.as_slice())?))?;
    }
    Ok(())
}
