//! The properties of an object at keys that are no array indices, where these are few.
ghost use Rattle.std.specs.Prelude.{◌≡◌, [], ◌∷◌, ◌++◌, nat_eq, length, map, take, IfOk, OnOk, OnErr};
ghost use Rattle.std.specs.Bool.{OnTrue, OnFalse};
ghost use Rattle.std.specs.Cmp.Lexicographic.{pointwise};
ghost use Rattle.std.specs.Map.{lookup};
ghost use Rattle.indexmap.specs.IndexMap.{insert_entry};
ghost use Rattle.ob_items.specs.Properties.{named_entry};
ghost use Rattle.ob_items.specs.Distinct.{AreDistinct};

use crate::{Name, Names, Property, UnitsMap, Value};
use ob_base::{List, NoMemory, Units};
use std::alloc::Global;
use std::marker::Model;

/// As many properties as are looked for one after the other. For more there is a table.
pub(crate) const MAX_FEW: usize = 16;

/// Properties in order of creation, which a contract sees as the list of their keys and values.
#[derive(Drop)]
pub(crate) struct FewProperties {
    entries: Box<Vec<Named>>,
}

// A property whose key is no array index.
#[derive(Drop)]
struct Named {
    key: Name,
    value: Value,
}

// So a short list keeps each of its properties in 32 bytes.
const _: () = prove!(size_of::<Named>() == 32);

impl Model for FewProperties {
    ghost use Rattle.std.specs.Prelude.{List, ℕ};
    ghost use Rattle.ob_items.specs.declared.value.Value.{Value as TheValue};
    ghost use Rattle.ob_items.specs.Distinct.{AreDistinct};

    ghost Value = { List (List ℕ × TheValue) };

    ghost view = { λ p. p.entries.value.items };

    ghost invariant = { λ p. AreDistinct p.entries.value.items };
}

impl Model for Named {
    ghost use Rattle.std.specs.Prelude.{List, ℕ};
    ghost use Rattle.ob_items.specs.declared.value.Value.{Value as TheValue};

    ghost Value = { List ℕ × TheValue };

    ghost view = { λ n. (n.key, n.value) };
}

impl Named {
    fn new(key: Name, value: Value) -> Named
        ensures { result ≡ (key, value) }
    {
        Named { key, value }
    }

    fn key(&self) -> &[u16]
        ensures { result.now ≡ self.now.0 }
    {
        self.key.as_slice()
    }

    fn value(&self) -> Value
        ensures { result ≡ self.now.1 }
    {
        self.value
    }

    fn write(&mut self, value: Value)
        ensures { self.new ≡ (self.old.0, value) }
    {
        self.value = value;
    }
}

impl FewProperties {
    /// One property.
    ///
    /// # Errors
    /// `NoMemory` where an allocation is refused.
    pub(crate) fn new(alloc: Global, key: Name, value: Value) -> Result<FewProperties, NoMemory>
        ensures { IfOk result (λ few. few ≡ (key, value) ∷ []) }
    {
        let mut entries = Vec::new(alloc);
        push_exact(&mut entries, Named::new(key, value))?;
        match Box::new(alloc, entries) {
            Ok(entries) => Ok(FewProperties { entries }),
            Err(_) => Err(NoMemory),
        }
    }

    /// How many there are.
    pub(crate) fn len(&self) -> usize
        ensures { result ≡ length self.now }
    {
        self.entries.as_slice().len()
    }

    /// Whether a property at this key would leave them few.
    pub(crate) fn has_room_for(&self, key: &[u16]) -> bool {
        self.len() < MAX_FEW || self.get(key).is_some()
    }

    /// The same properties once more.
    ///
    /// # Errors
    /// `NoMemory` where an allocation is refused.
    pub(crate) fn copy(&self, alloc: Global) -> Result<FewProperties, NoMemory>
        ensures { IfOk result (λ few. few ≡ self.now) }
    {
        match Box::new(alloc, copy_of(alloc, self.entries.as_slice())?) {
            Ok(entries) => Ok(FewProperties { entries }),
            Err(_) => Err(NoMemory),
        }
    }

    /// The value at a key; none where it isn't there.
    pub(crate) fn get(&self, key: &[u16]) -> Option<Value>
        ensures { result ≡ lookup (pointwise nat_eq key.now) self.now }
    {
        find(self.entries.as_slice(), key)
    }

    /// Writes the value at a key. A key that is there keeps its place, and a new one goes last, with its
    /// name from these.
    ///
    /// # Errors
    /// `NoMemory` where an allocation is refused; the properties are then as before.
    pub(crate) fn set(
        &mut self,
        alloc: Global,
        names: &mut Names,
        key: &[u16],
        value: Value,
    ) -> Result<(), NoMemory>
        ensures ok { OnOk result (self.new ≡ insert_entry (pointwise nat_eq) self.old key.now value) }
        ensures err { OnErr result (self.new ≡ self.old) }
    {
        set_entry(alloc, names, &mut *self.entries, key, value)
    }

    /// The values, in their order.
    ///
    /// # Errors
    /// `NoMemory` where an allocation is refused.
    pub(crate) fn values(&self, alloc: Global) -> Result<List<Value>, NoMemory>
        ensures { IfOk result (λ values. values ≡ map (λ e. e.1) self.now) }
    {
        values_of(alloc, self.entries.as_slice())
    }

    /// The keys, in their order.
    ///
    /// # Errors
    /// `NoMemory` where an allocation is refused.
    pub(crate) fn keys(&self, alloc: Global) -> Result<List<Units>, NoMemory>
        ensures { IfOk result (λ keys. keys ≡ map (λ e. e.0) self.now) }
    {
        keys_of(alloc, self.entries.as_slice())
    }

    /// The first n keys with their values, in their order; all where there are fewer.
    ///
    /// # Errors
    /// `NoMemory` where an allocation is refused.
    pub(crate) fn first(&self, alloc: Global, n: usize) -> Result<List<Property>, NoMemory>
        ensures { IfOk result (λ entries. entries ≡ take n (map named_entry self.now)) }
    {
        first_entries(alloc, self.entries.as_slice(), n)
    }

    /// The keys with their values, in their order.
    ///
    /// # Errors
    /// `NoMemory` where an allocation is refused.
    pub(crate) fn entries(&self, alloc: Global) -> Result<List<Property>, NoMemory>
        ensures { IfOk result (λ entries. entries ≡ map named_entry self.now) }
    {
        first_entries(alloc, self.entries.as_slice(), self.len())
    }

    /// The table of these keys and values.
    ///
    /// # Errors
    /// `NoMemory` where an allocation is refused.
    pub(crate) fn table(&self, alloc: Global) -> Result<UnitsMap<Value>, NoMemory>
        ensures { IfOk result (λ table. table ≡ self.now) }
    {
        table_of(alloc, self.entries.as_slice())
    }
}

fn find(entries: &[Named], key: &[u16]) -> Option<Value>
    ensures { result ≡ lookup (pointwise nat_eq key.now) entries.now }
{
    for named in entries {
        if key == named.key() {
            return Some(named.value());
        }
    }
    None
}

fn set_entry(
    alloc: Global,
    names: &mut Names,
    entries: &mut Vec<Named>,
    key: &[u16],
    value: Value,
) -> Result<(), NoMemory>
    ensures ok { OnOk result (entries.new.items ≡ insert_entry (pointwise nat_eq) entries.old.items key.now value) }
    ensures err { OnErr result (entries.new.items ≡ entries.old.items) }
{
    if write_entry(entries, key, value) {
        return Ok(());
    }
    push_exact(entries, Named::new(names.share(alloc, key)?, value))
}

// Writes the value at a key that is there. It answers whether it is.
fn write_entry(entries: &mut Vec<Named>, key: &[u16], value: Value) -> bool
    ensures there { OnTrue result (entries.new.items ≡ insert_entry (pointwise nat_eq) entries.old.items key.now value) }
    ensures kept { OnFalse result (entries.new.items ≡ entries.old.items) }
    ensures new { OnFalse result (insert_entry (pointwise nat_eq) entries.old.items key.now value ≡ entries.old.items ++ (key.now, value) ∷ []) }
{
    for at in 0..entries.len() {
        if key == entries[at].key() {
            entries[at].write(value);
            return true;
        }
    }
    false
}

// Adds a property at the end, in a list that grows by its one place: an object is to keep no place
// that it doesn't use.
fn push_exact(entries: &mut Vec<Named>, named: Named) -> Result<(), NoMemory>
    ensures ok { OnOk result (entries.new.items ≡ entries.old.items ++ named ∷ []) }
    ensures err { OnErr result (entries.new.items ≡ entries.old.items) }
{
    entries.reserve_exact(1)?;
    entries.push_reserved(named);
    Ok(())
}

fn copy_of(alloc: Global, entries: &[Named]) -> Result<Vec<Named>, NoMemory>
    ensures { IfOk result (λ copy. copy.items ≡ entries.now) }
{
    let mut copy = Vec::new(alloc);
    for named in entries {
        push_exact(&mut copy, Named::new(named.key.share()?, named.value()))?;
    }
    Ok(copy)
}

fn values_of(alloc: Global, entries: &[Named]) -> Result<List<Value>, NoMemory>
    ensures { IfOk result (λ values. values ≡ map (λ e. e.1) entries.now) }
{
    let mut values = List::new(alloc);
    for named in entries {
        values.push(named.value())?;
    }
    Ok(values)
}

fn keys_of(alloc: Global, entries: &[Named]) -> Result<List<Units>, NoMemory>
    ensures { IfOk result (λ keys. keys ≡ map (λ e. e.0) entries.now) }
{
    let mut keys = List::new(alloc);
    for named in entries {
        keys.push(Units::from_vec(Vec::from_slice(alloc, named.key())?))?;
    }
    Ok(keys)
}

fn first_entries(alloc: Global, entries: &[Named], n: usize) -> Result<List<Property>, NoMemory>
    ensures { IfOk result (λ first. first ≡ take n (map named_entry entries.now)) }
{
    let mut first = List::new(alloc);
    for named in entries {
        if first.len() == n {
            return Ok(first);
        }
        let key = Units::from_vec(Vec::from_slice(alloc, named.key())?);
        first.push(Property {
            key,
            value: named.value(),
        })?;
    }
    Ok(first)
}

fn table_of(alloc: Global, entries: &[Named]) -> Result<UnitsMap<Value>, NoMemory>
    requires { AreDistinct entries.now }
    ensures { IfOk result (λ table. table ≡ entries.now) }
{
    let mut table = UnitsMap::new(alloc);
    for named in entries {
        table.set(alloc, named.key(), named.value())?;
    }
    Ok(table)
}
