ghost use Rattle.std.specs.Prelude.{◌≡◌, ◌<◌, ◌++◌, ◌∷◌, [], IfSome, OnOk, map, length, false, string_bytes};
ghost use Rattle.ob_session.specs.Known.{has_text, place_in};

use indexmap::IndexSet;
use ob_base::NoMemory;
use std::alloc::Global;
use std::marker::Model;

/// The ids and the names of the cells so far, each with its cell's place, from 0, found in constant
/// expected time.
#[derive(Drop)]
pub struct Known<'a> {
    ids: IndexSet<&'a str>,
    names: IndexSet<String>,
}

impl<'a> Model for Known<'a> {
    ghost use Rattle.std.specs.Prelude.{map, string_bytes};
    ghost use Rattle.ob_session.specs.Known.{CellNames};

    ghost Value = { CellNames };

    ghost view = { λ k. record { ids = map (λ id. id.now) k.ids.keys; names = map string_bytes k.names.keys } };
}

impl<'a> Known<'a> {
    /// Those of no cell.
    pub fn new(alloc: Global) -> Known<'a>
        ensures { result ≡ record { ids = []; names = [] } }
    {
        Known {
            ids: IndexSet::new(alloc),
            names: IndexSet::new(alloc),
        }
    }

    /// Whether a cell has this id.
    pub fn has_id(&self, id: &'a str) -> bool
        ensures { result ≡ has_text self.now.ids id.now }
    {
        is_id(&self.ids, id)
    }

    /// Whether a cell has this name.
    pub fn has_name(&self, name: &str) -> bool
        ensures { result ≡ has_text self.now.names name.now }
    {
        is_name(&self.names, name)
    }

    /// The place of the cell of a name.
    pub fn place_of_name(&self, name: &str) -> Option<usize>
        ensures value { result ≡ place_in self.now.names name.now }
        ensures within { IfSome result (λ place. place < length self.now.names) }
    {
        place_of(&self.names, name)
    }

    /// Adds the id and the name of a cell at the end.
    ///
    /// # Errors
    /// `NoMemory` where an allocation is refused; the id may be there then.
    pub fn add(&mut self, alloc: Global, id: &'a str, name: &str) -> Result<(), NoMemory>
        requires id { has_text self.old.ids id.now ≡ false }
        requires name { has_text self.old.names name.now ≡ false }
        ensures { OnOk result (self.new ≡ record { ids = self.old.ids ++ id.now ∷ []; names = self.old.names ++ name.now ∷ [] }) }
    {
        add_id(&mut self.ids, id)?;
        add_name(alloc, &mut self.names, name)
    }
}

fn is_id<'a>(ids: &IndexSet<&'a str>, id: &'a str) -> bool
    ensures { result ≡ has_text (map (λ k. k.now) ids.now.keys) id.now }
{
    ids.contains(&id)
}

fn is_name(names: &IndexSet<String>, name: &str) -> bool
    ensures { result ≡ has_text (map string_bytes names.now.keys) name.now }
{
    names.contains(name)
}

fn place_of(names: &IndexSet<String>, name: &str) -> Option<usize>
    ensures value { result ≡ place_in (map string_bytes names.now.keys) name.now }
    ensures within { IfSome result (λ place. place < length (map string_bytes names.now.keys)) }
{
    names.get_index_of(name)
}

fn add_id<'a>(ids: &mut IndexSet<&'a str>, id: &'a str) -> Result<(), NoMemory>
    requires { has_text (map (λ k. k.now) ids.old.keys) id.now ≡ false }
    ensures { OnOk result (map (λ k. k.now) ids.new.keys ≡ map (λ k. k.now) ids.old.keys ++ id.now ∷ []) }
{
    ids.insert(id)?;
    Ok(())
}

fn add_name(alloc: Global, names: &mut IndexSet<String>, name: &str) -> Result<(), NoMemory>
    requires { has_text (map string_bytes names.old.keys) name.now ≡ false }
    ensures { OnOk result (map string_bytes names.new.keys ≡ map string_bytes names.old.keys ++ name.now ∷ []) }
{
    names.insert(String::from_str(alloc, name)?)?;
    Ok(())
}
