ghost use Rattle.std.specs.Prelude.{◌≡◌, [], map, IfOk, OnOk};
ghost use Rattle.std.specs.List.{position_or_len};
ghost use Rattle.ob_tree.specs.Names.{with_one};
ghost use Rattle.ob_names.specs.Sets.{same_ref, ref_of};

use crate::form::{NameForm, NameRef};
use indexmap::IndexSet;
use ob_base::{List, NoMemory, Text};
use std::alloc::Global;
use std::marker::Model;

/// Names with their forms, each once, in the order in which they came.
#[derive(Drop)]
pub struct NameSet<'a> {
    set: IndexSet<(NameForm, &'a str)>,
}

impl<'a> Model for NameSet<'a> {
    ghost use Rattle.std.specs.Prelude.{List, map};
    ghost use Rattle.ob_names.specs.declared.form.NameRef.{NameRef as TheNameRef};

    ghost Value = { List TheNameRef };

    ghost use Rattle.ob_names.specs.Sets.{ref_of};

    ghost view = { λ s. map ref_of s.set.keys };
}

impl<'a> NameSet<'a> {
    pub fn new(alloc: Global) -> NameSet<'a>
        ensures { result ≡ [] }
    {
        NameSet {
            set: IndexSet::new(alloc),
        }
    }

    /// Adds a name at the end, unless it is there.
    pub fn add(&mut self, form: NameForm, name: &'a str) -> Result<(), NoMemory>
        ensures { OnOk result (self.new ≡ with_one same_ref self.old (record { form = form; name = name.now })) }
    {
        insert_name(&mut self.set, form, name)
    }

    /// The place of a name, from 0; how many names there are where it isn't among them.
    pub fn place(&self, form: NameForm, name: &'a str) -> usize
        ensures { result ≡ position_or_len (same_ref (record { form = form; name = name.now })) self.now }
    {
        place_of(&self.set, form, name)
    }

    /// The names, copied.
    pub fn copies(&self, alloc: Global) -> Result<List<NameRef>, NoMemory>
        ensures { IfOk result (λ names. names ≡ self.now) }
    {
        copies_of(alloc, self.set.as_slice())
    }
}

fn insert_name<'a>(
    set: &mut IndexSet<(NameForm, &'a str)>,
    form: NameForm,
    name: &'a str,
) -> Result<(), NoMemory>
    ensures { OnOk result (map ref_of set.new.keys ≡ with_one same_ref (map ref_of set.old.keys) (record { form = form; name = name.now })) }
{
    set.insert((form, name))?;
    Ok(())
}

fn place_of<'a>(set: &IndexSet<(NameForm, &'a str)>, form: NameForm, name: &'a str) -> usize
    ensures { result ≡ position_or_len (same_ref (record { form = form; name = name.now })) (map ref_of set.now.keys) }
{
    match set.get_index_of(&(form, name)) {
        Some(place) => place,
        None => set.len(),
    }
}

fn copies_of(alloc: Global, keys: &[(NameForm, &str)]) -> Result<List<NameRef>, NoMemory>
    ensures { IfOk result (λ names. names ≡ map ref_of keys.now) }
{
    let mut names = List::new(alloc);
    for (form, name) in keys {
        let name = Text::from_string(String::from_str(alloc, name)?);
        names.push(NameRef { form: *form, name })?;
    }
    Ok(names)
}
