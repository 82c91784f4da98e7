ghost use Rattle.std.specs.Prelude.{◌≡◌, [], map, IfOk, OnOk};
ghost use Rattle.ob_tree.specs.Names.{with_one};
ghost use Rattle.ob_cells.specs.Imports.{same_pair, pair};
ghost use Rattle.ob_cells.specs.PairKeys.{pair_of};

use crate::Pair;
use indexmap::IndexSet;
use ob_base::{List, NoMemory, Text};
use ob_names::{NameForm, NameRef};
use std::alloc::Global;
use std::marker::Model;

/// Pairs of names of one form, each once, in the order in which they came.
#[derive(Drop)]
pub struct PairSet<'a> {
    set: IndexSet<(NameForm, &'a str, &'a str)>,
}

impl<'a> Model for PairSet<'a> {
    ghost use Rattle.std.specs.Prelude.{List, map};
    ghost use Rattle.ob_cells.specs.declared.def.Pair.{Pair as ThePair};
    ghost use Rattle.ob_cells.specs.PairKeys.{pair_of};

    ghost Value = { List ThePair };

    ghost view = { λ s. map pair_of s.set.keys };
}

impl<'a> PairSet<'a> {
    pub fn new(alloc: Global) -> PairSet<'a>
        ensures { result ≡ [] }
    {
        PairSet {
            set: IndexSet::new(alloc),
        }
    }

    /// Adds a pair at the end, unless it is there.
    pub fn add(&mut self, form: NameForm, source: &'a str, alias: &'a str) -> Result<(), NoMemory>
        ensures { OnOk result (self.new ≡ with_one same_pair self.old (pair form source.now alias.now)) }
    {
        insert_pair(&mut self.set, form, source, alias)
    }

    /// The pairs, copied.
    pub fn copies(&self, alloc: Global) -> Result<List<Pair>, NoMemory>
        ensures { IfOk result (λ pairs. pairs ≡ self.now) }
    {
        copies_of(alloc, self.set.as_slice())
    }
}

fn insert_pair<'a>(
    set: &mut IndexSet<(NameForm, &'a str, &'a str)>,
    form: NameForm,
    source: &'a str,
    alias: &'a str,
) -> Result<(), NoMemory>
    ensures { OnOk result (map pair_of set.new.keys ≡ with_one same_pair (map pair_of set.old.keys) (pair form source.now alias.now)) }
{
    set.insert((form, source, alias))?;
    Ok(())
}

fn named(alloc: Global, form: NameForm, name: &str) -> Result<NameRef, NoMemory>
    ensures { IfOk result (λ made. made ≡ record { form = form; name = name.now }) }
{
    let name = Text::from_string(String::from_str(alloc, name)?);
    Ok(NameRef { form, name })
}

fn copies_of(alloc: Global, keys: &[(NameForm, &str, &str)]) -> Result<List<Pair>, NoMemory>
    ensures { IfOk result (λ pairs. pairs ≡ map pair_of keys.now) }
{
    let mut pairs = List::new(alloc);
    for (form, source, alias) in keys {
        let source = named(alloc, *form, source)?;
        let alias = named(alloc, *form, alias)?;
        pairs.push(Pair { source, alias })?;
    }
    Ok(pairs)
}
