//! The names of properties, which the objects of a region share.
ghost use Rattle.std.specs.Prelude.{◌≡◌, nat_eq, IfOk, IfSome};
ghost use Rattle.std.specs.Cmp.{partial_equiv_from_equiv};
ghost use Rattle.std.specs.Cmp.Lexicographic.{pointwise, bytes_decides, nat_list_eq_equiv};
ghost use Rattle.std.specs.Hash as fed;
ghost use Rattle.std.proofs.Common.{ap};

use indexmap::{Equivalent, IndexSet};
use ob_base::NoMemory;
use std::alloc::Global;
use std::hash::{Hash, Hasher};
use std::marker::Model;
use std::rc::RcSlice;

/// A text, in UTF-16 units, that several objects share.
#[derive(Drop)]
pub struct Name {
    units: RcSlice<u16>,
}

/// Names, each once.
#[derive(Drop)]
pub struct Names {
    table: IndexSet<Name>,
}

impl Model for Name {
    ghost use Rattle.std.specs.Prelude.{List, ℕ};
    ghost use Rattle.std.specs.Rc.{rc_slice_items};

    ghost Value = { List ℕ };

    ghost view = { λ n. rc_slice_items n.units };
}

impl Model for Names {
    ghost Value = { Unit };

    ghost view = { λ _. tt };
}

impl Name {
    // The name of these units, which nothing shares yet.
    fn new(alloc: Global, units: &[u16]) -> Result<Name, NoMemory>
        ensures { IfOk result (λ name. name ≡ units.now) }
    {
        Ok(Name {
            units: RcSlice::from_slice(alloc, units)?,
        })
    }

    /// The same name once more, of the same text.
    ///
    /// # Errors
    /// `NoMemory` where it is shared as often as can be counted.
    pub fn share(&self) -> Result<Name, NoMemory>
        ensures { IfOk result (λ name. name ≡ self.now) }
    {
        Ok(Name {
            units: self.units.clone()?,
        })
    }

    /// Its units.
    pub fn as_slice(&self) -> &[u16]
        ensures { result.now ≡ self.now }
    {
        self.units.as_slice()
    }
}

impl PartialEq for Name {
    ghost eq = { pointwise nat_eq };

    ghost laws = { partial_equiv_from_equiv nat_list_eq_equiv };

    fn eq(&self, other: &Name) -> bool {
        self.as_slice() == other.as_slice()
    }
}

impl Eq for Name {
    ghost laws = { nat_list_eq_equiv };
}

impl Hash for Name {
    ghost hash_input = { fed.slice fed.u16 };

    ghost respects_eq = { λ x y h. ap (fed.slice fed.u16) ((bytes_decides x y).0 h) };

    fn hash<H: Hasher>(&self, state: &mut H) {
        self.as_slice().hash(state);
    }
}

// So a name that is there is found by its units, and none is made to look for it.
impl Equivalent<Name> for &[u16] {
    ghost equivalent = { λ q k. pointwise nat_eq q.now k };

    ghost respects_hash = { λ q k h. ap (fed.slice fed.u16) ((bytes_decides q.now k).0 h) };

    ghost respects_eq = { λ q x y. nat_list_eq_equiv.congr q.now x y };

    fn equivalent(&self, key: &Name) -> bool {
        *self == key.as_slice()
    }
}

impl Names {
    /// No name.
    pub fn new(alloc: Global) -> Names {
        Names {
            table: IndexSet::new(alloc),
        }
    }

    /// The name of these units: the one that is there, or else a new one, which is there from then on.
    ///
    /// # Errors
    /// `NoMemory` where an allocation is refused.
    pub fn share(&mut self, alloc: Global, units: &[u16]) -> Result<Name, NoMemory>
        ensures { IfOk result (λ name. name ≡ units.now) }
    {
        if let Some(kept) = find(&self.table, units) {
            return kept.share();
        }
        let name = Name::new(alloc, units)?;
        self.table.insert(name.share()?)?;
        Ok(name)
    }
}

fn find<'a>(table: &'a IndexSet<Name>, units: &[u16]) -> Option<&'a Name>
    ensures { IfSome result (λ name. name.now ≡ units.now) }
{
    table.get(units)
}

#[cfg(test)]
mod tests {
    use super::Names;
    use std::rc::RcSlice;
    use std::test::Fail;

    #[test]
    fn equal_names_are_one_text(rt: HostRuntime) -> Result<(), Fail> {
        let alloc = rt.alloc();
        let mut names = Names::new(alloc);
        let first = names.share(alloc, [97u16, 98].as_slice())?;
        let other = names.share(alloc, [97u16].as_slice())?;
        let second = names.share(alloc, [97u16, 98].as_slice())?;
        assert!(rt; RcSlice::ptr_eq(&second.units, &first.units));
        assert!(rt; !RcSlice::ptr_eq(&other.units, &first.units));
        assert!(rt; other.as_slice() == [97u16].as_slice());
        Ok(())
    }
}
