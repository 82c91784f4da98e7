ghost use Rattle.std.specs.Prelude.{◌≡◌, ◌∷◌, [], drop, length, OnOk};
ghost use Rattle.ob_tree.specs.Scopes.{meant};
ghost use Rattle.ob_names.specs.Meanings.{meaning_of};

use crate::meaning::{Meaning, Spot};
use ob_base::NoMemory;
use std::alloc::Global;
use std::collections::HashMap;
use std::marker::Model;

/// A binding in scope, and the next one of its name, which it hides.
#[derive(Clone, Copy)]
pub struct Open<'a> {
    name: &'a str,
    spot: Spot,
    hidden: Option<Spot>,
}

/// The bindings in scope. Contracts see their list, the innermost first. A look-up goes by a table
/// of the innermost of each name.
#[derive(Drop)]
pub struct Chain<'a> {
    bindings: Vec<Open<'a>>,
    innermost: HashMap<&'a str, Spot>,
}

impl<'a> Model for Chain<'a> {
    ghost use Rattle.std.specs.Prelude.{List};
    ghost use Rattle.ob_tree.specs.Scopes.{Known};

    ghost Value = { List Known };

    ghost use Rattle.ob_names.specs.Chain.{scope_of, IsIndexed};

    ghost view = { λ c. scope_of c.bindings.items };

    ghost invariant = { λ c. IsIndexed c.bindings.items c.innermost };
}

impl<'a> Chain<'a> {
    pub fn new(alloc: Global) -> Chain<'a>
        ensures { result ≡ [] }
    {
        Chain {
            bindings: Vec::new(alloc),
            innermost: HashMap::new(alloc),
        }
    }

    pub fn len(&self) -> usize
        ensures { result ≡ length self.now }
    {
        self.bindings.len()
    }

    /// What a name means from a place around whose scope so many functions stand.
    pub fn find(&self, name: &str, depth: usize) -> Meaning
        ensures { meaning_of result ≡ meant name.now depth self.now }
    {
        match self.innermost.get(name) {
            None => Meaning::Free,
            Some(spot) => {
                if spot.depth == depth {
                    Meaning::Local(spot.number)
                } else {
                    Meaning::Captured(spot.number)
                }
            }
        }
    }

    /// Brings a binding into scope, as the innermost.
    pub fn enter(&mut self, name: &'a str, spot: Spot) -> Result<(), NoMemory>
        ensures { OnOk result (self.new ≡ record { name = name.now; number = spot.number; depth = spot.depth } ∷ self.old) }
    {
        let hidden = self.innermost.get(name).copied();
        let count = self.bindings.len();
        self.bindings.push(Open { name, spot, hidden })?;
        match self.innermost.insert(name, spot) {
            Ok(_) => Ok(()),
            Err(_) => {
                self.bindings.truncate(count);
                Err(NoMemory)
            }
        }
    }

    /// Takes the innermost binding out of scope.
    pub fn leave(&mut self)
        ensures { self.new ≡ drop 1 self.old }
    {
        if let Some(last) = self.bindings.pop() {
            match last.hidden {
                None => {
                    self.innermost.remove(last.name);
                }
                Some(spot) => match self.innermost.insert(last.name, spot) {
                    Ok(_) => {}
                    Err(_) => unreachable!(),
                },
            }
        }
    }
}
