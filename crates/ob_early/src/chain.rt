ghost use Rattle.std.specs.Prelude.{◌≡◌, ◌∷◌, ◌-◌, [], drop, take, length, OnOk};
ghost use Rattle.ob_grammar.specs.Early.{holds_name};

use ob_base::NoMemory;
use std::alloc::Global;
use std::collections::HashMap;
use std::marker::Model;

/// A name in scope, and where the next binding of it stands, which it hides.
#[derive(Clone, Copy)]
pub struct Open<'a> {
    name: &'a str,
    hidden: Option<usize>,
}

/// The names in scope. Contracts see their list, the innermost first. A look-up goes by a table of
/// the place of the innermost binding of each name, so it doesn't walk the list.
#[derive(Drop)]
pub struct Chain<'a> {
    open: Vec<Open<'a>>,
    innermost: HashMap<&'a str, usize>,
}

impl<'a> Model for Chain<'a> {
    ghost use Rattle.ob_grammar.specs.Early.{Names};

    ghost Value = { Names };

    ghost use Rattle.ob_early.specs.Chain.{names_in, IsIndexed};

    ghost view = { λ c. names_in c.open.items };

    ghost invariant = { λ c. IsIndexed c.open.items c.innermost };
}

impl<'a> Chain<'a> {
    pub fn new(alloc: Global) -> Chain<'a>
        ensures { result ≡ [] }
    {
        Chain {
            open: Vec::new(alloc),
            innermost: HashMap::new(alloc),
        }
    }

    /// How many names are in scope, each counted for each of its bindings.
    pub fn len(&self) -> usize
        ensures { result ≡ length self.now }
    {
        self.open.len()
    }

    /// Whether a name is in scope.
    pub fn holds(&self, name: &str) -> bool
        ensures { result ≡ holds_name name.now self.now }
    {
        match self.innermost.get(name) {
            None => false,
            Some(_) => true,
        }
    }

    /// Whether a name came into scope after the outermost `count` bindings.
    pub fn holds_since(&self, name: &str, count: usize) -> bool
        ensures { result ≡ holds_name name.now (take (length self.now - count) self.now) }
    {
        match self.innermost.get(name) {
            None => false,
            Some(place) => count <= *place,
        }
    }

    /// Brings a name into scope, as the innermost.
    pub fn enter(&mut self, name: &'a str) -> Result<(), NoMemory>
        ensures { OnOk result (self.new ≡ name.now ∷ self.old) }
    {
        let hidden = self.innermost.get(name).copied();
        let place = self.open.len();
        self.open.push(Open { name, hidden })?;
        match self.innermost.insert(name, place) {
            Ok(_) => Ok(()),
            Err(_) => {
                self.open.truncate(place);
                Err(NoMemory)
            }
        }
    }

    /// Takes the innermost name out of scope.
    pub fn leave(&mut self)
        ensures { self.new ≡ drop 1 self.old }
    {
        if let Some(last) = self.open.pop() {
            match last.hidden {
                None => {
                    self.innermost.remove(last.name);
                }
                Some(place) => match self.innermost.insert(last.name, place) {
                    Ok(_) => {}
                    Err(_) => unreachable!(),
                },
            }
        }
    }
}
