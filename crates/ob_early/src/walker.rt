ghost use Rattle.std.specs.Prelude.{◌≡◌, ◌-◌, length, drop, OnOk};
ghost use Rattle.ob_grammar.specs.Early.{holds_name};
ghost use Rattle.ob_early.specs.Found.{at_start, required, declared, closed_to};

use crate::chain::Chain;
use ob_base::{NoMemory, Text};
use std::alloc::Global;
use std::marker::Model;

/// What a walk through a tree has found so far: whether no early error stands before a place, and
/// the names that are bound there.
#[derive(Drop)]
pub struct Walker<'a> {
    fine: bool,
    chain: Chain<'a>,
}

impl<'a> Model for Walker<'a> {
    ghost use Rattle.ob_early.specs.Found.{Found};

    ghost Value = { Found };

    ghost view = { λ w. record { fine = w.fine; names = w.chain } };
}

impl<'a> Walker<'a> {
    /// The walk before its first part.
    pub fn new(alloc: Global) -> Walker<'a>
        ensures { result ≡ at_start }
    {
        Walker {
            fine: true,
            chain: Chain::new(alloc),
        }
    }

    /// Whether the walk has met no early error.
    pub fn is_fine(&self) -> bool
        ensures { result ≡ self.now.fine }
    {
        self.fine
    }

    /// An early error stands here unless `holds`.
    #[tactic(auto, unfolding(crate::specs::Found::required))]
    pub fn require(&mut self, holds: bool)
        ensures { self.new ≡ required holds self.old }
    {
        self.fine = holds && self.fine;
    }

    /// Whether a name is bound here.
    pub fn holds(&self, name: &Text) -> bool
        ensures { result ≡ holds_name name.now self.now.names }
    {
        self.chain.holds(name.as_str())
    }

    /// A name that is declared in the scope that `count` bindings stand around.
    #[tactic(auto, unfolding(crate::specs::Found::declared))]
    pub fn declare(&mut self, count: usize, name: &'a Text) -> Result<(), NoMemory>
        ensures { OnOk result (self.new ≡ declared count name.now self.old) }
    {
        let name = name.as_str();
        let again = self.chain.holds_since(name, count);
        self.chain.enter(name)?;
        self.fine = !again && self.fine;
        Ok(())
    }

    /// How many bindings are in scope.
    pub fn open_count(&self) -> usize
        ensures { result ≡ length self.now.names }
    {
        self.chain.len()
    }

    /// Takes the innermost bindings out of scope, until so many are left.
    #[tactic(auto, unfolding(crate::specs::Found::closed_to))]
    pub fn close_to(&mut self, count: usize)
        ensures { self.new ≡ closed_to count self.old }
    {
        close_chain(&mut self.chain, count);
    }
}

fn close_chain(chain: &mut Chain<'_>, count: usize)
    ensures { chain.new ≡ drop (length chain.old - count) chain.old }
{
    while chain.len() > count {
        chain.leave();
    }
}
