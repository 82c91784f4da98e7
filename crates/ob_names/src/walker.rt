ghost use Rattle.std.specs.Prelude.{◌≡◌, ◌-◌, length, drop, map, OnOk};
ghost use Rattle.ob_tree.specs.Scopes.{named, outside};
ghost use Rattle.ob_tree.specs.Walks.{binding};
ghost use Rattle.ob_names.specs.Found.{at_start, ran, bound_to, closed_to, deepened, left};

use crate::chain::Chain;
use crate::meaning::{Meaning, Spot};
use ob_base::{NoMemory, Text};
use ob_tree::SpecForm;
use std::alloc::Global;
use std::marker::Model;

/// A binding: its name, and whether it is constant.
#[derive(Clone, Copy)]
pub struct Bound<'a> {
    pub name: &'a str,
    pub constant: bool,
}

/// A name where it stands in the text.
#[derive(Clone, Copy)]
pub struct Mention<'a> {
    pub form: SpecForm,
    pub name: &'a str,
    pub means: Meaning,
}

/// What a walk through a tree has found so far: bindings by their numbers, mentions in the order of
/// the text, what is in scope, and how many functions stand around the place.
#[derive(Drop)]
pub struct Walker<'a> {
    bound: Vec<Bound<'a>>,
    mentions: Vec<Mention<'a>>,
    chain: Chain<'a>,
    depth: usize,
}

impl<'a> Model for Walker<'a> {
    ghost use Rattle.std.specs.Prelude.{map};
    ghost use Rattle.ob_names.specs.Found.{Found};

    ghost Value = { Found };

    ghost use Rattle.ob_names.specs.Kept.{bound_of, mention_of};

    ghost view = { λ w. record { bound = map bound_of w.bound.items; mentions = map mention_of w.mentions.items; scope = w.chain; depth = w.depth } };
}

impl<'a> Walker<'a> {
    ghost use Rattle.ob_names.specs.Kept.{bound_of, mention_of};

    /// The walk before its first part.
    pub fn new(alloc: Global) -> Walker<'a>
        ensures { result ≡ at_start }
    {
        Walker {
            bound: Vec::new(alloc),
            mentions: Vec::new(alloc),
            chain: Chain::new(alloc),
            depth: 0,
        }
    }

    /// The bindings, by their numbers.
    pub fn bound(&self) -> &[Bound<'a>]
        ensures { map bound_of result.now ≡ self.now.bound }
    {
        self.bound.as_slice()
    }

    /// The mentions, in the order of the text.
    pub fn mentions(&self) -> &[Mention<'a>]
        ensures { map mention_of result.now ≡ self.now.mentions }
    {
        self.mentions.as_slice()
    }

    /// A name as it is.
    #[tactic(auto, unfolding(crate::specs::Found::ran, ob_tree::specs::Scopes::named))]
    pub fn refer(&mut self, name: &'a Text) -> Result<(), NoMemory>
        ensures { OnOk result (self.new ≡ ran (named name.now) self.old) }
    {
        let name = name.as_str();
        let means = self.chain.find(name, self.depth);
        self.mentions.push(Mention {
            form: SpecForm::Plain,
            name,
            means,
        })?;
        Ok(())
    }

    /// A name after `viewof` or `mutable`.
    #[tactic(auto, unfolding(crate::specs::Found::ran, ob_tree::specs::Scopes::outside))]
    pub fn refer_outside(&mut self, form: SpecForm, name: &'a Text) -> Result<(), NoMemory>
        ensures { OnOk result (self.new ≡ ran (outside form name.now) self.old) }
    {
        self.mentions.push(Mention {
            form,
            name: name.as_str(),
            means: Meaning::Free,
        })?;
        Ok(())
    }

    /// A binding that comes into scope.
    #[tactic(auto, unfolding(crate::specs::Found::bound_to))]
    pub fn bind(&mut self, name: &'a Text, constant: bool) -> Result<(), NoMemory>
        ensures { OnOk result (self.new ≡ bound_to (binding constant name.now) self.old) }
    {
        let name = name.as_str();
        let spot = Spot {
            number: self.bound.len(),
            depth: self.depth,
        };
        self.chain.enter(name, spot)?;
        self.bound.push(Bound { name, constant })?;
        Ok(())
    }

    /// How many bindings are in scope.
    pub fn open_count(&self) -> usize
        ensures { result ≡ length self.now.scope }
    {
        self.chain.len()
    }

    /// Takes the innermost bindings out of scope, until so many are left.
    #[tactic(auto, unfolding(crate::specs::Found::closed_to))]
    pub fn close_to(&mut self, count: usize)
        ensures { self.new ≡ closed_to count self.old }
    {
        close_chain(&mut self.chain, count);
    }

    /// Enters a function.
    #[tactic(auto, unfolding(crate::specs::Found::deepened))]
    pub fn enter_function(&mut self) -> Result<(), NoMemory>
        ensures { OnOk result (self.new ≡ deepened self.old) }
    {
        match self.depth.checked_add(1) {
            Some(depth) => {
                self.depth = depth;
                Ok(())
            }
            None => Err(NoMemory),
        }
    }

    /// Leaves a function.
    #[tactic(auto, unfolding(crate::specs::Found::left))]
    pub fn leave_function(&mut self)
        ensures { self.new ≡ left self.old }
    {
        self.depth = self.depth.saturating_sub(1);
    }
}

fn close_chain(chain: &mut Chain<'_>, count: usize)
    ensures { chain.new ≡ drop (length chain.old - count) chain.old }
{
    while chain.len() > count {
        chain.leave();
    }
}
