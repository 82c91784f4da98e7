ghost use Rattle.std.specs.Prelude.{◌≡◌, ◌++◌, ◌∷◌, [], false, length, slice_get, unwrap_or, Some, IfOk, OnOk, OnErr, nat_eq};
ghost use Rattle.std.specs.Cmp.Lexicographic.{pointwise};
ghost use Rattle.std.specs.Option.{option_copied};
ghost use Rattle.indexmap.specs.IndexMap.{insert_entry};
ghost use Rattle.ob_items.specs.Items.{at_item, is_frozen_at, live, marked_at};

use crate::{Body, UnitsMap};
use ob_base::{NoMemory, Units};
use std::alloc::Global;
use std::marker::Model;

mod write;

/// The items of a region in the order of allocation: their frozen marks and their bodies, in two
/// columns that are as long, so that a mark takes one byte. Contracts see the list of the items.
#[derive(Drop)]
pub(crate) struct ItemColumns {
    marks: Vec<bool>,
    bodies: Vec<Body>,
}

// So an item takes 33 bytes, and what it holds of any length elsewhere.
const _: () = prove!(size_of::<Body>() == 32);

impl Model for ItemColumns {
    ghost use Rattle.std.specs.Prelude.{◌≡◌, List, length};
    ghost use Rattle.ob_items.specs.Columns.{items_of};
    ghost use Rattle.ob_items.specs.Item.{Item};

    ghost Value = { List Item };

    ghost view = { λ c. items_of c.marks.items c.bodies.items };

    ghost invariant = { λ c. length c.marks.items ≡ length c.bodies.items };
}

impl ItemColumns {
    // No item.
    #[tactic(auto, unfolding(crate::specs::Columns::items_of))]
    pub(crate) fn new(alloc: Global) -> ItemColumns
        ensures { result ≡ [] }
    {
        ItemColumns {
            marks: Vec::new(alloc),
            bodies: Vec::new(alloc),
        }
    }

    // How many items there are.
    #[tactic(auto, using(crate::proofs::ColumnLemmas::columns_length))]
    pub(crate) fn len(&self) -> usize
        ensures { result ≡ length self.now }
    {
        self.bodies.len()
    }

    // The body of the item at a place, from 0; none past the end.
    pub(crate) fn find(&self, at: usize) -> Option<&Body>
        ensures { option_copied result ≡ at_item Some self.now at }
    {
        body_at(&self.bodies, at)
    }

    // Whether the item at a place has the frozen mark.
    pub(crate) fn is_frozen(&self, at: usize) -> bool
        ensures { result ≡ is_frozen_at self.now at }
    {
        mark_at(&self.marks, at)
    }

    // Adds an item that has no mark.
    #[tactic(auto, using(crate::proofs::ColumnLemmas::columns_pushed))]
    pub(crate) fn push(&mut self, body: Body) -> Result<(), NoMemory>
        ensures ok { OnOk result (self.new ≡ self.old ++ live body ∷ []) }
        ensures err { OnErr result (self.new ≡ self.old) }
    {
        self.marks.reserve(1)?;
        match self.bodies.push(body) {
            Ok(()) => {
                self.marks.push_reserved(false);
                Ok(())
            }
            Err(_) => Err(NoMemory),
        }
    }

    // Adds a text, and notes its place, which it answers, as the literal of its units.
    #[tactic(auto, using(crate::proofs::ColumnLemmas::columns_pushed))]
    pub(crate) fn add_literal(
        &mut self,
        alloc: Global,
        literals: &mut UnitsMap<usize>,
        units: &[u16],
    ) -> Result<usize, NoMemory>
        ensures place { IfOk result (λ at. at ≡ length self.old) }
        ensures ok { OnOk result (self.new ≡ self.old ++ live (Body.Text units.now) ∷ []) }
        ensures noted { OnOk result (literals.new ≡ insert_entry (pointwise nat_eq) literals.old units.now (length self.old)) }
        ensures err { OnErr result (self.new ≡ self.old) }
        ensures unnoted { OnErr result (literals.new ≡ literals.old) }
    {
        let at = self.len();
        let text = Units::from_vec(Vec::from_slice(alloc, units)?);
        self.marks.reserve(1)?;
        self.bodies.reserve(1)?;
        literals.set(alloc, units, at)?;
        self.marks.push_reserved(false);
        self.bodies.push_reserved(Body::Text(text));
        Ok(at)
    }

    // Gives the item at a place the frozen mark, if it is there.
    #[tactic(auto, using(crate::proofs::ColumnLemmas::columns_marked, crate::proofs::ColumnLemmas::columns_unmarked))]
    pub(crate) fn mark(&mut self, at: usize)
        ensures { self.new ≡ marked_at self.old at }
    {
        if at < self.marks.len() {
            self.marks[at] = true;
        }
    }
}

fn body_at(bodies: &Vec<Body>, at: usize) -> Option<&Body>
    ensures { option_copied result ≡ slice_get bodies.now.items at }
{
    bodies.get(at)
}

fn mark_at(marks: &Vec<bool>, at: usize) -> bool
    ensures { result ≡ unwrap_or (slice_get marks.now.items at) false }
{
    match marks.get(at) {
        Some(mark) => *mark,
        None => false,
    }
}
