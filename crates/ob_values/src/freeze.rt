//! Freezing of values.
ghost use Rattle.std.specs.Prelude.{◌≡◌, ◌↔◌, ◌∷◌, [], IfOk, OnOk, OnErr};
ghost use Rattle.std.specs.List.{Contains};
ghost use Rattle.ob_values.specs.Reach.{Reaches};
ghost use Rattle.ob_values.specs.Fixed.{KeepsFixed};
ghost use Rattle.ob_values.specs.Sound.{KeepsSound};
ghost use Rattle.ob_values.specs.Freeze.{with_refs, refs_of, frozen_next, Freezes, all_marked};
ghost use Rattle.ob_items.specs.declared.value.Ref.{Ref as TheRef};

use crate::regions::Regions;
use crate::seen::{Seen, add_inside, add_value};
use ob_base::NoMemory;
use ob_items::{Ref, Value};
use std::alloc::Global;

impl Regions {
    /// Marks all that a value reaches: arrays with their elements, objects with their properties,
    /// functions with the boxes of the captured bindings that their texts refer to and what these
    /// hold, invalidation objects that their texts refer to, generator objects without their locals.
    ///
    /// # Errors
    /// `NoMemory` where an allocation is refused; all is then as before.
    pub fn freeze(&mut self, value: Value) -> Result<(), NoMemory>
        ensures ok { OnOk result (Freezes self.old self.new value) }
        ensures err { OnErr result (self.new ≡ self.old) }
        ensures kept { KeepsSound self.old self.new [] }
        ensures fixed { KeepsFixed self.old self.new }
    {
        self.mark_reached(value)
    }

    fn mark_reached(&mut self, value: Value) -> Result<(), NoMemory>
        ensures ok { OnOk result (Freezes self.old self.new value) }
        ensures err { OnErr result (self.new ≡ self.old) }
    {
        let seen = reached(self.alloc(), self, value)?;
        mark_all(self, &seen);
        Ok(())
    }
}

fn add_item(alloc: Global, seen: &mut Seen, regions: &Regions, r: Ref) -> Result<(), NoMemory>
    ensures { OnOk result (seen.new ≡ with_refs seen.old (frozen_next regions.now r)) }
{
    match regions.find(r) {
        Some(body) => add_inside(alloc, seen, body),
        None => Ok(()),
    }
}

// All that a value reaches, each reference once.
fn reached(alloc: Global, regions: &Regions, value: Value) -> Result<Seen, NoMemory>
    ensures { IfOk result (λ seen. (b : TheRef) → Contains seen b ↔ Reaches (frozen_next regions.now) (refs_of (value ∷ [])) b) }
{
    let mut seen = Seen::new(alloc);
    add_value(&mut seen, value)?;
    let mut at = 0;
    while at < seen.len() {
        let r = seen.at(at);
        add_item(alloc, &mut seen, regions, r)?;
        at += 1;
    }
    Ok(seen)
}

fn mark_all(regions: &mut Regions, seen: &Seen)
    ensures { regions.new ≡ all_marked regions.old seen.now }
{
    for at in 0..seen.len() {
        regions.mark(seen.at(at));
    }
}
