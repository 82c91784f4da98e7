//! The plain data of a value.
ghost use Rattle.std.specs.Prelude.{◌≡◌, ◌++◌, ◌⊎◌, ◌↔◌, IsTrue, OnOk};
ghost use Rattle.ob_values.specs.Freeze.{refs_of};
ghost use Rattle.ob_values.specs.PlainOf.{plain_result, is_endless, HasCycle};

use crate::regions::Regions;
use ob_base::{List, MAX_ARRAY_DEPTH, NoMemory, Plain};
use ob_items::{PlainError, Ref, Value};

mod build;
mod cycle;
mod stack;
mod walk;

use build::plain_value;
use cycle::has_cycle;
use walk::is_small;

impl Regions {
    /// The plain data of a value: what it unfolds to, through arrays and objects, with the properties of
    /// an object in the order of their keys.
    ///
    /// # Errors
    /// In this order: `NotPlain` where an array or object stands in itself, `HeapFull` where the tree has
    /// more than 50,000 elements, `NotPlain` where something in it is no plain data: a function, a
    /// generator object, an error, an invalidation object, a builtin or a holder, a text or key of more
    /// than 65,536 units, an integer outside the range, or more than 100 arrays and objects in one
    /// another. `NoMemory` where an allocation is refused.
    pub fn to_plain(&self, value: Value) -> Result<Plain, PlainError>
        ensures result { (result ≡ Err PlainError.NoMemory) ⊎ (result ≡ plain_result self.now value) }
        ensures cycle { (result ≡ Err PlainError.NoMemory) ⊎ (IsTrue (is_endless self.now value) ↔ HasCycle self.now value) }
    {
        if is_small(self.alloc(), self, value)? {
            return match plain_value(self.alloc(), self, value, MAX_ARRAY_DEPTH)? {
                Some(plain) => Ok(plain),
                None => Err(PlainError::NotPlain),
            };
        }
        if has_cycle(self.alloc(), self, value)? {
            Err(PlainError::NotPlain)
        } else {
            Err(PlainError::HeapFull)
        }
    }
}

// Adds the references among values to a list.
fn add_refs(list: &mut List<Ref>, values: &[Value]) -> Result<(), NoMemory>
    ensures { OnOk result (list.new ≡ list.old ++ refs_of values.now) }
{
    for value in values {
        if let Value::Ref(r) = value {
            list.push(*r)?;
        }
    }
    Ok(())
}
