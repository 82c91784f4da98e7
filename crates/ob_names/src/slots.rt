ghost use Rattle.std.specs.Prelude.{◌≡◌, IfOk};

use ob_base::{List, NoMemory};
use std::alloc::Global;

/// What the names in a function mean. Bindings are numbered from 0 as their scopes are entered in
/// the order of the text, so those of a function and of all that stands in it are in a row. Uses
/// stand in the order of the text: where a name is read, written or both, one use.
#[derive(Debug, Drop)]
pub struct Slots {
    pub bindings: List<Binding>,
    pub uses: List<Use>,
}

/// A binding: whether a function nested in the one that declares it refers to it, and whether it is
/// constant.
#[derive(Clone, Copy, Debug, PartialEq, Eq)]
pub struct Binding {
    pub captured: bool,
    pub constant: bool,
}

/// What a use of a name means: the binding of that number, declared in the function in which the
/// use stands; the binding of that number, declared in a function around that; or the free name at
/// that place, from 0, among the free names.
#[derive(Clone, Copy, Debug, PartialEq, Eq)]
pub enum Use {
    Local(u32),
    Captured(u32),
    Input(u32),
}

impl Slots {
    /// The same slots.
    ///
    /// # Errors
    /// `NoMemory` where an allocation is refused.
    pub fn copy(&self, alloc: Global) -> Result<Slots, NoMemory>
        ensures { IfOk result (λ copy. copy ≡ self.now) }
    {
        let bindings = List::from_slice(alloc, self.bindings.as_slice())?;
        let uses = List::from_slice(alloc, self.uses.as_slice())?;
        Ok(Slots { bindings, uses })
    }
}
