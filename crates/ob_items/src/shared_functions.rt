ghost use Rattle.std.specs.Prelude.{◌≡◌, IfOk};

use crate::{CodeKey, SharedFunction};
use indexmap::IndexMap;
use ob_base::NoMemory;
use std::alloc::Global;
use std::marker::Model;
use std::rc::Rc;

/// What the function values of a region share, by their code: each kept once. It saves memory, and
/// contracts do not see it.
#[derive(Drop)]
pub struct SharedFunctions {
    table: IndexMap<CodeKey, Rc<SharedFunction>>,
}

impl Model for SharedFunctions {
    ghost Value = { Unit };

    ghost view = { λ _. tt };
}

impl SharedFunctions {
    /// None yet.
    pub fn new(alloc: Global) -> SharedFunctions {
        SharedFunctions {
            table: IndexMap::new(alloc),
        }
    }

    /// What the function values with these parts share: the one that is kept where it has the same
    /// parts, else a new one, which is kept from then on.
    ///
    /// # Errors
    /// `NoMemory` where an allocation is refused.
    pub fn share(
        &mut self,
        alloc: Global,
        function: SharedFunction,
    ) -> Result<Rc<SharedFunction>, NoMemory>
        ensures { IfOk result (λ shared. shared.value ≡ function) }
    {
        match self.table.get(&function.code) {
            Some(kept) if **kept == function => Ok(kept.clone()?),
            _ => self.keep(alloc, function),
        }
    }

    // Makes one, in place of what was kept for its code.
    fn keep(
        &mut self,
        alloc: Global,
        function: SharedFunction,
    ) -> Result<Rc<SharedFunction>, NoMemory>
        ensures { IfOk result (λ shared. shared.value ≡ function) }
    {
        let shared = Rc::new(alloc, function)?;
        let kept = shared.clone()?;
        self.table.insert(function.code, kept)?;
        Ok(shared)
    }
}
