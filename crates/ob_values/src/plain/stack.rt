ghost use Rattle.std.specs.Prelude.{◌≡◌, ◌∷◌, ◌<◌, ◌^◌, [], length, OnOk, OnErr, MatchOption};

use ob_base::NoMemory;
use ob_items::Ref;
use std::alloc::Global;
use std::marker::Model;

/// What a search has yet to do.
#[derive(Clone, Copy, Debug, PartialEq, Eq)]
pub(super) enum Task {
    /// Look into this item.
    Enter(Ref),
    /// Leave this item, once all that stands in it is done.
    Leave(Ref),
}

/// Tasks, the next one first.
#[derive(Drop)]
pub(super) struct Stack {
    tasks: Vec<Task>,
}

impl Model for Stack {
    ghost use Rattle.std.specs.Prelude.{List, reverse};
    ghost use Rattle.ob_values.specs.declared.plain.stack.Task.{Task as TheTask};

    ghost Value = { List TheTask };

    ghost view = { λ s. reverse s.tasks.items };
}

impl Stack {
    pub fn new(alloc: Global) -> Stack
        ensures { result ≡ [] }
    {
        Stack {
            tasks: Vec::new(alloc),
        }
    }

    pub fn push(&mut self, task: Task) -> Result<(), NoMemory>
        ensures ok { OnOk result (self.new ≡ task ∷ self.old) }
        ensures err { OnErr result (self.new ≡ self.old) }
    {
        self.tasks.push(task)?;
        Ok(())
    }

    pub fn pop(&mut self) -> Option<Task>
        ensures { MatchOption result ((self.old ≡ []) × (self.new ≡ [])) (λ next. self.old ≡ next ∷ self.new) }
    {
        self.tasks.pop()
    }

    pub fn len(&self) -> usize
        ensures { result ≡ length self.now }
    {
        self.tasks.len()
    }
}
