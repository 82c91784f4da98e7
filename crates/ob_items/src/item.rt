ghost use Rattle.std.specs.Prelude.{◌≡◌, IfOk};
ghost use Rattle.ob_items.specs.Bodies.{after_take};

use crate::{Binding, CodeKey, ErrorKind, FunctionValue, Properties, Ref, Taken, Value};
use ob_base::{List, NoMemory, Units};
use std::alloc::Global;
use std::marker::Model;
use std::mem;

/// What an item is.
#[derive(Drop)]
pub enum Body {
    Text(Units),
    Array(List<Value>),
    Object(Properties),
    /// The box of a captured binding; none before its declaration has run.
    Box(Binding),
    Closure(FunctionValue),
    Generator(Suspended),
    /// An error, and the text of its message.
    Error(ErrorKind, Ref),
    /// An invalidation object, and how many hooks were counted.
    Invalidation(u32),
    /// The values of a run's inputs, which no program is given.
    Inputs(List<Value>),
}

/// What contracts see of a function value; it is kept as a `FunctionValue`.
#[derive(Drop)]
pub struct Closure {
    pub code: CodeKey,
    /// The boxes of the captured bindings that its text refers to.
    pub boxes: List<Ref>,
    /// The array of the inputs.
    pub inputs: Ref,
    /// The invalidation object, where its text refers to that.
    pub invalidation: Option<Ref>,
}

/// What a generator object keeps, in a place of its own, so that other items stay small.
#[derive(Drop)]
pub struct Suspended {
    kept: Box<Taken>,
}

impl Model for Suspended {
    ghost use Rattle.ob_items.specs.declared.frame.Taken.{Taken as TheTaken};

    ghost Value = { TheTaken };

    ghost view = { λ s. s.kept.value };
}

impl Suspended {
    /// Keeps this.
    ///
    /// # Errors
    /// `NoMemory` where an allocation is refused.
    pub fn new(alloc: Global, kept: Taken) -> Result<Suspended, NoMemory>
        ensures { IfOk result (λ s. s ≡ kept) }
    {
        match Box::new(alloc, kept) {
            Ok(kept) => Ok(Suspended { kept }),
            Err(_) => Err(NoMemory),
        }
    }

    /// What is kept.
    pub fn get(&self) -> &Taken
        ensures { result.now ≡ self.now }
    {
        &self.kept
    }

    /// Keeps this in place of what was kept.
    pub fn put(&mut self, kept: Taken)
        ensures { self.new ≡ kept }
    {
        *self.kept = kept;
    }

    /// What was kept. If that was a frame, the generator then runs.
    pub fn take(&mut self) -> Taken
        ensures taken { result ≡ self.old }
        ensures left { self.new ≡ after_take self.old }
    {
        match mem::replace(&mut *self.kept, Taken::Runs) {
            Taken::Held(frame) => Taken::Held(frame),
            Taken::Runs => Taken::Runs,
            Taken::Ended => {
                *self.kept = Taken::Ended;
                Taken::Ended
            }
        }
    }
}
