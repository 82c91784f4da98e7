ghost use Rattle.std.specs.Prelude.{◌≡◌, ◌≤◌, [], IfOk, OnErr, IfSome, IsSome, Some, None, length};
ghost use Rattle.std.specs.Option.{option_copied};
ghost use Rattle.ob_code.specs.Codes.{chunk_at, Updates};
ghost use Rattle.ob_code.specs.Rules.{KeepsRules};

use crate::{Checked, Chunk};
use ob_base::{List, NoMemory};
use slab::Slab;
use std::alloc::Global;
use std::marker::Model;

/// How many texts the prelude has.
const PRELUDE_TEXTS: usize = 7;

/// Code by its number: from 0 to 6 that of the prelude, which stays, and then what was added.
#[derive(Drop)]
pub struct Codes {
    prelude: List<Checked>,
    added: Slab<Checked>,
}

impl Model for Codes {
    ghost use Rattle.std.specs.Coded.{codes};
    ghost use Rattle.std.specs.Prelude.{◌≡◌, length};
    ghost use Rattle.ob_code.specs.Codes.{Numbered};
    ghost use Rattle.ob_code.specs.contracts.chunk.Chunk as chunk_type;

    ghost Value = { Numbered };

    ghost coded = { Prim.hlevel (codes, chunk_type.the_row.coded) };

    ghost view = { λ c. record { prelude = c.prelude; added = c.added.slots } };

    ghost invariant = { λ c. length c.prelude ≡ 7 };
}

impl Codes {
    /// The code of the seven texts of the prelude, which get the numbers from 0 on.
    ///
    /// # Errors
    /// `NoMemory` where an allocation is refused.
    pub fn new(alloc: Global, prelude: List<Checked>) -> Result<Codes, NoMemory>
        requires { length prelude ≡ 7 }
        ensures prelude { IfOk result (λ codes. codes.prelude ≡ prelude) }
        ensures no_more { IfOk result (λ codes. codes.added ≡ []) }
    {
        Ok(Codes {
            prelude,
            added: Slab::new(alloc),
        })
    }

    /// Adds a chunk, and gives the number that it gets, which none had.
    ///
    /// # Errors
    /// `NoMemory` where an allocation is refused; all is then as before.
    pub fn add(&mut self, code: Checked) -> Result<usize, NoMemory>
        ensures fresh { IfOk result (λ number. chunk_at self.old number ≡ None) }
        ensures above { IfOk result (λ number. 7 ≤ number) }
        ensures added { IfOk result (λ number. Updates self.old self.new number (Some code)) }
        ensures err { OnErr result (self.new ≡ self.old) }
    {
        if self.added.vacant_key() > usize::MAX - PRELUDE_TEXTS {
            return Err(NoMemory);
        }
        match self.added.insert(code) {
            Ok(key) => Ok(key + PRELUDE_TEXTS),
            Err(_) => Err(NoMemory),
        }
    }

    /// Removes the chunk of a number that `add` gave. It takes no memory.
    pub fn remove(&mut self, code: usize)
        requires added { 7 ≤ code }
        requires there { IsSome (chunk_at self.old code) }
        ensures { Updates self.old self.new code None }
    {
        let _ = self.added.try_remove(code - PRELUDE_TEXTS);
    }

    /// The chunk of a number; none where no chunk has it. It takes no memory.
    pub fn get(&self, code: usize) -> Option<&Chunk>
        ensures value { option_copied result ≡ chunk_at self.now code }
        ensures keeps { IfSome result (λ chunk. KeepsRules chunk.now) }
    {
        if code < PRELUDE_TEXTS {
            return match self.prelude.get(code) {
                Some(checked) => Some(checked.chunk()),
                None => None,
            };
        }
        match self.added.get(code - PRELUDE_TEXTS) {
            Some(checked) => Some(checked.chunk()),
            None => None,
        }
    }
}
