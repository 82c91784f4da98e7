ghost use Rattle.std.specs.Prelude.{◌≡◌};
ghost use Rattle.ob_code.specs.Rules.{KeepsRules};

use crate::Chunk;
use std::marker::Model;

/// A chunk whose code keeps the rules of code. Contracts see it as that chunk.
#[derive(Drop)]
pub struct Checked {
    chunk: Chunk,
}

impl Model for Checked {
    ghost use Rattle.std.specs.Coded.{codes};
    ghost use Rattle.ob_code.specs.Rules.{KeepsRules};
    ghost use Rattle.ob_code.specs.contracts.chunk.Chunk as chunk_type;
    ghost use Rattle.ob_code.specs.declared.chunk.Chunk.{Chunk};

    ghost Value = { Chunk };

    ghost coded = { Prim.hlevel (codes, chunk_type.the_row.coded) };

    ghost view = { λ c. c.chunk };

    ghost invariant = { λ c. KeepsRules c.chunk };
}

impl Checked {
    pub(crate) fn new(chunk: Chunk) -> Checked
        requires { KeepsRules chunk }
        ensures { result ≡ chunk }
    {
        Checked { chunk }
    }

    /// The chunk.
    pub fn chunk(&self) -> &Chunk
        ensures same { result.now ≡ self.now }
        ensures keeps { KeepsRules result.now }
    {
        &self.chunk
    }
}
