ghost use Rattle.std.specs.Prelude.{◌≡◌, IfOk};

use crate::{NoMemory, Text, Units};
use std::alloc::Global;

/// Why a line was refused.
#[derive(Debug, Drop)]
pub enum Cause {
    /// The line is no JSON.
    NotJson,
    /// The field of this name is missing or breaks its form.
    BadShape(Text),
    /// `do` is no word of a command.
    UnknownCommand,
    /// `value` holds a number that is not whole or past 2^53-1 in size.
    NumberRange,
    /// The new notebook's id is there.
    NotebookExists(Text),
    /// No notebook has this id.
    NoNotebook(Text),
    /// The notebook has no cell of this id.
    NoCell(Text),
    /// The new cell's id is there.
    CellExists(Text),
    /// The place is past the number of cells.
    BadPlace(u32),
    /// A text has this many bytes, more than a cell may have.
    TextTooLong(u64),
    /// An import is from a notebook that isn't there.
    ImportMissing(Units),
    /// With-imports lead from this notebook back to it.
    WithCycle(Text),
    /// There would be too many instances.
    TooManyInstances,
    /// There would be too many variables.
    TooManyVariables,
    /// The cell has no view that an input could go to.
    NoView,
    /// The line asks for what isn't built yet.
    NotBuilt,
}

impl Cause {
    /// The same cause.
    ///
    /// # Errors
    /// `NoMemory` where an allocation is refused.
    pub fn copy(&self, alloc: Global) -> Result<Cause, NoMemory>
        ensures { IfOk result (λ copy. copy ≡ self.now) }
    {
        match self {
            Cause::NotJson => Ok(Cause::NotJson),
            Cause::BadShape(field) => Ok(Cause::BadShape(field.copy(alloc)?)),
            Cause::UnknownCommand => Ok(Cause::UnknownCommand),
            Cause::NumberRange => Ok(Cause::NumberRange),
            Cause::NotebookExists(id) => Ok(Cause::NotebookExists(id.copy(alloc)?)),
            Cause::NoNotebook(id) => Ok(Cause::NoNotebook(id.copy(alloc)?)),
            Cause::NoCell(id) => Ok(Cause::NoCell(id.copy(alloc)?)),
            Cause::CellExists(id) => Ok(Cause::CellExists(id.copy(alloc)?)),
            Cause::BadPlace(place) => Ok(Cause::BadPlace(*place)),
            Cause::TextTooLong(bytes) => Ok(Cause::TextTooLong(*bytes)),
            Cause::ImportMissing(id) => Ok(Cause::ImportMissing(id.copy(alloc)?)),
            Cause::WithCycle(id) => Ok(Cause::WithCycle(id.copy(alloc)?)),
            Cause::TooManyInstances => Ok(Cause::TooManyInstances),
            Cause::TooManyVariables => Ok(Cause::TooManyVariables),
            Cause::NoView => Ok(Cause::NoView),
            Cause::NotBuilt => Ok(Cause::NotBuilt),
        }
    }
}
