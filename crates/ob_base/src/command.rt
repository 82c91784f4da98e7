ghost use Rattle.std.specs.Prelude.{◌≡◌, IfOk};

use crate::{List, NoMemory, Plain, Text};
use std::alloc::Global;

/// The id and the text of a cell.
#[derive(Debug, Drop)]
pub struct NewCell {
    pub id: Text,
    pub text: Text,
}

/// What a line asks for.
#[derive(Debug, Drop)]
pub enum Command {
    /// Adds a notebook.
    Notebook {
        id: Text,
        cells: List<NewCell>,
    },
    /// Adds a cell before the cell at a place, from 0; at the end without a place.
    Define {
        notebook: Text,
        cell: NewCell,
        place: Option<u32>,
    },
    /// Gives a cell another text.
    Redefine {
        notebook: Text,
        cell: NewCell,
    },
    /// Removes a cell.
    Delete {
        notebook: Text,
        cell: Text,
    },
    /// Gives the view of a cell an input.
    Input {
        notebook: Text,
        cell: Text,
        value: Plain,
    },
    /// Observes a cell.
    Observe {
        notebook: Text,
        cell: Text,
    },
    /// Ends the observing of a cell.
    Unobserve {
        notebook: Text,
        cell: Text,
    },
    /// Asks for a tick.
    Tick,
}

impl NewCell {
    /// The same cell.
    ///
    /// # Errors
    /// `NoMemory` where an allocation is refused.
    pub fn copy(&self, alloc: Global) -> Result<NewCell, NoMemory>
        ensures { IfOk result (λ copy. copy ≡ self.now) }
    {
        let id = self.id.copy(alloc)?;
        let text = self.text.copy(alloc)?;
        Ok(NewCell { id, text })
    }
}

fn copy_cells(alloc: Global, cells: &[NewCell]) -> Result<List<NewCell>, NoMemory>
    ensures { IfOk result (λ copy. copy ≡ cells.now) }
{
    let mut copies = List::new(alloc);
    for cell in cells {
        copies.push(cell.copy(alloc)?)?;
    }
    Ok(copies)
}

impl Command {
    /// The same command.
    ///
    /// # Errors
    /// `NoMemory` where an allocation is refused.
    pub fn copy(&self, alloc: Global) -> Result<Command, NoMemory>
        ensures { IfOk result (λ copy. copy ≡ self.now) }
    {
        match self {
            Command::Notebook { id, cells } => Ok(Command::Notebook {
                id: id.copy(alloc)?,
                cells: copy_cells(alloc, cells.as_slice())?,
            }),
            Command::Define {
                notebook,
                cell,
                place,
            } => Ok(Command::Define {
                notebook: notebook.copy(alloc)?,
                cell: cell.copy(alloc)?,
                place: *place,
            }),
            Command::Redefine { notebook, cell } => Ok(Command::Redefine {
                notebook: notebook.copy(alloc)?,
                cell: cell.copy(alloc)?,
            }),
            Command::Delete { notebook, cell } => Ok(Command::Delete {
                notebook: notebook.copy(alloc)?,
                cell: cell.copy(alloc)?,
            }),
            Command::Input {
                notebook,
                cell,
                value,
            } => Ok(Command::Input {
                notebook: notebook.copy(alloc)?,
                cell: cell.copy(alloc)?,
                value: value.copy(alloc)?,
            }),
            Command::Observe { notebook, cell } => Ok(Command::Observe {
                notebook: notebook.copy(alloc)?,
                cell: cell.copy(alloc)?,
            }),
            Command::Unobserve { notebook, cell } => Ok(Command::Unobserve {
                notebook: notebook.copy(alloc)?,
                cell: cell.copy(alloc)?,
            }),
            Command::Tick => Ok(Command::Tick),
        }
    }
}
