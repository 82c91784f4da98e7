ghost use Rattle.std.specs.Prelude.{◌≡◌, true, IfOk, IsTrue};
ghost use Rattle.serde_json.specs.View.{view, items_view};
ghost use Rattle.ob_script.specs.Commands.{new_cell, new_notebook, fields, command_of, command_of_line};
ghost use Rattle.ob_script.specs.Fields.{entries};
ghost use Rattle.ob_script.specs.Forms.{has_forms, have_ids};
ghost use Rattle.ob_script.specs.Gives.{Gives};
ghost use Rattle.ob_script.specs.Ids.{is_cell_id};

use crate::ReadError;
use crate::field::{bad_shape, cell_field, items_field, notebook_field, place_field, text_field};
use crate::json::{JsonFault, read_json, text_at};
use crate::plain::value_field;
use crate::word::{Word, word_of};
use ob_base::{Cause, Command, List, NewCell};
use serde_json::Value;
use std::alloc::Global;

#[tactic(auto, unfolding(crate::specs::Commands::new_cell))]
fn new_cell(alloc: Global, value: &Value) -> Result<NewCell, ReadError>
    ensures reads { Gives result (new_cell (view value.now)) }
    ensures form { IfOk result (λ cell. is_cell_id cell.id ≡ true) }
{
    let id = cell_field(alloc, value, "id")?;
    let text = text_field(alloc, value, "text")?;
    Ok(NewCell { id, text })
}

#[tactic(auto, using(crate::proofs::Readable::all_push))]
fn new_cells(alloc: Global, values: &[Value]) -> Result<List<NewCell>, ReadError>
    ensures reads { Gives result (entries new_cell (items_view values.now)) }
    ensures forms { IfOk result (λ cells. have_ids cells ≡ true) }
{
    let mut cells = List::new(alloc);
    for value in values {
        cells.push(new_cell(alloc, value)?)?;
    }
    Ok(cells)
}

/// The notebook that a value adds.
#[tactic(auto, unfolding(crate::specs::Commands::new_notebook))]
pub fn new_notebook(alloc: Global, value: &Value) -> Result<Command, ReadError>
    ensures reads { Gives result (new_notebook (view value.now)) }
    ensures forms { IfOk result (λ command. has_forms command ≡ true) }
{
    let id = notebook_field(alloc, value, "id")?;
    let items = items_field(alloc, value, "cells")?;
    let cells = new_cells(alloc, items)?;
    Ok(Command::Notebook { id, cells })
}

#[tactic(auto, unfolding(crate::specs::Commands::fields))]
fn new_place(alloc: Global, value: &Value) -> Result<Command, ReadError>
    ensures reads { Gives result (fields Word.Define (view value.now)) }
    ensures forms { IfOk result (λ command. has_forms command ≡ true) }
{
    let notebook = notebook_field(alloc, value, "notebook")?;
    let id = cell_field(alloc, value, "cell")?;
    let text = text_field(alloc, value, "text")?;
    let place = place_field(alloc, value)?;
    let cell = NewCell { id, text };
    Ok(Command::Define {
        notebook,
        cell,
        place,
    })
}

#[tactic(auto, unfolding(crate::specs::Commands::fields))]
fn new_text(alloc: Global, value: &Value) -> Result<Command, ReadError>
    ensures reads { Gives result (fields Word.Redefine (view value.now)) }
    ensures forms { IfOk result (λ command. has_forms command ≡ true) }
{
    let notebook = notebook_field(alloc, value, "notebook")?;
    let id = cell_field(alloc, value, "cell")?;
    let text = text_field(alloc, value, "text")?;
    let cell = NewCell { id, text };
    Ok(Command::Redefine { notebook, cell })
}

#[tactic(auto, unfolding(crate::specs::Commands::fields))]
fn fields(alloc: Global, word: Word, value: &Value) -> Result<Command, ReadError>
    ensures reads { Gives result (fields word (view value.now)) }
    ensures forms { IfOk result (λ command. has_forms command ≡ true) }
{
    match word {
        Word::Notebook => new_notebook(alloc, value),
        Word::Define => new_place(alloc, value),
        Word::Redefine => new_text(alloc, value),
        Word::Tick => Ok(Command::Tick),
        Word::Delete => {
            let notebook = notebook_field(alloc, value, "notebook")?;
            let cell = cell_field(alloc, value, "cell")?;
            Ok(Command::Delete { notebook, cell })
        }
        Word::Input => {
            let notebook = notebook_field(alloc, value, "notebook")?;
            let cell = cell_field(alloc, value, "cell")?;
            let value = value_field(alloc, value)?;
            Ok(Command::Input {
                notebook,
                cell,
                value,
            })
        }
        Word::Observe => {
            let notebook = notebook_field(alloc, value, "notebook")?;
            let cell = cell_field(alloc, value, "cell")?;
            Ok(Command::Observe { notebook, cell })
        }
        Word::Unobserve => {
            let notebook = notebook_field(alloc, value, "notebook")?;
            let cell = cell_field(alloc, value, "cell")?;
            Ok(Command::Unobserve { notebook, cell })
        }
    }
}

#[tactic(auto, unfolding(crate::specs::Commands::command_of))]
fn command_of(alloc: Global, value: &Value) -> Result<Command, ReadError>
    ensures reads { Gives result (command_of (view value.now)) }
    ensures forms { IfOk result (λ command. has_forms command ≡ true) }
{
    match text_at(value, "do") {
        Some(text) => match word_of(text) {
            Some(word) => fields(alloc, word, value),
            None => Err(ReadError::Refused(Cause::UnknownCommand)),
        },
        None => bad_shape(alloc, "do"),
    }
}

/// What a line asks for.
///
/// # Errors
/// `Refused` with the line's first fault of form; `NoMemory` where an allocation is refused.
#[tactic(auto, unfolding(crate::specs::Commands::command_of_line))]
pub fn read_command(alloc: Global, line: &[u8]) -> Result<Command, ReadError>
    // It is what the line reads as, or the line's first fault of form.
    ensures reads { Gives result (command_of_line line.now) }
    // Its fields have their forms, so that its text reads back.
    ensures forms { IfOk result (λ command. IsTrue (has_forms command)) }
{
    match read_json(alloc, line) {
        Ok(value) => command_of(alloc, &value),
        Err(JsonFault::NotJson) => Err(ReadError::Refused(Cause::NotJson)),
        Err(JsonFault::NoMemory) => Err(ReadError::NoMemory),
    }
}
