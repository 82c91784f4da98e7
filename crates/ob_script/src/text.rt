ghost use Rattle.std.specs.Prelude.{◌≡◌, ◌+◌, ◌≤◌, ◌&&◌, IsTrue, IfOk, OnOk, false, map};
ghost use Rattle.serde_json.specs.Data.{no_members, depth, items_depth, members_depth};
ghost use Rattle.serde_json.specs.View.{view, items_of, items_view, members_view};
ghost use Rattle.serde_json.specs.Written.{has_float, items_have_float, members_have_float};
ghost use Rattle.ob_base.specs.PlainData.{greatest, nesting, prop_nesting};
ghost use Rattle.ob_script.specs.Bundles.{bundle_of_line, one_notebook};
ghost use Rattle.ob_script.specs.Commands.{command_of_line};
ghost use Rattle.ob_script.specs.Forms.{has_forms, have_ids};
ghost use Rattle.ob_script.specs.Ids.{is_notebook_id};
ghost use Rattle.ob_script.specs.Returns.{IsBack, AreBack, EachBack, InputIsBack};
ghost use Rattle.ob_script.specs.Texts.{plain_data, prop_data, put_all, cell_data, cells_data, command_data, notebook_data, bundle_data, text_data, place_data, cell_command_data, input_data, define_data, notebook_command_data, tick_data, input_nesting, text_of_command, text_of_bundle};

use crate::units::text_of_units;
use ob_base::{Command, List, NewCell, NoMemory, Plain, PlainProp, Text};
use serde_json::{Map, Value, json};
use std::alloc::Global;

#[cycle(value)]
#[tactic(auto, using(crate::proofs::Written::whole_push, crate::proofs::Written::whole_put, crate::proofs::Written::deep_push, crate::proofs::Written::deep_put))]
fn plain_value(alloc: Global, plain: &Plain) -> Result<Value, NoMemory>
    ensures data { IfOk result (λ v. view v ≡ plain_data plain.now) }
    ensures whole { IfOk result (λ v. has_float (view v) ≡ false) }
    ensures deep { IfOk result (λ v. depth (view v) ≤ nesting plain.now) }
    ensures back { OnOk result (IsBack plain.now) }
{
    match plain {
        Plain::Undefined | Plain::Null => Ok(Value::Null),
        Plain::Bool(truth) => Ok(Value::Bool(*truth)),
        Plain::Int(n) => Ok(Value::from(*n)),
        Plain::Text(units) => Ok(Value::String(text_of_units(alloc, units.as_slice())?)),
        Plain::Array(items) => Ok(Value::Array(plain_values(alloc, items.as_slice())?)),
        Plain::Object(props) => Ok(Value::Object(prop_values(alloc, props.as_slice())?)),
    }
}

#[cycle(value)]
#[tactic(auto, using(crate::proofs::Written::whole_push, crate::proofs::Written::whole_put, crate::proofs::Written::deep_push, crate::proofs::Written::deep_put))]
fn plain_values(alloc: Global, items: &[Plain]) -> Result<Vec<Value>, NoMemory>
    ensures data { IfOk result (λ values. items_view values.items ≡ items_of (map plain_data items.now)) }
    ensures whole { IfOk result (λ values. items_have_float (items_view values.items) ≡ false) }
    ensures deep { IfOk result (λ values. items_depth (items_view values.items) ≤ greatest (map nesting items.now)) }
    ensures back { OnOk result (AreBack items.now) }
{
    let mut values = Vec::with_capacity(alloc, items.len())?;
    for item in items {
        values.push(plain_value(alloc, item)?)?;
    }
    Ok(values)
}

#[cycle(value)]
#[tactic(auto, using(crate::proofs::Written::whole_push, crate::proofs::Written::whole_put, crate::proofs::Written::deep_push, crate::proofs::Written::deep_put))]
fn prop_values(alloc: Global, props: &[PlainProp]) -> Result<Map<String, Value>, NoMemory>
    ensures data { IfOk result (λ members. members_view members.entries ≡ put_all no_members (map prop_data props.now)) }
    ensures whole { IfOk result (λ members. members_have_float (members_view members.entries) ≡ false) }
    ensures deep { IfOk result (λ members. members_depth (members_view members.entries) ≤ greatest (map prop_nesting props.now)) }
    ensures back { OnOk result (EachBack props.now) }
{
    let mut members = Map::new(alloc);
    for prop in props {
        let value = plain_value(alloc, &prop.value)?;
        let key = text_of_units(alloc, prop.key.as_slice())?;
        serde_json::put(&mut members, alloc, key.as_str(), value)?;
    }
    Ok(members)
}

fn cell_value(alloc: Global, cell: &NewCell) -> Result<Value, NoMemory>
    ensures { IfOk result (λ v. view v ≡ cell_data cell.now) }
{
    Ok(json!(in alloc; {"id": cell.id.as_str(), "text": cell.text.as_str()})?)
}

#[tactic(auto, using(crate::proofs::Written::whole_push, crate::proofs::Written::deep_push))]
fn cell_values(alloc: Global, cells: &[NewCell]) -> Result<Value, NoMemory>
    ensures data { IfOk result (λ v. view v ≡ cells_data cells.now) }
    ensures whole { IfOk result (λ v. has_float (view v) ≡ false) }
    ensures deep { IfOk result (λ v. depth (view v) ≤ 2) }
{
    let mut values = Vec::with_capacity(alloc, cells.len())?;
    for cell in cells {
        values.push(cell_value(alloc, cell)?)?;
    }
    Ok(Value::Array(values))
}

fn notebook_value(alloc: Global, id: &str, cells: &[NewCell]) -> Result<Value, NoMemory>
    ensures data { IfOk result (λ v. view v ≡ notebook_data id.now cells.now) }
    ensures whole { IfOk result (λ v. has_float (view v) ≡ false) }
    ensures deep { IfOk result (λ v. depth (view v) ≤ 3) }
{
    let cells = cell_values(alloc, cells)?;
    Ok(json!(in alloc; {"cells": cells, "id": id})?)
}

fn bundle_value(alloc: Global, main: &str, cells: &[NewCell]) -> Result<Value, NoMemory>
    ensures data { IfOk result (λ v. view v ≡ bundle_data main.now cells.now) }
    ensures whole { IfOk result (λ v. has_float (view v) ≡ false) }
    ensures deep { IfOk result (λ v. depth (view v) ≤ 5) }
{
    let notebook = notebook_value(alloc, main, cells)?;
    Ok(json!(in alloc; {"main": main, "notebooks": [notebook], "version": 1u64})?)
}

fn text_value(alloc: Global, word: &str, notebook: &str, cell: &NewCell) -> Result<Value, NoMemory>
    ensures data { IfOk result (λ v. view v ≡ text_data word.now notebook.now cell.now) }
    ensures whole { IfOk result (λ v. has_float (view v) ≡ false) }
    ensures deep { IfOk result (λ v. depth (view v) ≤ 1) }
{
    let id = cell.id.as_str();
    let text = cell.text.as_str();
    Ok(json!(in alloc; {"cell": id, "do": word, "notebook": notebook, "text": text})?)
}

fn place_value(alloc: Global, notebook: &str, cell: &NewCell, place: u32) -> Result<Value, NoMemory>
    ensures data { IfOk result (λ v. view v ≡ place_data notebook.now cell.now place) }
    ensures whole { IfOk result (λ v. has_float (view v) ≡ false) }
    ensures deep { IfOk result (λ v. depth (view v) ≤ 1) }
{
    let id = cell.id.as_str();
    let text = cell.text.as_str();
    Ok(
        json!(in alloc; {"cell": id, "do": "define", "notebook": notebook, "place": place, "text": text})?,
    )
}

fn cell_command_value(
    alloc: Global,
    word: &str,
    notebook: &str,
    cell: &str,
) -> Result<Value, NoMemory>
    ensures data { IfOk result (λ v. view v ≡ cell_command_data word.now notebook.now cell.now) }
    ensures whole { IfOk result (λ v. has_float (view v) ≡ false) }
    ensures deep { IfOk result (λ v. depth (view v) ≤ 1) }
{
    Ok(json!(in alloc; {"cell": cell, "do": word, "notebook": notebook})?)
}

fn input_value(alloc: Global, notebook: &str, cell: &str, value: &Plain) -> Result<Value, NoMemory>
    ensures data { IfOk result (λ v. view v ≡ input_data notebook.now cell.now value.now) }
    ensures whole { IfOk result (λ v. has_float (view v) ≡ false) }
    ensures deep { IfOk result (λ v. depth (view v) ≤ nesting value.now + 1) }
    ensures back { OnOk result (IsBack value.now) }
{
    let value = plain_value(alloc, value)?;
    Ok(json!(in alloc; {"cell": cell, "do": "input", "notebook": notebook, "value": value})?)
}

fn notebook_command_value(alloc: Global, id: &str, cells: &[NewCell]) -> Result<Value, NoMemory>
    ensures data { IfOk result (λ v. view v ≡ notebook_command_data id.now cells.now) }
    ensures whole { IfOk result (λ v. has_float (view v) ≡ false) }
    ensures deep { IfOk result (λ v. depth (view v) ≤ 3) }
{
    let cells = cell_values(alloc, cells)?;
    Ok(json!(in alloc; {"cells": cells, "do": "notebook", "id": id})?)
}

fn tick_value(alloc: Global) -> Result<Value, NoMemory>
    ensures data { IfOk result (λ v. view v ≡ tick_data) }
    ensures whole { IfOk result (λ v. has_float (view v) ≡ false) }
    ensures deep { IfOk result (λ v. depth (view v) ≤ 1) }
{
    Ok(json!(in alloc; {"do": "tick"})?)
}

fn define_value(
    alloc: Global,
    notebook: &str,
    cell: &NewCell,
    place: Option<u32>,
) -> Result<Value, NoMemory>
    ensures data { IfOk result (λ v. view v ≡ define_data notebook.now cell.now place) }
    ensures whole { IfOk result (λ v. has_float (view v) ≡ false) }
    ensures deep { IfOk result (λ v. depth (view v) ≤ 1) }
{
    match place {
        Some(place) => place_value(alloc, notebook, cell, place),
        None => text_value(alloc, "define", notebook, cell),
    }
}

fn command_value(alloc: Global, command: &Command) -> Result<Value, NoMemory>
    ensures data { IfOk result (λ v. view v ≡ command_data command.now) }
    ensures whole { IfOk result (λ v. has_float (view v) ≡ false) }
    ensures deep { IfOk result (λ v. depth (view v) ≤ input_nesting command.now + 3) }
    ensures back { OnOk result (InputIsBack command.now) }
{
    match command {
        Command::Notebook { id, cells } => {
            notebook_command_value(alloc, id.as_str(), cells.as_slice())
        }
        Command::Define {
            notebook,
            cell,
            place,
        } => define_value(alloc, notebook.as_str(), cell, *place),
        Command::Redefine { notebook, cell } => {
            text_value(alloc, "redefine", notebook.as_str(), cell)
        }
        Command::Delete { notebook, cell } => {
            cell_command_value(alloc, "delete", notebook.as_str(), cell.as_str())
        }
        Command::Input {
            notebook,
            cell,
            value,
        } => input_value(alloc, notebook.as_str(), cell.as_str(), value),
        Command::Observe { notebook, cell } => {
            cell_command_value(alloc, "observe", notebook.as_str(), cell.as_str())
        }
        Command::Unobserve { notebook, cell } => {
            cell_command_value(alloc, "unobserve", notebook.as_str(), cell.as_str())
        }
        Command::Tick => tick_value(alloc),
    }
}

/// The line of a command: JSON with no space, the keys of each object in byte order. In a value
/// `undefined` is written as `null`, and U+FFFD stands for a surrogate without a partner.
///
/// # Errors
/// `NoMemory` where an allocation is refused.
pub fn command_text(alloc: Global, command: &Command) -> Result<Text, NoMemory>
    // It is this text.
    ensures text { IfOk result (λ text. text ≡ text_of_command command.now) }
    // A command whose fields have their forms is read back from it.
    ensures reads_back { IfOk result (λ text. IsTrue (has_forms command.now) → command_of_line text ≡ Ok command.now) }
{
    let value = command_value(alloc, command)?;
    Ok(Text::from_string(value.to_string(alloc)?))
}

/// The line of a bundle of one notebook, the main one: JSON with no space, the keys of each object
/// in byte order.
///
/// # Errors
/// `NoMemory` where an allocation is refused.
pub fn bundle_text(alloc: Global, main: &Text, cells: &List<NewCell>) -> Result<Text, NoMemory>
    // It is this text.
    ensures text { IfOk result (λ text. text ≡ text_of_bundle main.now cells.now) }
    // Where the ids have their forms, the bundle is read back from it.
    ensures reads_back { IfOk result (λ text. IsTrue (is_notebook_id main.now && have_ids cells.now) → bundle_of_line text ≡ Ok (one_notebook main.now cells.now)) }
{
    let value = bundle_value(alloc, main.as_str(), cells.as_slice())?;
    Ok(Text::from_string(value.to_string(alloc)?))
}
