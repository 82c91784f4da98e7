ghost use Rattle.std.specs.Prelude.{◌≡◌, true, IfOk, IsTrue};
ghost use Rattle.std.specs.List.{list_all};
ghost use Rattle.serde_json.specs.View.{view, items_view};
ghost use Rattle.ob_script.specs.Bundles.{bundle_of, bundle_of_line};
ghost use Rattle.ob_script.specs.Commands.{new_notebook};
ghost use Rattle.ob_script.specs.Fields.{entries};
ghost use Rattle.ob_script.specs.Forms.{has_forms};
ghost use Rattle.ob_script.specs.Gives.{Gives};
ghost use Rattle.ob_script.specs.Ids.{is_notebook_id};

use crate::ReadError;
use crate::command::new_notebook;
use crate::field::{items_field, notebook_field, version_field};
use crate::json::{JsonFault, read_json};
use ob_base::{Cause, Command, List, Text};
use serde_json::Value;
use std::alloc::Global;

/// What the first line of an input holds.
#[derive(Debug, Drop)]
pub struct BundleLine {
    /// The id of the main notebook.
    pub main: Text,
    /// A `Notebook` for each notebook, in the order of the line.
    pub notebooks: List<Command>,
}

#[tactic(auto, using(crate::proofs::Readable::all_push))]
fn new_notebooks(alloc: Global, values: &[Value]) -> Result<List<Command>, ReadError>
    ensures reads { Gives result (entries new_notebook (items_view values.now)) }
    ensures forms { IfOk result (λ notebooks. list_all has_forms notebooks ≡ true) }
{
    let mut notebooks = List::new(alloc);
    for value in values {
        notebooks.push(new_notebook(alloc, value)?)?;
    }
    Ok(notebooks)
}

#[tactic(auto, unfolding(crate::specs::Bundles::bundle_of))]
fn bundle_of(alloc: Global, value: &Value) -> Result<BundleLine, ReadError>
    ensures reads { Gives result (bundle_of (view value.now)) }
    ensures main { IfOk result (λ bundle. is_notebook_id bundle.main ≡ true) }
    ensures forms { IfOk result (λ bundle. list_all has_forms bundle.notebooks ≡ true) }
{
    let _version = version_field(alloc, value)?;
    let main = notebook_field(alloc, value, "main")?;
    let items = items_field(alloc, value, "notebooks")?;
    let notebooks = new_notebooks(alloc, items)?;
    Ok(BundleLine { main, notebooks })
}

/// What a first line holds.
///
/// # Errors
/// `Refused` with the line's first fault of form; `NoMemory` where an allocation is refused.
#[tactic(auto, unfolding(crate::specs::Bundles::bundle_of_line))]
pub fn read_bundle(alloc: Global, line: &[u8]) -> Result<BundleLine, ReadError>
    // It is what the line reads as, or the line's first fault of form.
    ensures reads { Gives result (bundle_of_line line.now) }
    // The ids have their forms.
    ensures main { IfOk result (λ bundle. IsTrue (is_notebook_id bundle.main)) }
    ensures forms { IfOk result (λ bundle. IsTrue (list_all has_forms bundle.notebooks)) }
{
    match read_json(alloc, line) {
        Ok(value) => bundle_of(alloc, &value),
        Err(JsonFault::NotJson) => Err(ReadError::Refused(Cause::NotJson)),
        Err(JsonFault::NoMemory) => Err(ReadError::NoMemory),
    }
}
