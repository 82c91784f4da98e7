ghost use Rattle.std.specs.Prelude.{◌≡◌, IfOk};
ghost use Rattle.std.specs.Option.{option_copied};
ghost use Rattle.ob_cells.specs.Variables as spec;

use crate::{Body, VarDef};
use ob_base::{List, NoMemory, Part, Text};
use ob_names::{NameForm, NameRef, free_names};
use ob_tree::CellTree;
use std::alloc::Global;

/// The variables of a cell in the order of their parts; of a text that doesn't read, none of whose
/// trees there is, the one variable that fails.
///
/// # Errors
/// `NoMemory` where an allocation is refused.
#[tactic(auto, unfolding(crate::specs::Variables::variables_of))]
pub fn variables_of(alloc: Global, cell: Option<&CellTree>) -> Result<List<VarDef>, NoMemory>
    ensures { IfOk result (λ variables. variables ≡ spec.variables_of (option_copied cell.entry)) }
{
    match cell {
        None => main_variable(alloc, None, List::new(alloc), Body::Unreadable),
        Some(tree) => {
            let free = free_names(alloc, tree)?;
            defined_by(alloc, free, tree)
        }
    }
}

/// The variables of a text that reads as a cell with these free names.
fn defined_by(alloc: Global, free: List<NameRef>, tree: &CellTree) -> Result<List<VarDef>, NoMemory>
    ensures { IfOk result (λ variables. variables ≡ spec.defined_by free tree.now) }
{
    match tree {
        CellTree::Import(_) => Ok(List::new(alloc)),
        CellTree::Empty | CellTree::Bare(_) => main_variable(alloc, None, free, Body::Tree),
        CellTree::Named(name, _) => {
            let name = named(alloc, NameForm::Plain, name)?;
            main_variable(alloc, Some(name), free, Body::Tree)
        }
        CellTree::Function(function) => {
            let name = function_name(alloc, &function.name)?;
            main_variable(alloc, name, free, Body::Tree)
        }
        CellTree::View(name, _) => view_variables(alloc, name, free),
        CellTree::Mutable(name, _) => mutable_variables(alloc, name, free),
    }
}

fn named(alloc: Global, form: NameForm, name: &Text) -> Result<NameRef, NoMemory>
    ensures { IfOk result (λ made. made ≡ spec.named form name.now) }
{
    let name = name.copy(alloc)?;
    Ok(NameRef { form, name })
}

fn function_name(alloc: Global, name: &Option<Text>) -> Result<Option<NameRef>, NoMemory>
    ensures { IfOk result (λ made. made ≡ spec.function_name name.now) }
{
    match name {
        None => Ok(None),
        Some(name) => {
            let name = named(alloc, NameForm::Plain, name)?;
            Ok(Some(name))
        }
    }
}

fn main_variable(
    alloc: Global,
    name: Option<NameRef>,
    inputs: List<NameRef>,
    body: Body,
) -> Result<List<VarDef>, NoMemory>
    ensures { IfOk result (λ variables. variables ≡ spec.main_variable name inputs body) }
{
    let mut variables = List::new(alloc);
    variables.push(VarDef {
        part: Part::Main,
        name,
        inputs,
        body,
    })?;
    Ok(variables)
}

/// A variable that reads one name of its own cell.
fn derived(
    alloc: Global,
    part: Part,
    form: NameForm,
    reads: NameForm,
    name: &Text,
    body: Body,
) -> Result<VarDef, NoMemory>
    ensures { IfOk result (λ made. made ≡ spec.derived part form reads name.now body) }
{
    let mut inputs = List::new(alloc);
    inputs.push(named(alloc, reads, name)?)?;
    let name = named(alloc, form, name)?;
    Ok(VarDef {
        part,
        name: Some(name),
        inputs,
        body,
    })
}

/// A variable that a cell's text gives.
fn written(
    alloc: Global,
    part: Part,
    form: NameForm,
    name: &Text,
    free: List<NameRef>,
) -> Result<VarDef, NoMemory>
    ensures { IfOk result (λ made. made ≡ spec.written part form name.now free) }
{
    let name = named(alloc, form, name)?;
    Ok(VarDef {
        part,
        name: Some(name),
        inputs: free,
        body: Body::Tree,
    })
}

fn view_variables(alloc: Global, name: &Text, free: List<NameRef>) -> Result<List<VarDef>, NoMemory>
    ensures { IfOk result (λ variables. variables ≡ spec.view_variables name.now free) }
{
    let mut variables = List::new(alloc);
    variables.push(written(alloc, Part::View, NameForm::Viewof, name, free)?)?;
    variables.push(derived(
        alloc,
        Part::Shown,
        NameForm::Plain,
        NameForm::Viewof,
        name,
        Body::ShowView,
    )?)?;
    Ok(variables)
}

fn mutable_variables(
    alloc: Global,
    name: &Text,
    free: List<NameRef>,
) -> Result<List<VarDef>, NoMemory>
    ensures { IfOk result (λ variables. variables ≡ spec.mutable_variables name.now free) }
{
    let mut variables = List::new(alloc);
    variables.push(derived(
        alloc,
        Part::Shown,
        NameForm::Plain,
        NameForm::Mutable,
        name,
        Body::ShowMutable,
    )?)?;
    variables.push(written(alloc, Part::Initial, NameForm::Initial, name, free)?)?;
    variables.push(derived(
        alloc,
        Part::Holder,
        NameForm::Mutable,
        NameForm::Initial,
        name,
        Body::Hold,
    )?)?;
    Ok(variables)
}
