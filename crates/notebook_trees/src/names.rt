//! What the names of a cell mean, in words.

use ob_base::NoMemory;
use ob_names::{Binding, NameForm, Use, free_names, local_names, resolve_locals};
use ob_tree::{CellTree, Function};
use std::alloc::Global;

// The free names, each with what stands before it, divided by `, `.
fn free_text(alloc: Global, cell: &CellTree) -> Result<String, NoMemory> {
    let names = free_names(alloc, cell)?;
    let mut line = String::new(alloc);
    for item in names.as_slice() {
        line.push_str(if line.is_empty() { "" } else { ", " })?;
        line.push_str(match item.form {
            NameForm::Plain => "",
            NameForm::Viewof => "viewof ",
            NameForm::Mutable => "mutable ",
            NameForm::Initial => "initial ",
        })?;
        line.push_str(item.name.as_str())?;
    }
    Ok(line)
}

// The local names, divided by spaces.
fn local_text(alloc: Global, cell: &CellTree) -> Result<String, NoMemory> {
    let names = local_names(alloc, cell)?;
    let mut line = String::new(alloc);
    for item in names.as_slice() {
        line.push_str(if line.is_empty() { "" } else { " " })?;
        line.push_str(item.as_str())?;
    }
    Ok(line)
}

// The bindings as `let` or `const`, with `captured` before it where that holds, divided by `, `.
fn bindings_text(alloc: Global, bindings: &[Binding]) -> Result<String, NoMemory> {
    let mut line = String::new(alloc);
    for item in bindings {
        line.push_str(if line.is_empty() { "" } else { ", " })?;
        line.push_str(if item.captured { "captured " } else { "" })?;
        line.push_str(if item.constant { "const" } else { "let" })?;
    }
    Ok(line)
}

// The uses as `local 0`, `captured 0` and `input 0`, divided by `, `.
fn uses_text(alloc: Global, uses: &[Use]) -> Result<String, NoMemory> {
    let mut line = String::new(alloc);
    for item in uses {
        line.push_str(if line.is_empty() { "" } else { ", " })?;
        let (word, number) = match item {
            Use::Local(number) => ("local ", *number),
            Use::Captured(number) => ("captured ", *number),
            Use::Input(number) => ("input ", *number),
        };
        line.push_str(word)?;
        let digits = number.to_string(alloc)?;
        line.push_str(digits.as_str())?;
    }
    Ok(line)
}

// The function of a cell.
fn function_of(cell: &CellTree) -> Option<&Function> {
    match cell {
        CellTree::Empty | CellTree::Import(_) => None,
        CellTree::Function(function) => Some(function),
        CellTree::Bare(body) => Some(body),
        CellTree::Named(_, body) => Some(body),
        CellTree::View(_, body) => Some(body),
        CellTree::Mutable(_, body) => Some(body),
    }
}

/// What a cell refers to and binds: its free names, its local names, the bindings of its function and
/// the uses, with `; ` between them.
///
/// # Errors
/// `NoMemory` where an allocation is refused.
pub fn names_text(alloc: Global, cell: &CellTree) -> Result<String, NoMemory> {
    let mut line = free_text(alloc, cell)?;
    let local = local_text(alloc, cell)?;
    line.push_str("; ")?;
    line.push_str(local.as_str())?;
    if let Some(function) = function_of(cell) {
        let slots = resolve_locals(alloc, function)?;
        let copy = slots.copy(alloc)?;
        let bindings = bindings_text(alloc, copy.bindings.as_slice())?;
        let uses = uses_text(alloc, copy.uses.as_slice())?;
        line.push_str("; ")?;
        line.push_str(bindings.as_str())?;
        line.push_str("; ")?;
        line.push_str(uses.as_str())?;
    }
    Ok(line)
}
