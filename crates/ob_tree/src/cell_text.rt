//! The canonical text of a cell.

ghost use Rattle.std.specs.Prelude.{◌≡◌, [], ◌∷◌, ◌++◌, map, string_bytes, IfOk, OnOk};
ghost use Rattle.ob_tree.specs.Tokens.{spaced, text_of, Word};
ghost use Rattle.ob_tree.specs.Print as spec;

use crate::marks::{put_alias, put_comma, put_form, put_mark, put_name, put_word};
use crate::printing::{write_body, write_declared, write_expr, write_stmts};
use crate::quoted::put_text;
use crate::{CellTree, FnBody, Function, ImportSpec, ImportTree};
use ob_base::{List, NoMemory, Text};
use std::alloc::Global;

/// The canonical text of a cell: its tokens with one space between two of them, parentheses around
/// each operand that is more than a literal, name, array, member, index, call or `new`, and `;`
/// after each statement that ends with one.
///
/// # Errors
/// `NoMemory` where an allocation is refused.
pub fn print_cell(alloc: Global, cell: &CellTree) -> Result<Text, NoMemory>
    ensures { IfOk result (λ text. text ≡ spec.print cell.now) }
{
    let mut out = String::new(alloc);
    write_cell(&mut out, cell)?;
    Ok(Text::from_string(out))
}

fn write_cell(out: &mut String, cell: &CellTree) -> Result<(), NoMemory>
    ensures { OnOk result (string_bytes out.new ≡ string_bytes out.old ++ spec.print cell.now) }
{
    match cell {
        CellTree::Empty => Ok(()),
        CellTree::Import(import) => {
            put_first(out, "import")?;
            write_import(out, import)?;
            Ok(())
        }
        CellTree::Function(function) => {
            put_first(out, "function")?;
            write_declared(out, function)?;
            Ok(())
        }
        CellTree::Bare(body) => write_bare(out, body),
        CellTree::Named(name, body) => {
            put_first(out, name.as_str())?;
            write_defined(out, body)?;
            Ok(())
        }
        CellTree::View(name, body) => {
            put_first(out, "viewof")?;
            put_name(out, name)?;
            write_defined(out, body)?;
            Ok(())
        }
        CellTree::Mutable(name, body) => {
            put_first(out, "mutable")?;
            put_name(out, name)?;
            write_defined(out, body)?;
            Ok(())
        }
    }
}

fn put_first(out: &mut String, text: &str) -> Result<(), NoMemory>
    ensures { OnOk result (string_bytes out.new ≡ string_bytes out.old ++ text.now) }
{
    out.push_str(text)?;
    Ok(())
}

fn write_defined(out: &mut String, body: &Function) -> Result<(), NoMemory>
    ensures { OnOk result (string_bytes out.new ≡ string_bytes out.old ++ spaced (spec.defined_tokens body.now)) }
{
    put_mark(out, "=")?;
    write_body(out, &body.body)?;
    Ok(())
}

/// Adds a cell's body with no space before it.
fn write_bare(out: &mut String, body: &Function) -> Result<(), NoMemory>
    ensures { OnOk result (string_bytes out.new ≡ string_bytes out.old ++ text_of (spec.body_tokens body.now.body)) }
{
    match &body.body {
        FnBody::Items(items) => {
            put_first(out, "{")?;
            write_stmts(out, items.as_slice())?;
            put_mark(out, "}")?;
            Ok(())
        }
        FnBody::Value(value) => {
            put_first(out, "(")?;
            write_expr(out, value.get())?;
            put_mark(out, ")")?;
            Ok(())
        }
    }
}

fn write_import(out: &mut String, import: &ImportTree) -> Result<(), NoMemory>
    ensures { OnOk result (string_bytes out.new ≡ string_bytes out.old ++ spaced (spec.import_tokens import.now)) }
{
    write_specs(out, import.specs.as_slice())?;
    write_with(out, &import.with)?;
    put_word(out, "from")?;
    put_text(out, import.from.as_slice())?;
    Ok(())
}

fn write_with(out: &mut String, with: &Option<List<ImportSpec>>) -> Result<(), NoMemory>
    ensures { OnOk result (string_bytes out.new ≡ string_bytes out.old ++ spaced (spec.with_tokens with.now)) }
{
    match with {
        None => Ok(()),
        Some(specs) => {
            put_word(out, "with")?;
            write_specs(out, specs.as_slice())?;
            Ok(())
        }
    }
}

fn write_specs(out: &mut String, specs: &[ImportSpec]) -> Result<(), NoMemory>
    ensures { OnOk result (string_bytes out.new ≡ string_bytes out.old ++ spaced (spec.specs_tokens specs.now)) }
{
    put_mark(out, "{")?;
    write_listed(out, specs)?;
    put_mark(out, "}")?;
    Ok(())
}

fn write_listed(out: &mut String, specs: &[ImportSpec]) -> Result<(), NoMemory>
    ensures { OnOk result (string_bytes out.new ≡ string_bytes out.old ++ spaced (spec.listed (map spec.spec_tokens specs.now))) }
{
    for (place, item) in specs.iter().enumerate() {
        put_comma(out, place)?;
        write_spec(out, item)?;
    }
    Ok(())
}

fn write_spec(out: &mut String, item: &ImportSpec) -> Result<(), NoMemory>
    ensures { OnOk result (string_bytes out.new ≡ string_bytes out.old ++ spaced (spec.spec_tokens item.now)) }
{
    put_form(out, item.form)?;
    put_name(out, &item.source)?;
    put_alias(out, &item.alias)?;
    Ok(())
}
