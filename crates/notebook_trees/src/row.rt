//! A row: a word, a text, and behind ` # ` what is wanted of it.

use crate::names::names_text;
use ob_base::{List, NoMemory};
use ob_parse::{ParseError, parse_cell};
use ob_tree::{Boxed, CellTree, Expr, FnBody, Function, depth, print_cell};
use ob_tree_prelude::{Prelude, prelude_tree};
use std::alloc::Global;

// The most bytes of a text.
const LONGEST: usize = 1_000_000;

// What a text reads as.
#[derive(Drop)]
enum Reading {
    Cell(CellTree),
    Nothing,
}

fn read(alloc: Global, text: &str) -> Result<Reading, NoMemory> {
    if text.len() > LONGEST {
        return Ok(Reading::Nothing);
    }
    match parse_cell(alloc, text) {
        Ok(cell) => Ok(Reading::Cell(cell)),
        Err(ParseError::Syntax) => Ok(Reading::Nothing),
        Err(ParseError::NoMemory) => Err(NoMemory),
    }
}

// A text, with line breaks in the place of `@`.
fn with_breaks(alloc: Global, row: &str) -> Result<String, NoMemory> {
    let mut text = String::new(alloc);
    for c in row.chars() {
        text.push(if c == '@' { '\n' } else { c })?;
    }
    Ok(text)
}

// The canonical text of a copy of the cell.
fn printed(alloc: Global, cell: &CellTree) -> Result<String, NoMemory> {
    let copy = cell.copy(alloc)?;
    let text = print_cell(alloc, &copy)?;
    Ok(String::from_str(alloc, text.as_str())?)
}

// What is asked of a cell.
#[derive(Clone, Copy)]
enum Question {
    Text,
    Depth,
    Names,
}

fn answer(alloc: Global, question: Question, text: &str) -> Result<String, NoMemory> {
    let text = with_breaks(alloc, text)?;
    match read(alloc, text.as_str())? {
        Reading::Nothing => Ok(String::from_str(alloc, "refused")?),
        Reading::Cell(cell) => match question {
            Question::Text => printed(alloc, &cell),
            Question::Depth => Ok(depth(&cell).to_string(alloc)?),
            Question::Names => names_text(alloc, &cell),
        },
    }
}

// So many times one text, a second text, and so many times a third.
fn around(alloc: Global, times: u32, parts: (&str, &str, &str)) -> Result<String, NoMemory> {
    let mut text = String::new(alloc);
    for _ in 0..times {
        text.push_str(parts.0)?;
    }
    text.push_str(parts.1)?;
    for _ in 0..times {
        text.push_str(parts.2)?;
    }
    Ok(text)
}

// Whether such a text reads: the number, then the three parts with `~` between them.
fn repeated(alloc: Global, row: &str) -> Result<String, NoMemory> {
    let word = match repeated_text(alloc, row)? {
        Some(text) => match read(alloc, text.as_str())? {
            Reading::Cell(_) => "reads",
            Reading::Nothing => "refused",
        },
        None => "no such row",
    };
    Ok(String::from_str(alloc, word)?)
}

fn repeated_text(alloc: Global, row: &str) -> Result<Option<String>, NoMemory> {
    let Some((times, parts)) = row.split_once(' ') else {
        return Ok(None);
    };
    let Some((before, rest)) = parts.split_once('~') else {
        return Ok(None);
    };
    let Some((inside, behind)) = rest.split_once('~') else {
        return Ok(None);
    };
    match times.parse::<u32>() {
        Ok(times) => Ok(Some(around(alloc, times, (before, inside, behind))?)),
        Err(_) => Ok(None),
    }
}

fn prelude_named(name: &str) -> Option<Prelude> {
    match name {
        "map" => Some(Prelude::Map),
        "filter" => Some(Prelude::Filter),
        "forEach" => Some(Prelude::ForEach),
        "some" => Some(Prelude::Some),
        "every" => Some(Prelude::Every),
        "reduce" => Some(Prelude::Reduce),
        "from" => Some(Prelude::From),
        _ => None,
    }
}

// The canonical text of a cell that is the function of that name.
fn prelude(alloc: Global, name: &str) -> Result<String, NoMemory> {
    let Some(which) = prelude_named(name) else {
        return Ok(String::from_str(alloc, "no such function")?);
    };
    let tree = prelude_tree(alloc, which)?;
    let value = Boxed::new(alloc, Expr::Function(tree))?;
    let cell = CellTree::Bare(Function {
        name: None,
        params: List::new(alloc),
        generator: false,
        body: FnBody::Value(value),
    });
    printed(alloc, &cell)
}

fn given(alloc: Global, word: &str, text: &str) -> Result<String, NoMemory> {
    match word {
        "reads" | "refused" => answer(alloc, Question::Text, text),
        "depth" => answer(alloc, Question::Depth, text),
        "names" => answer(alloc, Question::Names, text),
        "repeated" => repeated(alloc, text),
        "prelude" => prelude(alloc, text),
        _ => Ok(String::from_str(alloc, "no such row")?),
    }
}

/// What a row gives, where that isn't what it wants; none where it is.
///
/// # Errors
/// `NoMemory` where an allocation is refused.
pub fn difference(alloc: Global, row: &str) -> Result<Option<String>, NoMemory> {
    let (word, rest) = row.split_once(' ').unwrap_or((row, ""));
    let (text, wanted) = if word == "refused" {
        (rest, "refused")
    } else if let Some(wanted) = rest.strip_prefix("# ") {
        ("", wanted)
    } else {
        rest.rsplit_once(" # ").unwrap_or((rest, ""))
    };
    let given = given(alloc, word, text)?;
    Ok(if given.as_str() == wanted {
        None
    } else {
        Some(given)
    })
}
