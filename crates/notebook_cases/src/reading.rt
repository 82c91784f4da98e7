use crate::case::Case;
use crate::draft::{Draft, Open, behind_space};
use std::alloc::{AllocError, Global};
use std::mem::replace;

// What the lines that come belong to.
#[derive(Clone, Copy, PartialEq, Eq)]
enum Kind {
    Nothing,
    Case,
    // The cells that all rows of a table have.
    Table,
    Row,
}

/// The cases, as far as their lines are read.
#[derive(Drop)]
pub struct Reading {
    kind: Kind,
    draft: Draft,
    // The name of the table, and the input that all its rows begin with.
    table: String,
    common: Vec<u8>,
    common_open: Open,
}

impl Reading {
    /// No line is read yet.
    ///
    /// # Errors
    /// `AllocError` where an allocation is refused.
    pub fn new(alloc: Global) -> Result<Reading, AllocError> {
        Ok(Reading {
            kind: Kind::Nothing,
            draft: Draft::new(alloc, "", &[], Open::Nothing)?,
            table: String::new(alloc),
            common: Vec::new(alloc),
            common_open: Open::Nothing,
        })
    }

    /// Reads a line; gives the case that it ends.
    ///
    /// # Errors
    /// `AllocError` where an allocation is refused.
    pub fn take(&mut self, alloc: Global, line: &str) -> Result<Option<Case>, AllocError> {
        if line.is_empty() || line.starts_with('#') {
            return Ok(None);
        }
        if let Some(told) = line.strip_prefix("  ") {
            self.draft.tell(told)?;
            return Ok(None);
        }
        let (word, rest) = match line.split_once(' ') {
            Some(parts) => parts,
            None => (line, ""),
        };
        match word {
            "case" => self.begin(alloc, Kind::Case, rest),
            "table" => self.begin(alloc, Kind::Table, rest),
            ">" => self.begin_row(alloc, rest),
            _ => {
                self.put(alloc, line, word, rest)?;
                Ok(None)
            }
        }
    }

    /// Gives the case that the end of the lines ends.
    ///
    /// # Errors
    /// `AllocError` where an allocation is refused.
    pub fn finish(&mut self, alloc: Global) -> Result<Option<Case>, AllocError> {
        let draft = replace(&mut self.draft, Draft::new(alloc, "", &[], Open::Nothing)?);
        let kind = self.kind;
        self.kind = Kind::Nothing;
        match kind {
            Kind::Case => Ok(Some(draft.into_case()?)),
            Kind::Row => Ok(Some(draft.into_row()?)),
            Kind::Nothing | Kind::Table => {
                if draft.is_unread() {
                    Ok(Some(draft.into_case()?))
                } else {
                    Ok(None)
                }
            }
        }
    }

    // Begins a case or a table.
    fn begin(&mut self, alloc: Global, kind: Kind, name: &str) -> Result<Option<Case>, AllocError> {
        let ended = self.finish(alloc)?;
        self.kind = kind;
        self.draft = Draft::new(alloc, name, &[], Open::Nothing)?;
        Ok(ended)
    }

    // Begins a row of a table.
    fn begin_row(&mut self, alloc: Global, text: &str) -> Result<Option<Case>, AllocError> {
        match self.kind {
            Kind::Nothing | Kind::Case => {
                self.draft.refuse(text)?;
                return Ok(None);
            }
            Kind::Table => {
                self.table = String::from_str(alloc, self.draft.name.as_str())?;
                self.common = Vec::from_slice(alloc, &self.draft.input)?;
                self.common_open = self.draft.open;
            }
            Kind::Row => {}
        }
        let ended = self.finish(alloc)?;
        let name = format!(in alloc; "{}: {text}", self.table.as_str())?;
        self.draft = Draft::new(alloc, name.as_str(), &self.common, self.common_open)?;
        self.kind = Kind::Row;
        self.draft.cell("row", text)?;
        Ok(ended)
    }

    // A line of the case itself: a cell, or a word with what follows it.
    fn put(&mut self, alloc: Global, line: &str, word: &str, rest: &str) -> Result<(), AllocError> {
        if let Some((id, "")) = word.split_once(':') {
            return self.draft.cell(id, rest);
        }
        match word {
            "+" => self.draft.go_on(rest),
            "*" => self.repeat(rest),
            "notebook" => self.draft.notebook(rest),
            "observe" | "unobserve" | "delete" => self.draft.on_cell(word, rest),
            "define" | "redefine" => self.draft.define(word, rest),
            "input" => self.draft.give(rest),
            "tick" => self.draft.tick(),
            "line" => self.draft.line(rest, Open::Line),
            "rest" => self.draft.line(rest, Open::Rest),
            "bytes" => self.draft.bytes(rest),
            "words" => self.draft.words(alloc, rest),
            "spaces" => self.put_spaces(rest),
            _ => match rest.parse::<u64>() {
                Ok(number) => self.draft.set(word, number),
                Err(_) => self.draft.refuse(line),
            },
        }
    }

    // How many times, and the piece.
    fn repeat(&mut self, rest: &str) -> Result<(), AllocError> {
        match rest.split_once(' ') {
            Some((times, piece)) => match times.parse::<u64>() {
                Ok(times) => self.draft.repeat(times, piece),
                Err(_) => self.draft.refuse(rest),
            },
            None => self.draft.refuse(rest),
        }
    }

    // Lines of spaces: how many spaces, and how many lines where there is more than one.
    fn put_spaces(&mut self, rest: &str) -> Result<(), AllocError> {
        let (spaces, lines) = match rest.split_once(' ') {
            Some(numbers) => numbers,
            None => (rest, "1"),
        };
        match (spaces.parse::<u64>(), lines.parse::<u64>()) {
            (Ok(spaces), Ok(lines)) => self.draft.spaces(spaces, lines),
            _ => self.draft.refuse(rest),
        }
    }
}
