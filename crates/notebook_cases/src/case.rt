use crate::session::Ending;
use std::alloc::{AllocError, Global};

/// What the output of a case is held to.
#[derive(Drop)]
pub enum Wanted {
    /// This text and no more.
    Output(String),
    /// This line, directly before the last.
    Shown(String),
}

/// One case: what a session is handed, and how it is to end.
#[derive(Drop)]
pub struct Case {
    /// The name that is printed where the case differs.
    pub name: String,
    /// The words of the command line.
    pub words: Vec<String>,
    /// The bytes of the input.
    pub input: Vec<u8>,
    /// How many bytes each of the first 1,000 reads gives at most; 0 for as many as there is room for.
    pub piece: u64,
    /// The number of the read that fails, from 1; 0 for none.
    pub failing_read: u64,
    /// The number of the write that fails, from 1; 0 for none.
    pub failing_write: u64,
    /// The output that is wanted.
    pub wanted: Wanted,
    /// The exit status that is wanted.
    pub status: u64,
    /// The first line of the case that can't be read; empty for none.
    pub unread: String,
}

const NOTHING: &str = "nothing";

// The first line in which two texts differ, as each has it.
fn first_difference<'a>(given: &'a str, wanted: &'a str) -> Option<(&'a str, &'a str)> {
    let mut wanted_lines = wanted.split('\n');
    for line in given.split('\n') {
        match wanted_lines.next() {
            Some(other) => {
                if line != other {
                    return Some((line, other));
                }
            }
            None => return Some((line, NOTHING)),
        }
    }
    match wanted_lines.next() {
        Some(other) => Some((NOTHING, other)),
        None => None,
    }
}

// The line before the last one, or the only one.
fn line_before_last(text: &str) -> &str {
    let text = text.trim_ascii_end();
    let mut lines = text.rsplit('\n');
    lines.next();
    match lines.next() {
        Some(line) => line,
        None => text,
    }
}

impl Case {
    /// What of the ending isn't as wanted; none where all is.
    ///
    /// # Errors
    /// `AllocError` where an allocation is refused.
    pub fn difference(&self, alloc: Global, ending: &Ending) -> Result<Option<String>, AllocError> {
        if !self.unread.is_empty() {
            return Ok(Some(format!(in alloc; "can't read `{}`", self.unread.as_str())?));
        }
        let given = ending.output.as_str();
        let difference = match &self.wanted {
            Wanted::Output(wanted) => first_difference(given, wanted.as_str()),
            Wanted::Shown(wanted) => first_difference(line_before_last(given), wanted.as_str()),
        };
        if let Some((line, other)) = difference {
            return Ok(Some(format!(in alloc; "gives `{line}` and not `{other}`")?));
        }
        if ending.status != self.status {
            return Ok(Some(format!(in alloc;
                "ends with {} and not {}",
                ending.status, self.status
            )?));
        }
        Ok(None)
    }
}
