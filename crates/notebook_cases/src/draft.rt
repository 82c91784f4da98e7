use crate::case::{Case, Wanted};
use crate::json::{push_cell, push_escaped, push_field, push_text};
use std::alloc::{AllocError, Global};
use std::mem::replace;

const SIXTY_FOUR_SPACES: &str = "                                                                ";

/// Which line of the input is begun, and where in it the next piece goes.
#[derive(Clone, Copy, PartialEq, Eq)]
pub enum Open {
    /// No line is begun.
    Nothing,
    /// The bundle, in a notebook that has no cell yet.
    Notebook,
    /// The bundle, in the text of a cell.
    Cell,
    /// A command, in its text, which stands last.
    Text,
    /// A command, in its value, which stands last.
    Value,
    /// A line as the case has it.
    Line,
    /// The last line, which no line feed ends.
    Rest,
}

/// What is wanted as the answer to the line before, where the case says nothing of it.
#[derive(Clone, Copy)]
enum Answer {
    /// Nothing.
    Silence,
    /// The line `ok`.
    Accepted,
    /// A report, of which the case gives the lines between its first and its last.
    Report,
}

/// A case as far as it is read.
#[derive(Drop)]
pub struct Draft {
    /// Its name.
    pub name: String,
    /// The input so far.
    pub input: Vec<u8>,
    /// What of the input is open.
    pub open: Open,
    alloc: Global,
    words: Vec<String>,
    answer: Answer,
    // How many lines have this answer.
    lines: u64,
    // The lines that the case gives for the answer.
    told: String,
    is_silent: bool,
    wanted: String,
    ticks: u64,
    piece: u64,
    failing_read: u64,
    failing_write: u64,
    status: u64,
    unread: String,
}

// What is wanted as the answer to what is open.
fn answer_to(open: Open) -> Answer {
    match open {
        Open::Nothing => Answer::Silence,
        _ => Answer::Accepted,
    }
}

/// The text without the space that it begins with, if it does.
pub fn behind_space(text: &str) -> &str {
    match text.strip_prefix(' ') {
        Some(rest) => rest,
        None => text,
    }
}

// Appends a line.
fn push_line(text: &mut String, line: &str) -> Result<(), AllocError> {
    text.push_str(line)?;
    text.push('\n')
}

impl Draft {
    /// A case of this name, over this begun input.
    ///
    /// # Errors
    /// `AllocError` where an allocation is refused.
    pub fn new(alloc: Global, name: &str, input: &[u8], open: Open) -> Result<Draft, AllocError> {
        let mut words = Vec::new(alloc);
        words.push(String::from_str(alloc, "run")?)?;
        Ok(Draft {
            name: String::from_str(alloc, name)?,
            input: Vec::from_slice(alloc, input)?,
            open,
            alloc,
            words,
            answer: answer_to(open),
            lines: 1,
            told: String::new(alloc),
            is_silent: false,
            wanted: String::new(alloc),
            ticks: 0,
            piece: 0,
            failing_read: 0,
            failing_write: 0,
            status: 0,
            unread: String::new(alloc),
        })
    }

    /// Notes a line of the case that can't be read.
    ///
    /// # Errors
    /// `AllocError` where an allocation is refused.
    pub fn refuse(&mut self, line: &str) -> Result<(), AllocError> {
        if self.unread.is_empty() {
            self.unread.push_str(line)?;
        }
        Ok(())
    }

    // The answer that is wanted to the line before goes to the output that is wanted.
    fn settle(&mut self) -> Result<(), AllocError> {
        for _ in 0..self.lines {
            self.settle_once()?;
        }
        self.answer = Answer::Silence;
        self.lines = 1;
        self.told.clear();
        self.is_silent = false;
        Ok(())
    }

    fn settle_once(&mut self) -> Result<(), AllocError> {
        if self.is_silent {
            return Ok(());
        }
        match self.answer {
            Answer::Silence => self.wanted.push_str(self.told.as_str()),
            Answer::Accepted => {
                if self.told.is_empty() {
                    self.wanted.push_str("ok\n")
                } else {
                    self.wanted.push_str(self.told.as_str())
                }
            }
            Answer::Report => self.settle_report(),
        }
    }

    fn settle_report(&mut self) -> Result<(), AllocError> {
        self.ticks = self.ticks.saturating_add(1);
        self.push_count("tick ")?;
        self.wanted.push_str(self.told.as_str())?;
        self.push_count("done ")
    }

    // Appends a line of a word and the number of the tick to the output that is wanted.
    fn push_count(&mut self, word: &str) -> Result<(), AllocError> {
        let line = format!(in self.alloc; "{word}{}\n", self.ticks)?;
        self.wanted.push_str(line.as_str())
    }

    /// A line of the answer that is wanted to the line before.
    ///
    /// # Errors
    /// `AllocError` where an allocation is refused.
    pub fn tell(&mut self, line: &str) -> Result<(), AllocError> {
        if line == "(nothing)" {
            self.is_silent = true;
            return Ok(());
        }
        push_line(&mut self.told, line)
    }

    // Ends the line of the input that is begun.
    fn close(&mut self) -> Result<(), AllocError> {
        match self.open {
            Open::Nothing => {}
            Open::Notebook => push_text(&mut self.input, "]}]}\n")?,
            Open::Cell => push_text(&mut self.input, "\"}]}]}\n")?,
            Open::Text => push_text(&mut self.input, "\"}\n")?,
            Open::Value => push_text(&mut self.input, "}\n")?,
            Open::Line => push_text(&mut self.input, "\n")?,
            Open::Rest => {}
        }
        self.open = Open::Nothing;
        self.settle()
    }

    /// A notebook of the bundle.
    ///
    /// # Errors
    /// `AllocError` where an allocation is refused.
    pub fn notebook(&mut self, id: &str) -> Result<(), AllocError> {
        match self.open {
            Open::Notebook => push_text(&mut self.input, "]},{")?,
            Open::Cell => push_text(&mut self.input, "\"}]},{")?,
            Open::Nothing => {
                if !self.input.is_empty() {
                    return self.refuse(id);
                }
                push_text(
                    &mut self.input,
                    "{\"version\":1,\"main\":\"main\",\"notebooks\":[{",
                )?;
            }
            _ => return self.refuse(id),
        }
        self.open = Open::Notebook;
        self.answer = Answer::Accepted;
        push_field(&mut self.input, "id", id)?;
        push_text(&mut self.input, ",\"cells\":[")
    }

    /// A cell of the bundle; the first makes the notebook `main` where none is begun.
    ///
    /// # Errors
    /// `AllocError` where an allocation is refused.
    pub fn cell(&mut self, id: &str, text: &str) -> Result<(), AllocError> {
        if self.open == Open::Nothing && self.input.is_empty() {
            self.notebook("main")?;
        }
        match self.open {
            Open::Notebook => {}
            Open::Cell => push_text(&mut self.input, "\"},")?,
            _ => return self.refuse(id),
        }
        self.open = Open::Cell;
        self.input.push(b'{')?;
        push_field(&mut self.input, "id", id)?;
        push_text(&mut self.input, ",\"text\":\"")?;
        push_escaped(&mut self.input, text)
    }

    /// A further line of the text that is begun.
    ///
    /// # Errors
    /// `AllocError` where an allocation is refused.
    pub fn go_on(&mut self, text: &str) -> Result<(), AllocError> {
        match self.open {
            Open::Cell | Open::Text => {
                push_text(&mut self.input, "\\n")?;
                push_escaped(&mut self.input, text)
            }
            _ => self.refuse(text),
        }
    }

    /// A piece of what is begun, so many times.
    ///
    /// # Errors
    /// `AllocError` where an allocation is refused.
    pub fn repeat(&mut self, times: u64, piece: &str) -> Result<(), AllocError> {
        for _ in 0..times {
            match self.open {
                Open::Cell | Open::Text => push_escaped(&mut self.input, piece)?,
                Open::Value | Open::Line | Open::Rest => push_text(&mut self.input, piece)?,
                Open::Nothing | Open::Notebook => return self.refuse(piece),
            }
        }
        Ok(())
    }

    /// A line of the input as it stands, or the last one, which no line feed ends.
    ///
    /// # Errors
    /// `AllocError` where an allocation is refused.
    pub fn line(&mut self, line: &str, open: Open) -> Result<(), AllocError> {
        self.close()?;
        self.answer = Answer::Accepted;
        self.open = open;
        push_text(&mut self.input, line)
    }

    /// A line of the input of these bytes, in decimal.
    ///
    /// # Errors
    /// `AllocError` where an allocation is refused.
    pub fn bytes(&mut self, bytes: &str) -> Result<(), AllocError> {
        self.line("", Open::Line)?;
        for byte in bytes.split_whitespace() {
            match byte.parse::<u8>() {
                Ok(byte) => self.input.push(byte)?,
                Err(_) => return self.refuse(byte),
            }
        }
        Ok(())
    }

    /// So many lines of so many spaces, each of which has the answer that follows.
    ///
    /// # Errors
    /// `AllocError` where an allocation is refused.
    pub fn spaces(&mut self, spaces: u64, lines: u64) -> Result<(), AllocError> {
        self.close()?;
        self.answer = Answer::Accepted;
        self.lines = lines;
        for _ in 0..lines {
            for _ in 0..spaces / 64 {
                push_text(&mut self.input, SIXTY_FOUR_SPACES)?;
            }
            for _ in 0..spaces % 64 {
                self.input.push(b' ')?;
            }
            self.input.push(b'\n')?;
        }
        Ok(())
    }

    // Begins a command with this word.
    fn begin(&mut self, word: &str) -> Result<(), AllocError> {
        self.close()?;
        self.answer = Answer::Accepted;
        self.input.push(b'{')?;
        push_field(&mut self.input, "do", word)
    }

    /// The command `tick`.
    ///
    /// # Errors
    /// `AllocError` where an allocation is refused.
    pub fn tick(&mut self) -> Result<(), AllocError> {
        self.begin("tick")?;
        self.answer = Answer::Report;
        push_text(&mut self.input, "}\n")
    }

    /// A command that names a cell and no more.
    ///
    /// # Errors
    /// `AllocError` where an allocation is refused.
    pub fn on_cell(&mut self, word: &str, cell: &str) -> Result<(), AllocError> {
        self.begin(word)?;
        self.input.push(b',')?;
        push_cell(&mut self.input, cell)?;
        push_text(&mut self.input, "}\n")
    }

    /// The command `input`, with all that follows the word: `CELL VALUE`.
    ///
    /// # Errors
    /// `AllocError` where an allocation is refused.
    pub fn give(&mut self, rest: &str) -> Result<(), AllocError> {
        let Some((cell, value)) = rest.split_once(' ') else {
            return self.refuse(rest);
        };
        self.begin("input")?;
        self.input.push(b',')?;
        push_cell(&mut self.input, cell)?;
        push_text(&mut self.input, ",\"value\":")?;
        self.open = Open::Value;
        push_text(&mut self.input, value)
    }

    /// The command `define` or `redefine`, with all that follows the word: `CELL: TEXT`, or
    /// `CELL PLACE: TEXT`.
    ///
    /// # Errors
    /// `AllocError` where an allocation is refused.
    pub fn define(&mut self, word: &str, rest: &str) -> Result<(), AllocError> {
        let Some((head, text)) = rest.split_once(':') else {
            return self.refuse(rest);
        };
        self.begin(word)?;
        self.input.push(b',')?;
        match head.split_once(' ') {
            Some((cell, place)) => {
                push_cell(&mut self.input, cell)?;
                push_text(&mut self.input, ",\"place\":")?;
                push_text(&mut self.input, place)?;
            }
            None => push_cell(&mut self.input, head)?,
        }
        push_text(&mut self.input, ",\"text\":\"")?;
        self.open = Open::Text;
        push_escaped(&mut self.input, behind_space(text))
    }

    /// The words of the command line.
    ///
    /// # Errors
    /// `AllocError` where an allocation is refused.
    pub fn words(&mut self, alloc: Global, rest: &str) -> Result<(), AllocError> {
        self.close()?;
        self.words.clear();
        for word in rest.split_whitespace() {
            self.words.push(String::from_str(alloc, word)?)?;
        }
        Ok(())
    }

    /// A setting: `pieces`, `failing-read`, `failing-write` or `status`, with its number.
    ///
    /// # Errors
    /// `AllocError` where an allocation is refused.
    pub fn set(&mut self, word: &str, number: u64) -> Result<(), AllocError> {
        match word {
            "pieces" => self.piece = number,
            "failing-read" => self.failing_read = number,
            "failing-write" => self.failing_write = number,
            "status" => self.status = number,
            _ => return self.refuse(word),
        }
        Ok(())
    }

    /// The case, whole.
    ///
    /// # Errors
    /// `AllocError` where an allocation is refused.
    pub fn into_case(mut self) -> Result<Case, AllocError> {
        self.close()?;
        let wanted = replace(&mut self.wanted, String::new(self.alloc));
        Ok(self.with_wanted(Wanted::Output(wanted)))
    }

    /// The row of a table: the cell `row` is observed at a tick.
    ///
    /// # Errors
    /// `AllocError` where an allocation is refused.
    pub fn into_row(mut self) -> Result<Case, AllocError> {
        let told = replace(&mut self.told, String::new(self.alloc));
        self.on_cell("observe", "row")?;
        self.tick()?;
        let wanted = match told.as_str().trim_ascii_end().split_once(' ') {
            Some(("bad", _)) => {
                self.status = 2;
                Wanted::Output(told)
            }
            Some((word, rest)) => {
                Wanted::Shown(format!(in self.alloc; "{word} main#row {rest}")?)
            }
            None => Wanted::Shown(told),
        };
        Ok(self.with_wanted(wanted))
    }

    // The case with this wanted.
    fn with_wanted(self, wanted: Wanted) -> Case {
        Case {
            name: self.name,
            words: self.words,
            input: self.input,
            piece: self.piece,
            failing_read: self.failing_read,
            failing_write: self.failing_write,
            wanted,
            status: self.status,
            unread: self.unread,
        }
    }

    /// Whether some line of it can't be read.
    pub fn is_unread(&self) -> bool {
        !self.unread.is_empty()
    }
}
