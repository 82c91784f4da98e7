ghost use Rattle.std.specs.Prelude.{◌≡◌, IfOk};

use crate::{List, NoMemory, Text};
use std::alloc::Global;

/// Why a change of a mutable was lost.
#[derive(Clone, Copy, Debug, PartialEq, Eq)]
pub enum LostKind {
    /// Its holder isn't live.
    NotLive,
    /// Its holder has no value.
    NoValue,
    /// Its operator throws, or gives what is no plain data.
    BadResult,
}

/// A line of a report. Runs, hooks and positions count from 1.
#[derive(Debug, Drop)]
pub enum Event {
    Invalidate {
        label: Text,
        run: u64,
    },
    Hook {
        label: Text,
        run: u64,
        hook: u32,
        failure: Text,
    },
    Log {
        label: Text,
        text: Text,
    },
    Run {
        label: Text,
        run: u64,
    },
    Step {
        label: Text,
        run: u64,
        position: u64,
    },
    End {
        label: Text,
        run: u64,
    },
    Lost {
        label: Text,
        kind: LostKind,
    },
    Value {
        label: Text,
        text: Text,
    },
    Error {
        label: Text,
        failure: Text,
    },
}

/// What a tick showed: its number, from 1, its lines, and the steps that it took.
#[derive(Debug, Drop)]
pub struct TickReport {
    pub number: u64,
    pub events: List<Event>,
    pub spent: u64,
}

impl Event {
    /// The same event.
    ///
    /// # Errors
    /// `NoMemory` where an allocation is refused.
    pub fn copy(&self, alloc: Global) -> Result<Event, NoMemory>
        ensures { IfOk result (λ copy. copy ≡ self.now) }
    {
        match self {
            Event::Invalidate { label, run } => Ok(Event::Invalidate {
                label: label.copy(alloc)?,
                run: *run,
            }),
            Event::Hook {
                label,
                run,
                hook,
                failure,
            } => Ok(Event::Hook {
                label: label.copy(alloc)?,
                run: *run,
                hook: *hook,
                failure: failure.copy(alloc)?,
            }),
            Event::Log { label, text } => Ok(Event::Log {
                label: label.copy(alloc)?,
                text: text.copy(alloc)?,
            }),
            Event::Run { label, run } => Ok(Event::Run {
                label: label.copy(alloc)?,
                run: *run,
            }),
            Event::Step {
                label,
                run,
                position,
            } => Ok(Event::Step {
                label: label.copy(alloc)?,
                run: *run,
                position: *position,
            }),
            Event::End { label, run } => Ok(Event::End {
                label: label.copy(alloc)?,
                run: *run,
            }),
            Event::Lost { label, kind } => Ok(Event::Lost {
                label: label.copy(alloc)?,
                kind: *kind,
            }),
            Event::Value { label, text } => Ok(Event::Value {
                label: label.copy(alloc)?,
                text: text.copy(alloc)?,
            }),
            Event::Error { label, failure } => Ok(Event::Error {
                label: label.copy(alloc)?,
                failure: failure.copy(alloc)?,
            }),
        }
    }
}

fn copy_events(alloc: Global, events: &[Event]) -> Result<List<Event>, NoMemory>
    ensures { IfOk result (λ copy. copy ≡ events.now) }
{
    let mut copies = List::new(alloc);
    for event in events {
        copies.push(event.copy(alloc)?)?;
    }
    Ok(copies)
}

impl TickReport {
    /// The same report.
    ///
    /// # Errors
    /// `NoMemory` where an allocation is refused.
    pub fn copy(&self, alloc: Global) -> Result<TickReport, NoMemory>
        ensures { IfOk result (λ copy. copy ≡ self.now) }
    {
        Ok(TickReport {
            number: self.number,
            events: copy_events(alloc, self.events.as_slice())?,
            spent: self.spent,
        })
    }
}
