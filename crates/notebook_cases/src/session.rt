ghost use Rattle.std.specs.Prelude.{◌≡◌, ◌<◌};

use crate::case::Case;
use ob_base::{Ledger, List, Steps};
use ob_hosts::HostTable;
use ob_session::{Exit, MemSink, MemSource, session_main};
use std::alloc::Global;
use std::io;
use std::marker::Brand;
use std::sync::ledger::Blank;

// The most bytes that a case may write.
const ROOM: usize = 1_000_000;

/// How a session ended and what it wrote.
#[derive(Drop)]
pub struct Ending {
    /// The exit status of the program.
    pub status: u64,
    /// The output.
    pub output: String,
}

fn start<L: Ledger>(
    blank: Blank,
    alloc: Global,
    words: &[String],
    source: &mut MemSource,
    sink: &mut MemSink,
) -> Exit
    requires name { blank.name ≡ L.name }
    requires parts { blank.parts ≡ L.parts }
    requires some { 0 < L.parts }
{
    let mut steps = Steps::<L>::new(blank);
    let hosts = HostTable::new(alloc);
    session_main(alloc, words, source, sink, &hosts, &mut steps)
}

fn status_of(exit: Exit) -> u64 {
    match exit {
        Exit::Done => 0,
        Exit::Usage => 1,
        Exit::BadBundle => 2,
        Exit::ReadFault => 3,
        Exit::WriteFault => 4,
        Exit::NoMemory => 5,
        Exit::LineTooLong => 6,
        Exit::InputTooLong => 7,
    }
}

// A source of the case's bytes.
fn source_of(alloc: Global, case: &Case) -> io::Result<MemSource> {
    let mut bytes = Vec::new(alloc);
    bytes.extend_from_slice(&case.input)?;
    let piece = case.piece as usize;
    let sizes = if piece == 0 {
        List::new(alloc)
    } else {
        List::from_vec(vec![in alloc; piece; 1000]?)
    };
    let failing = List::from_vec(vec![in alloc; case.failing_read; 1]?);
    Ok(MemSource::new(List::from_vec(bytes), sizes, failing))
}

// A sink that fails where the case says so.
fn sink_of(alloc: Global, case: &Case) -> io::Result<MemSink> {
    let failing = List::from_vec(vec![in alloc; case.failing_write; 1]?);
    match MemSink::new(alloc, ROOM, failing) {
        Ok(sink) => Ok(sink),
        Err(_) => Err(io::Error::from(io::ErrorKind::OutOfMemory)),
    }
}

/// Runs the session of a case. Its host table is empty: no cell calls a host function yet.
///
/// # Errors
/// Where an allocation is refused, or the session wrote bytes that are no UTF-8.
pub fn run(alloc: Global, case: &Case) -> io::Result<Ending> {
    let mut source = source_of(alloc, case)?;
    let mut sink = sink_of(alloc, case)?;
    let exit = start::<Brand>(
        Blank::new(1),
        alloc,
        case.words.as_slice(),
        &mut source,
        &mut sink,
    );
    match std::str::from_utf8(sink.bytes()) {
        Ok(output) => Ok(Ending {
            status: status_of(exit),
            output: String::from_str(alloc, output)?,
        }),
        Err(_) => Err(io::Error::from(io::ErrorKind::InvalidData)),
    }
}
