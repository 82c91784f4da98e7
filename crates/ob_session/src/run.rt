ghost use Rattle.std.specs.Prelude.{◌≡◌, ◌≢◌, ◌≤◌, [], ◌∷◌, Bool, IsTrue, IfSome};
ghost use Rattle.std.specs.Io.KnownBytes.{Appends};
ghost use Rattle.ob_io.specs.Outside.{Rose};
ghost use Rattle.ob_session.specs.Ends.{Ends, RunEnds, UsageEnds, is_run, word_bytes};
ghost use Rattle.ob_session.specs.Trace.{out, finish};

use crate::exit::Exit;
use crate::session::run_from;
use ob_base::{Ledger, MAX_INPUT_BYTES, MAX_LINE_BYTES, Steps};
use ob_hosts::HostTable;
use ob_io::{LineReader, Sink, Source, write_all};
use std::alloc::Global;

// Whether the words are `run` alone.
fn is_run(words: &[String]) -> bool
    ensures { result ≡ is_run (word_bytes words.now) }
{
    match words {
        [] => false,
        [word] => word.as_str() == "run",
        [_, _, ..] => false,
    }
}

fn write_usage<K: Sink>(sink: &mut K) -> Exit
    ensures ends { UsageEnds (K.held sink.old) (K.held sink.new) result }
    ensures write_fault { result ≡ Exit.WriteFault → Rose (K.faults sink.old) (K.faults sink.new) }
    ensures write_later { K.faults sink.old ≤ K.faults sink.new }
{
    match write_all(sink, b"usage: notebook_run run | flatten | make N\n") {
        Ok(()) => Exit::Usage,
        Err(_) => Exit::WriteFault,
    }
}

fn run<S: Source, K: Sink>(alloc: Global, source: &mut S, sink: &mut K) -> Exit
    ensures ends { RunEnds (S.left source.old) (S.left source.new) (K.held sink.old) (K.held sink.new) result }
    ensures read_fault { result ≡ Exit.ReadFault → Rose (S.faults source.old) (S.faults source.new) }
    ensures write_fault { result ≡ Exit.WriteFault → Rose (K.faults sink.old) (K.faults sink.new) }
    ensures read_later { S.faults source.old ≤ S.faults source.new }
    ensures write_later { K.faults sink.old ≤ K.faults sink.new }
{
    match LineReader::new(alloc, MAX_LINE_BYTES, MAX_INPUT_BYTES) {
        Ok(reader) => {
            let mut reader = reader;
            run_from(alloc, &mut reader, source, sink)
        }
        Err(_) => Exit::NoMemory,
    }
}

/// The whole program: what the words ask for, over a source and a sink. `run` reads lines, the first
/// a bundle and the others commands, and answers each.
///
/// It ends with `Usage` exactly where the words are not `run` alone and the usage line was written;
/// with `ReadFault` and `WriteFault` only where the count of faults of the source, of the sink, rose;
/// with `NoMemory` where an allocation was refused; else as the bytes of the input say.
pub fn session_main<S: Source, K: Sink, L: Ledger>(
    alloc: Global,
    words: &[String],
    source: &mut S,
    sink: &mut K,
    hosts: &HostTable,
    steps: &mut Steps<L>,
) -> Exit
    // How it ends, by the words, the bytes that were left and are left, and those that were held and are held.
    ensures ends { Ends (is_run (word_bytes words.now)) (S.left source.old) (S.left source.new) (K.held sink.old) (K.held sink.new) result }

    // A fault is answered only where its count rose.
    ensures read_fault { result ≡ Exit.ReadFault → Rose (S.faults source.old) (S.faults source.new) }
    ensures write_fault { result ≡ Exit.WriteFault → Rose (K.faults sink.old) (K.faults sink.new) }

    // Where no count rose and memory didn't run out, `run` appends the stated bytes and ends as stated.
    ensures right { IsTrue (is_run (word_bytes words.now))
        → (Rose (S.faults source.old) (S.faults source.new) → ⊥)
        → (Rose (K.faults sink.old) (K.faults sink.new) → ⊥)
        → result ≢ Exit.NoMemory
        → IfSome (S.left source.old) (λ input. Appends (K.held sink.old) (K.held sink.new) (out input) × (result ≡ finish input)) }

    // No step is counted yet.
    ensures steps { steps.new ≡ steps.old }
{
    let _ = hosts;
    if is_run(words) {
        run(alloc, source, sink)
    } else {
        write_usage(sink)
    }
}
