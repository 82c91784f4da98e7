//! One session that ends well; the others are cases of `notebook_cases`, which cost no proof.

ghost use Rattle.std.specs.Prelude.{◌≡◌, ◌<◌};

use crate::{Exit, session_main};
use ob_base::{Ledger, List, Steps};
use ob_hosts::HostTable;
use ob_io::{MemSink, MemSource};
use std::alloc::Global;
use std::marker::Brand;
use std::sync::ledger::Blank;
use std::test::Fail;

const INPUT: &str =
    "{\"version\":1,\"main\":\"main\",\"notebooks\":[{\"id\":\"main\",\"cells\":[{\"id\":\"a\",\"text\":\"a = 1\"},{\"id\":\"b\",\"text\":\"b = a + 2\"}]}]}\n{\"do\":\"observe\",\"notebook\":\"main\",\"cell\":\"b\"}\n{\"do\":\"tick\"}\n";

const OUTPUT: &str = "ok\nok\ntick 1\nrun main#a 1\nrun main#b 1\nvalue main#b 3\ndone 1\n";

fn start<L: Ledger>(
    blank: Blank,
    alloc: Global,
    words: &[String],
    source: &mut MemSource,
    sink: &mut MemSink,
) -> Exit
    requires name { blank.name ≡ L.name }
    requires parts { blank.parts ≡ L.parts }
    requires some { 0 < L.parts }
{
    let mut steps = Steps::<L>::new(blank);
    let hosts = HostTable::new(alloc);
    session_main(alloc, words, source, sink, &hosts, &mut steps)
}

// Runs a session over these bytes.
fn session(alloc: Global, input: &[u8]) -> Result<(Exit, MemSink), Fail> {
    let mut words = Vec::new(alloc);
    words.push(String::from_str(alloc, "run")?)?;
    let bytes = List::from_slice(alloc, input)?;
    let mut source = MemSource::new(bytes, List::new(alloc), List::new(alloc));
    let mut sink = MemSink::new(alloc, 1000, List::new(alloc))?;
    let exit = start::<Brand>(Blank::new(1), alloc, &words, &mut source, &mut sink);
    Ok((exit, sink))
}

#[test]
fn sum_of_two_cells(rt: HostRuntime) -> Result<(), Fail> {
    let (exit, sink) = session(rt.alloc(), INPUT.as_bytes())?;
    assert_eq!(rt; exit, Exit::Done);
    assert_eq!(rt; sink.bytes(), OUTPUT.as_bytes());
    Ok(())
}
