//! Runs a notebook that comes in on standard input.
#![tactic(auto)]

ghost use Rattle.std.specs.Prelude.{◌≡◌, ◌<◌, IfOk};
ghost use Rattle.ob_base.specs.Integers.{InRange};
ghost use Rattle.ob_hosts.specs.Value.{host_value};

use ob_base::{Ledger, NoMemory, Steps, Text};
use ob_hosts::{HostCode, HostError, HostFn, HostTable};
use ob_io::{Sink, Source, StdSink, StdSource};
use ob_session::{Exit, session_main};
use std::alloc::Global;
use std::io::ErrorKind;
use std::marker::Brand;
use std::process::ExitCode;
use std::sync::ledger::Blank;
use std::{env, io};

fn text(alloc: Global, name: &str) -> Result<Text, NoMemory>
    ensures { IfOk result (λ text. text ≡ name.now) }
{
    Ok(Text::from_string(String::from_str(alloc, name)?))
}

// The four names differ, so only memory can be wanting.
fn added(answer: Result<(), HostError>) -> Result<(), NoMemory> {
    match answer {
        Ok(()) => Ok(()),
        Err(HostError::HostExists(_host)) => Err(NoMemory),
        Err(HostError::NoMemory(_host)) => Err(NoMemory),
    }
}

// The session, with a counter of its own.
fn start<L: Ledger, S: Source, K: Sink>(
    blank: Blank,
    alloc: Global,
    words: &[String],
    source: &mut S,
    sink: &mut K,
    hosts: &HostTable,
) -> Exit
    requires name { blank.name ≡ L.name }
    requires parts { blank.parts ≡ L.parts }
    requires some { 0 < L.parts }
{
    let mut steps = Steps::<L>::new(blank);
    session_main(alloc, words, source, sink, hosts, &mut steps)
}

// The session over standard input and output, with the host functions of notebooks.
#[tactic(auto, unfolding(ob_hosts::specs::Names::host_name))]
fn run(rt: &HostRuntime, words: &[String]) -> Result<Exit, NoMemory> {
    let alloc = rt.alloc();
    let quot = |a: i64, b: i64| -> Option<i64>
        requires { InRange a × InRange b }
        ensures { result ≡ host_value HostCode.Quot a b }
    { if b == 0 { None } else { Some(a / b) } };
    let floor_div = |a: i64, b: i64| -> Option<i64>
        requires { InRange a × InRange b }
        ensures { result ≡ host_value HostCode.FloorDiv a b }
    {
        if b == 0 {
            None
        } else if b < 0 {
            Some((-a).div_euclid(-b))
        } else {
            Some(a.div_euclid(b))
        }
    };
    let floor_mod = |a: i64, b: i64| -> Option<i64>
        requires { InRange a × InRange b }
        ensures { result ≡ host_value HostCode.Mod a b }
    {
        if b == 0 {
            None
        } else if b < 0 {
            Some(-(-a).rem_euclid(-b))
        } else {
            Some(a.rem_euclid(b))
        }
    };
    let clamp = |a: i64, _b: i64| -> Option<i64>
        requires { InRange a }
        ensures { result ≡ host_value HostCode.Clamp0 a _b }
    { Some(a.max(0)) };
    let quot = HostFn::new(
        text(alloc, HostCode::Quot.name())?,
        2,
        HostCode::Quot,
        Box::new(alloc, quot)?,
    );
    let floor_div = HostFn::new(
        text(alloc, HostCode::FloorDiv.name())?,
        2,
        HostCode::FloorDiv,
        Box::new(alloc, floor_div)?,
    );
    let floor_mod = HostFn::new(
        text(alloc, HostCode::Mod.name())?,
        2,
        HostCode::Mod,
        Box::new(alloc, floor_mod)?,
    );
    let clamp = HostFn::new(
        text(alloc, HostCode::Clamp0.name())?,
        1,
        HostCode::Clamp0,
        Box::new(alloc, clamp)?,
    );
    let mut hosts = HostTable::new(alloc);
    added(hosts.add(quot))?;
    added(hosts.add(floor_div))?;
    added(hosts.add(floor_mod))?;
    added(hosts.add(clamp))?;
    let mut source = StdSource::new(rt.reader());
    let mut sink = StdSink::new(io::writer(rt));
    Ok(start::<Brand, _, _>(Blank::new(1), alloc, words, &mut source, &mut sink, &hosts))
}

fn status_of(exit: Exit) -> u8 {
    match exit {
        Exit::Done => 0,
        Exit::Usage => 1,
        Exit::BadBundle => 2,
        Exit::ReadFault => 3,
        Exit::WriteFault => 4,
        Exit::NoMemory => 5,
        Exit::LineTooLong => 6,
        Exit::InputTooLong => 7,
    }
}

// The words after the program's own name.
fn words_of(rt: &HostRuntime) -> io::Result<Vec<String>> {
    let mut words = Vec::new(rt.alloc());
    for word in env::args(rt)?.skip(1) {
        words.push(word)?;
    }
    Ok(words)
}

fn main(rt: HostRuntime) -> ExitCode {
    let words = match words_of(&rt) {
        Ok(words) => words,
        Err(error) => {
            let status = if error.kind() == ErrorKind::OutOfMemory {
                5
            } else {
                8
            };
            return ExitCode::from(status);
        }
    };
    let exit = match run(&rt, &words) {
        Ok(exit) => exit,
        Err(NoMemory) => Exit::NoMemory,
    };
    ExitCode::from(status_of(exit))
}
