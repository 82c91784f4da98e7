//! Runs the cases that come in on standard input, each as a session over a source and a sink in memory,
//! and prints each that differs and how many there were.
#![tactic(auto)]

mod case;
mod draft;
mod json;
mod reading;
mod session;

use case::Case;
use reading::Reading;
use std::io;
use std::process::ExitCode;

// How many cases ran, and how many of them differ.
#[derive(Drop)]
struct Tally {
    cases: u32,
    differ: u32,
}

impl Tally {
    // Runs a case and prints what differs.
    fn run(&mut self, rt: &(impl Print + AllocGlobal), case: &Case) -> io::Result<()> {
        self.cases = self.cases.saturating_add(1);
        let ending = session::run(rt.alloc(), case)?;
        if let Some(difference) = case.difference(rt.alloc(), &ending)? {
            self.differ = self.differ.saturating_add(1);
            println!(rt; "{}: {}", case.name.as_str(), difference.as_str())?;
        }
        Ok(())
    }
}

fn main(rt: HostRuntime) -> io::Result<ExitCode> {
    let alloc = rt.alloc();
    let mut reading = Reading::new(alloc)?;
    let mut tally = Tally {
        cases: 0,
        differ: 0,
    };
    for line in rt.lines(alloc) {
        if let Some(case) = reading.take(alloc, line?.as_str())? {
            tally.run(&rt, &case)?;
        }
    }
    if let Some(case) = reading.finish(alloc)? {
        tally.run(&rt, &case)?;
    }
    println!(rt; "{} cases, {} differ", tally.cases, tally.differ)?;
    Ok(ExitCode::from(if tally.differ == 0 { 0 } else { 1 }))
}
