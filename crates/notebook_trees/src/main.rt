//! Runs the rows on single cells that come in on standard input: what a text reads as, how deep its tree
//! is, and what its names mean. Prints each row that differs and how many there were.
#![tactic(auto)]

mod names;
mod row;

use ob_base::NoMemory;
use std::io;
use std::process::ExitCode;

// How many rows ran, and how many of them differ.
#[derive(Drop)]
struct Tally {
    rows: u32,
    differ: u32,
}

impl Tally {
    // Runs a row and prints what differs.
    fn run(&mut self, rt: &(impl Print + AllocGlobal), line: &str) -> io::Result<()> {
        self.rows = self.rows.saturating_add(1);
        let difference = match row::difference(rt.alloc(), line) {
            Ok(difference) => difference,
            Err(NoMemory) => return Err(io::Error::from(io::ErrorKind::OutOfMemory)),
        };
        if let Some(given) = difference {
            self.differ = self.differ.saturating_add(1);
            println!(rt; "{line}: gives {}", given.as_str())?;
        }
        Ok(())
    }
}

fn main(rt: HostRuntime) -> io::Result<ExitCode> {
    let alloc = rt.alloc();
    let mut tally = Tally { rows: 0, differ: 0 };
    for line in rt.lines(alloc) {
        let line = line?;
        if !line.is_empty() && !line.as_str().starts_with("# ") {
            tally.run(&rt, line.as_str())?;
        }
    }
    println!(rt; "{} rows, {} differ", tally.rows, tally.differ)?;
    Ok(ExitCode::from(if tally.differ == 0 { 0 } else { 1 }))
}
