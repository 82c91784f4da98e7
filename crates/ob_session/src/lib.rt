//! A session: lines in, replies and reports out. For now a notebook is one list of cells that are
//! sums, which can be observed.
#![tactic(auto)]

mod answer;
mod exit;
mod known;
mod live;
mod names;
mod open;
mod reply;
mod report;
mod run;
mod session;
mod show;
mod sums;
mod value;
mod world;

pub use exit::Exit;
pub use ob_io::{
    MemSink, MemSource, PureSource, ReadAnswer, Sink, Source, StdSink, StdSource, WriteAnswer,
};
pub use run::session_main;

#[cfg(test)]
mod tests;
