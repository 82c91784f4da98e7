//! Bytes and lines: where bytes come from, where they go, and the lines of what comes.
#![tactic(auto)]

mod buffer;
mod line_reader;
mod mem_sink;
mod mem_source;
mod next_line;
mod outside;
mod pending;
mod pure_source;
mod stdio;
mod writing;

pub use line_reader::LineReader;
pub use mem_sink::MemSink;
pub use mem_source::MemSource;
pub use next_line::NextLine;
pub use outside::{ReadAnswer, Sink, Source, WriteAnswer};
pub use pure_source::PureSource;
pub use stdio::{StdSink, StdSource};
pub use writing::{WriteFault, write_all};

#[cfg(test)]
mod tests;
