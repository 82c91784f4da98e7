//! Code: the instructions of the machine, the rules that they keep, and where checked code is kept.
#![tactic(auto)]

mod check;
mod checked;
mod chunk;
mod codes;
mod effect;
mod entry;
mod laws;
mod leads;
mod op;
mod shape;
mod shapes;
mod site;
mod spot;
mod there;
mod walk;
mod ways;

pub use check::{BadChunk, CheckError, check_chunk};
pub use checked::Checked;
pub use chunk::{Chunk, Methods};
pub use codes::Codes;
pub use effect::Effect;
pub use entry::{Entry, Leaving};
pub use laws::{accepted_code_is_never_stuck, calls_come_to_one, runs_end_at_one};
pub use op::Op;
pub use shape::{Open, Shape, Way, Ways};
pub use spot::Spot;

#[cfg(test)]
mod tests;
