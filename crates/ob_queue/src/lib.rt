//! The queue of marked nodes, and the plan that lists them with inputs first.
#![tactic(auto)]

mod queue;
mod walk;

pub use queue::Queue;

#[cfg(test)]
mod tests;
