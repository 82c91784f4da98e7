//! The graph of nodes and their inputs: which nodes are circular, and which are reached.
#![tactic(auto)]

mod graph;
mod search;

pub use graph::{Graph, MAX_NODES};

#[cfg(test)]
mod tests;
