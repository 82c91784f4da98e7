//! What a notebook is, and what happens to it: definitions, and what holds of them.
#![tactic(auto)]

mod laws;

pub use laws::{
    current_runs_have_their_inputs, rows_have_fresh_outcomes, unmarked_variables_are_still,
    unmoved_variables_keep_their_outcomes, whole_notebooks_make_a_net,
};

#[cfg(test)]
mod tests;
