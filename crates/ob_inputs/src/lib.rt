//! Values by recursion over inputs, for nodes of any type: which nodes lead to which, a value for
//! each node from those of its inputs, chains of places, and orders in which inputs stand first.
#![tactic(auto)]

mod laws;

pub use laws::{
    chains_need_no_count, induction_over_inputs, nodes_in_order_get_their_values, paths_are_found,
    reached_nodes_are_found, values_are_their_equation, values_follow_inputs,
};

#[cfg(test)]
mod tests;
