use crate::{
    chains_need_no_count, induction_over_inputs, nodes_in_order_get_their_values, paths_are_found,
    reached_nodes_are_found, values_are_their_equation, values_follow_inputs,
};

#[test]
fn laws_can_be_called(_rt: HostRuntime) {
    paths_are_found::<u8>();
    reached_nodes_are_found::<u8>();
    values_follow_inputs::<u8, bool>();
    values_are_their_equation::<u8, bool>();
    induction_over_inputs::<u8>();
    nodes_in_order_get_their_values::<u8, bool>();
    chains_need_no_count::<u8, bool>();
}
