use crate::{
    current_runs_have_their_inputs, rows_have_fresh_outcomes, unmarked_variables_are_still,
    unmoved_variables_keep_their_outcomes, whole_notebooks_make_a_net,
};

#[test]
fn laws_can_be_called(_rt: HostRuntime) {
    unmoved_variables_keep_their_outcomes::<u8, bool>();
    rows_have_fresh_outcomes::<u8, bool>();
    current_runs_have_their_inputs::<u8, bool>();
    unmarked_variables_are_still::<u8, bool>();
    whole_notebooks_make_a_net();
}
