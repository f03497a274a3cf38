// reorder_join_keys_to_inputs: the order that the inputs of a join have already.
#![tactic(auto)]

pub mod current;
pub mod followed;
pub mod sheet;
