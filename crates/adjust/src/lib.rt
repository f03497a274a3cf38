// adjust_input_keys_ordering: what a requirement on an operator's output asks of its keys and of its children.
#![tactic(auto)]

pub mod adjust;
pub mod aggregate;
pub mod sheet;
