// What a child's need comes to: whether its rows gain, whether it must be hashed, and whether its partitioning does.
#![tactic(auto)]

pub mod partitioning;
pub mod status;
