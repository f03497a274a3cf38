// The decision on a sheet that was read, and the lists that it leaves.
#![tactic(auto)]

pub mod chosen;
pub mod decide;
pub mod held_join;
pub mod held_key;
pub mod moved;
pub mod projection;
