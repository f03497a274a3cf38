// The form of each child of the worked node: its step, and the relationship rounds.
#![tactic(auto)]

pub mod decide;
pub mod relationship;
pub mod step;
