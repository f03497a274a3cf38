// The answers of sheets that were read.
#![tactic(auto)]

pub mod join;
pub mod key;
