// ensure_distribution, put together from its steps.
#![tactic(auto)]

pub mod distribution;
pub mod finished;
pub mod interleave;
pub mod outcome;
pub mod update;
pub mod worked;
