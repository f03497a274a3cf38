// Bytes into numbers and numbers into bytes: lines of decimal fields, read in one pass and written at their exact length.
#![tactic(auto)]

pub mod bounds;
pub mod field;
pub mod line;
pub mod store;
pub mod write;
