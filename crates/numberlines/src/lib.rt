// A line of numbers, read straight into a row where nothing in it is unusual; any other line is left to be judged by its fields.
#![tactic(auto)]

mod comma;
pub mod number;
pub mod operator;
pub mod row;
