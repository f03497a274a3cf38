// The answers of D sheets as text, and the sheets written again, from the rows of their trees.
#![tactic(auto)]

mod line;
pub mod plan;
mod rows;
mod sheet_line;
pub mod sheet_text;
