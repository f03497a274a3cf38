// Sheets: K and I sheets read with refusals 1 to 6, and the lines that are held of one.
#![tactic(auto)]

pub mod fits;
pub mod held;
pub mod join_lines;
pub mod key_lines;
pub mod read;
pub mod sheets;
