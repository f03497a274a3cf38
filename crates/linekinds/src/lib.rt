// A line of a sheet, read by its kind; the lines of K and I sheets.
#![tactic(auto)]

pub mod bounds;
pub mod kind;
pub mod line;
pub mod lists;
pub mod pack;
pub mod plain;
