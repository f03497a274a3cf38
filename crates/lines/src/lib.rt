// The lines of key and join answers and sheets, written from lists.
#![tactic(auto)]

pub mod children;
pub mod join_text;
pub mod key_text;
pub mod line;
pub mod sheet_text;
