// D sheets: read with refusals 1 to 4 and 6 to 8.
#![tactic(auto)]

pub mod description;
pub mod facts;
pub mod fit;
pub mod line;
pub mod lines;
pub mod operator;
pub mod place;
pub mod plan;
pub mod rooms;
pub mod shape;
pub mod tree;
