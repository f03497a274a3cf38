// The worked node with its B row, and a child as it stands after its split.
use crate::fact::FactRow;

// The places of a B row.
pub const FRIENDLY: usize = 0;

pub const WINDOW: usize = 1;

pub const AGGEXACT: usize = 2;

pub const AGGSUBSET: usize = 3;

// A B row.
pub type NodeRow = [u64; 4];

// The worked node: its kind and its B row.
#[derive(Clone, Copy)]
pub struct Worked {
    pub kind: u64,
    pub facts: NodeRow,
}

// A child as it stands after its split: its form, its count, and the X row of that form.
#[derive(Clone, Copy)]
pub struct Standing {
    pub form: u64,
    pub count: u64,
    pub row: FactRow,
}
