// The F row of a child of the worked node, and the child with it.

// The places of an F row.
pub const GAINS: usize = 0;

pub const MAINTAINS: usize = 1;

pub const ROWKIND: usize = 2;

pub const ROWS: usize = 3;

pub const GROUPING: usize = 4;

pub const SPLITS: usize = 5;

pub const ENTRIES: usize = 6;

pub const WIDTH: usize = 7;

// Where the number of rows in an F row comes from; any other number says that there is none, so they stay numbers.
pub const ROWS_EXACT: u64 = 0;

pub const ROWS_ESTIMATED: u64 = 1;

// An F row.
pub type ChildRow = [u64; WIDTH];

// A child of the worked node, whose number is its place: need and count of its root, and its F row.
#[derive(Clone, Copy, Default)]
pub struct Asked {
    pub need: u64,
    pub count: u64,
    pub facts: ChildRow,
}

// What is known of a child before any child is changed: dealing out its rows may gain, it gains by their number, it must be hashed.
#[derive(Clone, Copy)]
pub struct RepartitionRequirementStatus {
    pub roundrobin_beneficial: bool,
    pub roundrobin_beneficial_stats: bool,
    pub hash_necessary: bool,
}
