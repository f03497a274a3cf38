// How ensure_distribution ends where it has an answer.

// The numbers of the d line, marks among them, and how many rows the answer has.
#[derive(Clone, Copy)]
pub struct Answered {
    pub changed: u64,
    pub window: u64,
    pub interleave: u64,
    pub tracked: u64,
    pub lines: usize,
}
