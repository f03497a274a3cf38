// A child's turn in a relationship round, and why the rounds may come to nothing.

// A child's turn in a round: its number from 1, its need, its form, and its bit of the mask; numbers, as needs and marks are.
#[derive(Clone, Copy)]
pub struct Turn {
    pub number: u64,
    pub need: u64,
    pub form: u64,
    pub bit: u64,
}

// Why the rounds end without forms: a round changes nothing, or a row is missing.
#[derive(Clone, Copy)]
pub enum Unenforced {
    Stuck,
    Missing,
}
