// What is required of an operator by the one above it, by document 01's numbers; numbers, as kinds are (kind.rt).
pub const UNSPECIFIED: u64 = 0;

pub const SINGLE: u64 = 1;

pub const KEYED: u64 = 2;
