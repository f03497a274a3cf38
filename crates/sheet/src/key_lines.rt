// The lines of a K sheet, by what stands on them, and the numbers of the first by their places.

pub const HEAD: usize = 0;

pub const REQUIRED: usize = 1;

pub const LEFT: usize = 2;

pub const RIGHT: usize = 3;

pub const DIRECTIONS: usize = 4;

pub const REWRITING: usize = 5;

pub const GROUPS: usize = 6;

pub const AGGREGATES: usize = 7;

pub const MAPPED: usize = 8;

// How many lines stand before the children's.
pub const LINES: usize = 9;

pub const OP: usize = 0;

pub const MODE: usize = 1;

pub const JOIN: usize = 2;

pub const COLUMNS: usize = 3;

pub const PLAIN: usize = 4;

pub const PARTIAL: usize = 5;

pub const CHILDREN: usize = 6;
