// The lines of an I sheet, by what stands on them, and the numbers of the first by their places.

pub const HEAD: usize = 0;

pub const LEFT: usize = 1;

pub const RIGHT: usize = 2;

pub const DIRECTIONS: usize = 3;

pub const LEFT_INPUT: usize = 4;

pub const RIGHT_INPUT: usize = 5;

pub const LEFT_REWRITING: usize = 6;

pub const RIGHT_REWRITING: usize = 7;

// How many lines there are.
pub const LINES: usize = 8;

pub const OP: usize = 0;

pub const MODE: usize = 1;

// The place of the mark on the line of an input.
pub const MARK: usize = 0;
