// The children of the worked node in a row: what is asked of each, and the form of each.
ghost use Rattle.std.specs.Prelude.{ℕ, ◌≤◌, ◌<◌, length, get_or};

use crate::status::Asked;

// What is asked of each child, in order; a child's number is its place, from 1.
// Where their forms are lent by &mut, that these are as many stays a clause.
#[derive(Clone, Copy)]
pub struct Asks<'a> {
    pub list: &'a [Asked],
    pub ghost few: { length list.now ≤ 8 },
}

// The form of each child.
#[derive(Clone, Copy)]
pub struct Forms<'a> {
    pub list: &'a [u64],
    pub ghost few: { length list.now ≤ 8 },
    pub ghost small: { (k : ℕ) → k < length list.now → get_or list.now k 0 ≤ 15 },
}
