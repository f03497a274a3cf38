// What is answered of a join's inputs: which side was followed, and what came of it.
ghost use Rattle.std.specs.Prelude.{◌≡◌, Some};
ghost use Rattle.keys.specs.Codes.{order_tried};
ghost use Rattle.keys.specs.InputValues.{side_number, report_by, side_by, positions_by};

use crate::codes::{HashMode, Op};
use crate::list::Positions;
use crate::reorder::Reordered;

#[derive(Clone, Copy, PartialEq, Eq, Debug)]
pub enum Side {
    Left,
    Right,
}

impl From<Side> for u64 {
    ghost from_gives = { λ side r. r ≡ side_number (Some side) };

    fn from(side: Side) -> u64 {
        match side {
            Side::Left => 1,
            Side::Right => 2,
        }
    }
}

// No order was tried, a side was followed, or none could be: document 01's reports 0, 1 and 2, and 3.
// An Option of a Result would say the same without the names.
#[derive(Clone, Copy)]
pub enum Attempt {
    Untried,
    Followed(Side, Reordered),
    Failed,
}

impl Attempt {
    pub fn report(self) -> u64
        ensures { result ≡ report_by self }
    {
        match self {
            Attempt::Untried => 0,
            Attempt::Followed(_, tried) => tried.report(),
            Attempt::Failed => 3,
        }
    }

    pub fn side(self) -> Option<Side>
        ensures { result ≡ side_by self }
    {
        match self {
            Attempt::Followed(side, _) => Some(side),
            Attempt::Untried | Attempt::Failed => None,
        }
    }

    // Document 01's number of the side that was followed, 0 for none.
    pub fn followed(self) -> u64
        ensures { result ≡ side_number (side_by self) }
    {
        self.side().map_or(0, u64::from)
    }

    // The positions of the pairs that moved.
    pub fn positions(&self) -> Positions<'_>
        ensures { result.list.now ≡ positions_by self.now }
    {
        match self {
            Attempt::Followed(_, tried) => tried.positions(),
            Attempt::Untried | Attempt::Failed => Positions::NONE,
        }
    }
}

// A sort-merge join, or a Partitioned hash join.
pub fn order_tried(op: u64, mode: u64) -> bool
    ensures { result ≡ order_tried op mode }
{
    match Op::from(op) {
        Op::SortMergeJoin => true,
        Op::HashJoin => HashMode::from(mode) == HashMode::Partitioned,
        _ => false,
    }
}
