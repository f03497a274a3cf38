// What is answered of an operator: an outcome, and what each child's list becomes.
ghost use Rattle.std.specs.Prelude.{◌≡◌, false, true};
ghost use Rattle.keys.specs.Answers.{changed_by, report_by, positions_by, places_by};

use crate::list::{NumberList, Positions};
use crate::reorder::Reordered;

// The numbers of a K line; `columns` is its `left`. `op`, `mode` and `join` are codes, and a sheet may hold any number there:
// each rule reads its own by From where it decides.
#[derive(Clone, Copy, PartialEq, Eq, Debug)]
pub struct Operator {
    pub op: u64,
    pub mode: u64,
    pub join: u64,
    pub columns: u64,
    pub plain: bool,
    pub partial: bool,
}

// What a child's list becomes.
#[derive(Clone, Copy, PartialEq, Eq, Debug)]
pub enum Handed {
    Kept,
    Cleared,
    Required,
    Keys,
    Shifted,
    Mapped,
}

// What was decided, with the positions of the groups that moved and the places of the group names among the moved fields.
#[derive(Clone, Copy)]
pub enum Outcome {
    Unchanged,
    Passed,
    Tried(Reordered),
    Regrouped { at: NumberList, places: NumberList },
}

impl Outcome {
    pub fn changed(self) -> u64
        ensures { result ≡ changed_by self }
    {
        match self {
            Outcome::Unchanged => 0,
            Outcome::Passed | Outcome::Tried(_) | Outcome::Regrouped { .. } => 1,
        }
    }

    pub fn report(self) -> u64
        ensures { result ≡ report_by self }
    {
        match self {
            Outcome::Unchanged | Outcome::Passed => 0,
            Outcome::Tried(tried) => tried.report(),
            Outcome::Regrouped { .. } => 2,
        }
    }

    // The positions of the pairs or groups that moved.
    pub fn positions(&self) -> Positions<'_>
        ensures { result.list.now ≡ positions_by self.now }
    {
        match self {
            Outcome::Unchanged | Outcome::Passed => Positions::NONE,
            Outcome::Tried(tried) => tried.positions(),
            Outcome::Regrouped { at, .. } => at.positions(),
        }
    }

    // The places of the group names, where the groups moved.
    pub fn places(&self) -> Positions<'_>
        ensures { result.list.now ≡ places_by self.now }
    {
        match self {
            Outcome::Regrouped { places, .. } => places.positions(),
            _ => Positions::NONE,
        }
    }
}

#[derive(Clone, Copy)]
pub struct Adjusted {
    pub outcome: Outcome,
    pub cleared: bool,
    pub first: Handed,
    pub others: Handed,
}

impl Adjusted {
    // Nothing changes.
    pub fn unchanged() -> Adjusted
        ensures { result ≡ record { outcome = Outcome.Unchanged; cleared = false; first = Handed.Kept; others = Handed.Kept } }
    {
        Adjusted {
            outcome: Outcome::Unchanged,
            cleared: false,
            first: Handed::Kept,
            others: Handed::Kept,
        }
    }

    // R is cleared, and every child keeps its list.
    pub fn cleared() -> Adjusted
        ensures { result ≡ record { outcome = Outcome.Passed; cleared = true; first = Handed.Kept; others = Handed.Kept } }
    {
        Adjusted {
            outcome: Outcome::Passed,
            cleared: true,
            ..Adjusted::unchanged()
        }
    }

    // The first child's list, and every other's.
    pub fn passed(first: Handed, others: Handed) -> Adjusted
        ensures { result ≡ record { outcome = Outcome.Passed; cleared = false; first = first; others = others } }
    {
        Adjusted {
            outcome: Outcome::Passed,
            first,
            others,
            ..Adjusted::unchanged()
        }
    }
}
