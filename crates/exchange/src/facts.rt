// What a sheet says beside the tree, and the worked node whose children are finished by it.
ghost use Rattle.std.specs.Prelude.{ℕ, ◌≤◌, ◌<◌, length, get_or, []};
ghost use Rattle.exchange.specs.FactRows.{child_facts};

use crate::fact::{ChildForm, FactRows};
use crate::partitioning::NodeRow;
use crate::settings::Settings;
use crate::settled::Settled;
use crate::status::ChildRow;

// The B row of the worked node, the F rows of its children, the X rows with their index, and the masks of unsatisfied children.
#[derive(Clone, Copy)]
pub struct PlanFacts<'a> {
    pub node: NodeRow,
    pub children: &'a [ChildRow],
    pub xs: FactRows<'a>,
    pub masks: &'a [u64],
    pub ghost few: { length children.now ≤ 8 },
    pub ghost ordered: { (k : ℕ) → k < length children.now → (child_facts (get_or children.now k [])).entries ≤ 8 },
}

// The worked node with its B row, how many children it has, and the X rows of these.
#[derive(Clone, Copy)]
pub struct Finishing<'a> {
    pub settings: Settings,
    pub node: NodeRow,
    pub xs: FactRows<'a>,
    pub worked: Settled,
    pub children: u64,
}

// A child of the worked node in its form, with its need and its F row.
#[derive(Clone, Copy)]
pub struct Needing {
    pub at: ChildForm,
    pub need: u64,
    pub facts: ChildRow,
    pub ghost ordered: { (child_facts facts).entries ≤ 8 },
}

// The children still to be finished: `left` of them, from number `child` on, with the forms and the F rows of all, lent as two slices.
#[derive(Clone, Copy)]
pub struct Unfinished<'a> {
    pub forms: &'a [u64],
    pub facts: &'a [ChildRow],
    pub child: u64,
    pub left: u64,
}
