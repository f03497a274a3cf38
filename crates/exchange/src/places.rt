// The children of an operator: where each one's row stands, and what is asked of it.
ghost use Rattle.std.specs.Prelude.{◌≡◌, List, ◌++◌, ℕ, length, drop};
ghost use Rattle.exchange.specs.Trees.{trees, Plans};
ghost use Rattle.exchange.specs.Rows.{flattens};
ghost use Rattle.exchange.specs.Runs.{StandAll};
ghost use Rattle.exchange.specs.FactRows.{asked_by};
ghost use Rattle.exchange.specs.Places.{places_of, needs_of, counts_of};

use crate::row::{self, Row};
use crate::status::{Asked, ChildRow};

// The places of the trees from `at` on, as many as there are in `places`.
pub fn child_places(rows: &[Row], at: usize, places: &mut [usize])
    requires { StandAll rows.now at (length places.old) }
    ensures { (ts : Plans) (rest : List (List ℕ)) → trees ts ≡ length places.old → drop at rows.now ≡ flattens ts ++ rest → places.new ≡ places_of at ts }
{
    let mut next = at;
    for place in places.iter_mut() {
        *place = next;
        next = row::past_tree(rows, next);
    }
}

// The children from `at` on, each with its need and count, and its F row.
pub fn asked_children(rows: &[Row], at: usize, facts: &[ChildRow], asks: &mut [Asked])
    requires stand { StandAll rows.now at (length facts.now) }
    requires as_many { length asks.old ≡ length facts.now }
    ensures { (ts : Plans) (rest : List (List ℕ)) → trees ts ≡ length facts.now → drop at rows.now ≡ flattens ts ++ rest → asks.new ≡ asked_by (needs_of ts) (counts_of ts) facts.now }
{
    let mut next = at;
    for (i, row) in facts.iter().enumerate() {
        let child = row::node_at(rows, next);
        asks[i] = Asked {
            need: child.need,
            count: child.count,
            facts: *row,
        };
        next = row::past_tree(rows, next);
    }
}
