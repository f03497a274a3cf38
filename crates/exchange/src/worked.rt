// remove_dist_changing_operators: from the top of a tree to the node that is worked on.
ghost use Rattle.std.specs.Prelude.{◌≡◌, ◌&&◌, not, List, ◌++◌, ℕ, ◌+◌, ◌<◌, eqb, length, drop};
ghost use Rattle.exchange.specs.Trees.{Plan};
ghost use Rattle.exchange.specs.Rows.{operator_of, node_at, children_at, flatten};
ghost use Rattle.exchange.specs.Runs.{Stands};
ghost use Rattle.exchange.specs.Children.{is_removed};
ghost use Rattle.exchange.specs.Worked.{removed};

use crate::kind;
use crate::row::{self, NO_LIMIT, Node, Row};

// Whether an operator only changes the distribution, and has no limit.
fn removable(n: Node) -> bool
    ensures { result ≡ is_removed (operator_of n) }
{
    n.limited == NO_LIMIT && kind::MERGE <= n.kind && n.kind <= kind::REPARTITION_UNKNOWN
}

// Whether the operator at `at` is taken off, so that its child comes next. That `at` is in range stays a clause, as in `node_at`.
fn taken_off(rows: &[Row], at: usize) -> bool
    requires { at < length rows.now }
    ensures { result ≡ (not (eqb (children_at rows.now at) 0) && is_removed (operator_of (node_at rows.now at))) }
{
    row::children_at(rows, at) != 0 && removable(row::node_at(rows, at))
}

// The place of the worked node of the tree at `at`. That one stands there stays a clause, as in `past_tree`.
pub fn remove_dist_changing_operators(rows: &[Row], at: usize) -> usize
    requires { Stands rows.now at }
    ensures { (t : Plan) (rest : List (List ℕ)) → drop at rows.now ≡ flatten t ++ rest → result ≡ at + length (removed t) }
{
    let mut a = at;
    // No `for`: how far down the node stands is known only on the way.
    while taken_off(rows, a) {
        a += 1;
    }
    a
}
