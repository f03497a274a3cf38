// update_children: the marks of the root's children.
ghost use Rattle.std.specs.Prelude.{◌≡◌};
ghost use Rattle.exchange.specs.Rows.{operator_of};
ghost use Rattle.exchange.specs.Runs.{Stands, Becomes, BecomeAll, Says, SaysAll, StandAll};
ghost use Rattle.exchange.specs.Children.{any_unspecified, update_each, update_children};
ghost use Rattle.exchange.specs.Update.{is_unspecified, marks_below, marks_child};

use exchange::mark::is_set;
use exchange::row::{self, Node, Row};
use exchange::{kind, need};

// Whether an operator is tracked and nothing is required of it.
fn unspecified(n: Node) -> bool
    ensures { result ≡ is_unspecified (operator_of n) }
{
    is_set(n.tracked) && n.need == need::UNSPECIFIED
}

// Whether any of the `left` trees from `at` on is tracked, with nothing required of it.
// That so many stand there stays a clause here and below, as in `past_tree`.
fn any_unspecified(rows: &[Row], at: usize, left: u64) -> bool
    requires { StandAll rows.now at left }
    ensures { SaysAll any_unspecified rows.now at left result }
{
    let mut child = at;
    for _ in 0..left {
        if unspecified(row::node_at(rows, child)) {
            return true;
        }
        child = row::past_tree(rows, child);
    }
    false
}

// What the `left` children from `at` on say of their parent's mark.
fn marks_below(rows: &[Row], at: usize, left: u64) -> bool
    requires { StandAll rows.now at left }
    ensures { SaysAll marks_below rows.now at left result }
{
    if left == 0 {
        return true;
    }
    if is_set(rows[at][row::TRACKED]) {
        return true;
    }
    any_unspecified(rows, at, left)
}

// The mark of the tree at `at`. That one stands there stays a clause, as in `past_tree`.
fn marks_child(rows: &[Row], at: usize) -> bool
    requires { Stands rows.now at }
    ensures { Says marks_child rows.now at result }
{
    let k = rows[at][row::KIND];
    if kind::exchanges(k) {
        return k != kind::REPARTITION_UNKNOWN;
    }
    if k == kind::MERGE {
        return true;
    }
    if k == kind::COALESCE {
        return true;
    }
    marks_below(rows, at + 1, row::children_at(rows, at))
}

// The marks of the `left` trees from `at` on.
fn mark_children(rows: &mut [Row], at: usize, left: u64)
    requires { StandAll rows.old at left }
    ensures { BecomeAll update_each rows.old at left rows.new }
{
    let mut child = at;
    for _ in 0..left {
        let next = row::past_tree(&*rows, child);
        let m = u64::from(marks_child(&*rows, child));
        row::set_mark(&mut *rows, child, m);
        child = next;
    }
}

// The marks of the root and its children.
pub(crate) fn update_children(rows: &mut [Row], at: usize)
    requires { Stands rows.old at }
    ensures { Becomes update_children rows.old at rows.new }
{
    let children = row::children_at(&*rows, at);
    row::set_mark(&mut *rows, at, 0);
    mark_children(&mut *rows, at + 1, children);
}
