// replace_order_preserving_variants: operators that keep an order, for those that don't.
ghost use Rattle.std.specs.Prelude.{◌≡◌, ◌+◌, ◌≤◌, length};
ghost use Rattle.std.proofs.lemmas.List.Edits.{sets};
ghost use Rattle.exchange.specs.Rows.{node_of, operator_of};
ghost use Rattle.exchange.specs.Runs.{Ready, Readys, Maps, MapsAll};
ghost use Rattle.exchange.specs.Replace.{coalesced as coalesced_of, replace_order_preserving_variants, replace_tracked};
ghost use Rattle.exchange.specs.ReplaceRows.{merge_sort, relaxed_or, heads};

use crate::kind;
use crate::mark::is_set;
use crate::operator::{self, New};
use crate::row::{self, NO_LIMIT, Node, Place, Row, Step};
use crate::settled::Settled;

// A merge that keeps neither the order nor the limit.
pub fn coalesced(n: Node) -> Node
    ensures { result ≡ node_of (coalesced_of (operator_of n)) }
{
    Node {
        kind: kind::COALESCE,
        limited: NO_LIMIT,
        limit: 0,
        order: 0,
        ..n
    }
}

// The sort above it, where the merge had a limit.
pub fn sorted(merge: Settled) -> Node
    ensures { result ≡ node_of (merge_sort (operator_of merge.node)) }
{
    let s = New {
        kind: kind::SORT,
        count: merge.node.count,
        keeps: 0,
        limit: operator::limit_of(merge.node),
        order: merge.node.order,
        mask: 0,
        tracked: 0,
    };
    operator::new_operator(s, coalesced(merge.node))
}

// An exchange keeps the order no more.
pub fn relaxed(n: Settled) -> Node
    ensures { result ≡ node_of (relaxed_or (operator_of n.node)) }
{
    if kind::exchanges(n.node.kind) && is_set(n.node.keeps) {
        return Node {
            keeps: 0,
            order: 0,
            ..n.node
        };
    }
    n.node
}

// Writes what comes in the place of an operator, above its children, and returns the place past it.
fn put_in_place(dst: &mut [Row], to: usize, n: Settled, children: u64) -> usize
    requires { to + length (heads (operator_of n.node) children) ≤ length dst.old }
    ensures { (result ≡ to + length (heads (operator_of n.node) children)) × (dst.new ≡ sets dst.old to (heads (operator_of n.node) children)) }
{
    if n.node.kind != kind::MERGE {
        row::put_node(dst, to, relaxed(n), children);
        return to + 1;
    }
    if n.node.limited == NO_LIMIT {
        row::put_node(dst, to, coalesced(n.node), children);
        return to + 1;
    }
    row::put_node(&mut *dst, to, sorted(n), 1);
    let next = to + 1;
    row::put_node(&mut *dst, next, coalesced(n.node), children);
    next + 1
}

// The step on the tree at `at`. Rows and place are two here and below: as one they would go through memory at each call.
#[cycle(replace_children_replace_order_preserving_variants)]
pub fn replace_order_preserving_variants(src: &[Row], at: usize, dst: &mut [Row], to: usize) -> Step
    requires { Ready replace_order_preserving_variants src.now at (length dst.old) to }
    ensures { Maps replace_order_preserving_variants src.now at dst.old to dst.new result }
{
    let n = Settled {
        node: row::node_at(src, at),
    };
    let children = row::children_at(src, at);
    let next = put_in_place(dst, to, n, children);
    replace_children(src, at + 1, children, dst, next)
}

// The step on the `left` trees from `at` on, the children of one operator: those that are tracked are gone into.
// Document 01 names it: a node function and a child-list function that call each other, so this is no loop in the first.
#[cycle(replace_children_replace_order_preserving_variants)]
fn replace_children(src: &[Row], at: usize, left: u64, dst: &mut [Row], to: usize) -> Step
    requires { Readys replace_tracked src.now at left (length dst.old) to }
    ensures { MapsAll replace_tracked src.now at left dst.old to dst.new result }
{
    if left == 0 {
        return Step { at, to };
    }
    let s = if is_set(src[at][row::TRACKED]) {
        replace_order_preserving_variants(src, at, &mut *dst, to)
    } else {
        row::copy_tree(Place { rows: src, at }, &mut *dst, to)
    };
    replace_children(src, s.at, left - 1, dst, s.to)
}
