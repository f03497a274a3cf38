// New operators, each from the operator that it stands on.
ghost use Rattle.std.specs.Prelude.{◌≡◌, cond, ◌&&◌, ltb};
ghost use Rattle.exchange.specs.Ensure.{interleaved as interleaved_of};
ghost use Rattle.exchange.specs.FactRows.{fact_row};
ghost use Rattle.exchange.specs.NewRows.{new_of, limit_for};
ghost use Rattle.exchange.specs.Operators.{has_order, mark as mark_of, track as track_to, new_operator, new_merge, new_exchange, required_sort};
ghost use Rattle.exchange.specs.Rows.{node_of, operator_of};
ghost use Rattle.exchange.specs.Step.{split_operator};

use crate::fact::{COUNT, FactRow, ORDER};
use crate::kind;
use crate::row::{NO_LIMIT, Node};
use crate::settled::Settled;

// New merges and exchanges are tracked.
pub const NEW_MARK: u64 = 1;

// What is said of a new operator.
#[derive(Clone, Copy)]
pub struct New {
    pub kind: u64,
    pub count: u64,
    pub keeps: u64,
    pub limit: Option<u64>,
    pub order: u64,
    pub mask: u64,
    pub tracked: u64,
}

// The limit of a node.
pub fn limit_of(n: Node) -> Option<u64>
    ensures { result ≡ limit_for n }
{
    if n.limited == NO_LIMIT {
        return None;
    }
    Some(n.limit)
}

// Every new operator: id 0, and the need of what it stands on. An absent limit has mark 0 and number 0.
pub(crate) fn new_operator(n: New, under: Node) -> Node
    ensures { result ≡ node_of (new_operator (new_of n) (operator_of under)) }
{
    Node {
        id: 0,
        kind: n.kind,
        count: n.count,
        keeps: n.keeps,
        limited: u64::from(n.limit.is_some()),
        limit: n.limit.unwrap_or(0),
        order: n.order,
        mask: n.mask,
        tracked: n.tracked,
        need: under.need,
    }
}

// A merge keeps an order that is there.
fn merge_kind(under: Node) -> u64
    ensures { result ≡ cond (has_order (operator_of under)) 1 2 }
{
    if under.order == 0 {
        return kind::COALESCE;
    }
    kind::MERGE
}

// A merge, of the row of its own form.
pub(crate) fn new_merge(x: FactRow, under: Node) -> Node
    ensures { result ≡ node_of (new_merge (fact_row x) (operator_of under)) }
{
    let n = New {
        kind: merge_kind(under),
        count: x[COUNT],
        keeps: 0,
        limit: None,
        order: x[ORDER],
        mask: 0,
        tracked: NEW_MARK,
    };
    new_operator(n, under)
}

// An exchange keeps an order that is there, over more than one partition.
fn keeps_order(under: Node) -> u64
    ensures { result ≡ mark_of (has_order (operator_of under) && ltb 1 under.count) }
{
    u64::from(under.order != 0 && 1 < under.count)
}

// A keyed exchange or a round robin, of the row of its own form.
pub(crate) fn new_exchange(kind: u64, x: FactRow, under: Node) -> Node
    ensures { result ≡ node_of (new_exchange kind (fact_row x) (operator_of under)) }
{
    let n = New {
        kind,
        count: x[COUNT],
        keeps: keeps_order(under),
        limit: None,
        order: x[ORDER],
        mask: 0,
        tracked: NEW_MARK,
    };
    new_operator(n, under)
}

// A sort by the entries that were kept, with the limit of `limiting`.
pub(crate) fn required_sort(limiting: Settled, entries: u64, under: Node) -> Node
    ensures { result ≡ node_of (required_sort (operator_of limiting.node).limit entries (operator_of under)) }
{
    let n = New {
        kind: kind::SORT,
        count: under.count.max(1),
        keeps: 0,
        limit: limit_of(limiting.node),
        order: 0,
        mask: entries,
        tracked: 0,
    };
    new_operator(n, under)
}

// The operator with the count and the order of a row.
pub fn split_operator(x: FactRow, n: Settled) -> Node
    ensures { result ≡ node_of (split_operator (fact_row x) (operator_of n.node)) }
{
    Node {
        count: x[COUNT],
        order: x[ORDER],
        ..n.node
    }
}

// The operator with another mark.
pub fn track(m: u64, n: Settled) -> Node
    ensures { result ≡ node_of (track_to m (operator_of n.node)) }
{
    Node {
        tracked: m,
        ..n.node
    }
}

// A union dealt in turn: its order is lost.
pub fn interleaved(n: Settled) -> Node
    ensures { result ≡ node_of (interleaved_of (operator_of n.node)) }
{
    Node {
        kind: kind::INTERLEAVE,
        order: 0,
        ..n.node
    }
}
