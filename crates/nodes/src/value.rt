// What is done to one node's value, by the functions of `exchange`.
ghost use Rattle.std.specs.Prelude.{◌≡◌};
ghost use Rattle.exchange.specs.Ensure.{interleaved};
ghost use Rattle.exchange.specs.Operators.{track as track_to};
ghost use Rattle.exchange.specs.ReplaceRows.{merge_sort, relaxed_or};
ghost use Rattle.exchange.specs.Step.{split_operator};
ghost use Rattle.nodes.specs.Nodes.{zero as zero_node, settled, changed, new_mark, split_row};

use exchange::fact::{COUNT, ORDER, WIDTH};
use exchange::row::Node;
use exchange::settled::Settled;
use exchange::{operator, replace};

// What a read past the end has.
pub fn zero() -> Node
    ensures { result ≡ zero_node }
{
    Node::default()
}

// The node of its operator: the mark of a limit is 0 or 1, and an absent limit has number 0.
fn settle(n: Node) -> Settled
    ensures { result.node ≡ settled n }
{
    let limit = operator::limit_of(n);
    Settled {
        node: Node {
            limited: u64::from(limit.is_some()),
            limit: limit.unwrap_or(0),
            ..n
        },
    }
}

// Another mark.
pub fn track(n: Node, m: u64) -> Node
    ensures { result ≡ changed (track_to m) n }
{
    operator::track(m, settle(n))
}

// The mark of a new merge or exchange.
pub fn track_new(n: Node) -> Node
    ensures { result ≡ changed (track_to new_mark) n }
{
    operator::track(operator::NEW_MARK, settle(n))
}

// The sort that takes a merge's limit.
pub fn sort(n: Node) -> Node
    ensures { result ≡ changed merge_sort n }
{
    replace::sorted(settle(n))
}

// A union dealt in turn.
pub fn interleave(n: Node) -> Node
    ensures { result ≡ changed interleaved n }
{
    operator::interleaved(settle(n))
}

// An exchange that gives up its order.
pub fn relax(n: Node) -> Node
    ensures { result ≡ changed relaxed_or n }
{
    replace::relaxed(settle(n))
}

// The count and the order of a child that was split.
pub fn split(n: Node, count: u64, order: u64) -> Node
    ensures { result ≡ changed (split_operator (split_row count order)) n }
{
    let mut x = [0; WIDTH];
    x[COUNT] = count;
    x[ORDER] = order;
    operator::split_operator(x, settle(n))
}
