// Tree lines as a lent run of nodes, changed node by node. An index past the end is tested here: nothing is required of a caller.
#![tactic(auto)]

pub mod value;

ghost use Rattle.std.specs.Prelude.{◌≡◌};
ghost use Rattle.exchange.specs.Ensure.{interleaved};
ghost use Rattle.exchange.specs.Operators.{track};
ghost use Rattle.exchange.specs.Replace.{coalesced};
ghost use Rattle.exchange.specs.ReplaceRows.{merge_sort, relaxed_or};
ghost use Rattle.exchange.specs.Step.{split_operator};
ghost use Rattle.nodes.specs.Nodes.{changed, node_in, put_in, changed_in, new_mark, split_row};

use exchange::replace;
use exchange::row::Node;

// The node at `i`, or one of zeros past the end.
#[unsafe(no_mangle)]
pub extern "C" fn nodes_get(ns: &[Node], i: usize) -> Node
    ensures { result ≡ node_in ns.now i }
{
    ns.get(i).copied().unwrap_or(value::zero())
}

// The node at `i` changed, where there is one.
fn change<F: FnOnce(Node) -> Node>(ns: &mut [Node], i: usize, f: F)
    requires { F.IsAlwaysCallable f }
    ensures { (g : Node → Node) → ((n r : Node) → F.post f n r → r ≡ g n) → ns.new ≡ put_in ns.old i (g (node_in ns.old i)) }
{
    if i < ns.len() {
        ns[i] = f(ns[i]);
    }
}

#[unsafe(no_mangle)]
pub extern "C" fn nodes_put(ns: &mut [Node], i: usize, n: Node)
    ensures { ns.new ≡ put_in ns.old i n }
{
    change(ns, i, |_| n);
}

// Another mark.
#[unsafe(no_mangle)]
pub extern "C" fn nodes_track(ns: &mut [Node], i: usize, m: u64)
    ensures { ns.new ≡ changed_in (track m) ns.old i }
{
    change(ns, i, |n| value::track(n, m));
}

// The mark of a new merge or exchange.
#[unsafe(no_mangle)]
pub extern "C" fn nodes_track_new(ns: &mut [Node], i: usize)
    ensures { ns.new ≡ changed_in (track new_mark) ns.old i }
{
    change(ns, i, value::track_new);
}

// A merge becomes a coalesce.
#[unsafe(no_mangle)]
pub extern "C" fn nodes_coalesce(ns: &mut [Node], i: usize)
    ensures { ns.new ≡ changed_in coalesced ns.old i }
{
    change(ns, i, replace::coalesced);
}

// A merge becomes the sort that takes its limit.
#[unsafe(no_mangle)]
pub extern "C" fn nodes_sort(ns: &mut [Node], i: usize)
    ensures { ns.new ≡ changed_in merge_sort ns.old i }
{
    change(ns, i, value::sort);
}

// An exchange that keeps an order gives it up.
#[unsafe(no_mangle)]
pub extern "C" fn nodes_relax(ns: &mut [Node], i: usize)
    ensures { ns.new ≡ changed_in relaxed_or ns.old i }
{
    change(ns, i, value::relax);
}

// A union dealt in turn.
#[unsafe(no_mangle)]
pub extern "C" fn nodes_interleave(ns: &mut [Node], i: usize)
    ensures { ns.new ≡ changed_in interleaved ns.old i }
{
    change(ns, i, value::interleave);
}

// The count and the order of a child that was split.
#[unsafe(no_mangle)]
pub extern "C" fn nodes_split(ns: &mut [Node], i: usize, count: u64, order: u64)
    ensures { ns.new ≡ changed_in (split_operator (split_row count order)) ns.old i }
{
    change(ns, i, |n| value::split(n, count, order));
}

// A union dealt in turn, as a run of one node.
pub fn interleave_one(n: Node) -> Node
    ensures { result ≡ changed interleaved n }
{
    let mut ns = [n];
    nodes_interleave(&mut ns, 0);
    ns[0]
}
