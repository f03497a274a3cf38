// The functions of `nodes` for C and Rust: target/staticlib/libnodes.a. A node crosses as the struct of `exchange`.
// Each stands here again, since such a library holds its own crate's alone.
#![tactic(auto)]

ghost use Rattle.std.specs.Prelude.{◌≡◌};
ghost use Rattle.exchange.specs.Ensure.{interleaved};
ghost use Rattle.exchange.specs.Operators.{track};
ghost use Rattle.exchange.specs.Replace.{coalesced};
ghost use Rattle.exchange.specs.ReplaceRows.{merge_sort, relaxed_or};
ghost use Rattle.exchange.specs.Step.{split_operator};
ghost use Rattle.nodes.specs.Nodes.{node_in, put_in, changed_in, new_mark, split_row};

use exchange::row::Node;

// The node at `i`, or one of zeros past the end.
#[unsafe(no_mangle)]
pub extern "C" fn nodes_get(ns: &[Node], i: usize) -> Node
    ensures { result ≡ node_in ns.now i }
{
    nodes::nodes_get(ns, i)
}

#[unsafe(no_mangle)]
pub extern "C" fn nodes_put(ns: &mut [Node], i: usize, n: Node)
    ensures { ns.new ≡ put_in ns.old i n }
{
    nodes::nodes_put(ns, i, n);
}

// Another mark.
#[unsafe(no_mangle)]
pub extern "C" fn nodes_track(ns: &mut [Node], i: usize, m: u64)
    ensures { ns.new ≡ changed_in (track m) ns.old i }
{
    nodes::nodes_track(ns, i, m);
}

// The mark of a new merge or exchange.
#[unsafe(no_mangle)]
pub extern "C" fn nodes_track_new(ns: &mut [Node], i: usize)
    ensures { ns.new ≡ changed_in (track new_mark) ns.old i }
{
    nodes::nodes_track_new(ns, i);
}

// A merge becomes a coalesce.
#[unsafe(no_mangle)]
pub extern "C" fn nodes_coalesce(ns: &mut [Node], i: usize)
    ensures { ns.new ≡ changed_in coalesced ns.old i }
{
    nodes::nodes_coalesce(ns, i);
}

// A merge becomes the sort that takes its limit.
#[unsafe(no_mangle)]
pub extern "C" fn nodes_sort(ns: &mut [Node], i: usize)
    ensures { ns.new ≡ changed_in merge_sort ns.old i }
{
    nodes::nodes_sort(ns, i);
}

// An exchange that keeps an order gives it up.
#[unsafe(no_mangle)]
pub extern "C" fn nodes_relax(ns: &mut [Node], i: usize)
    ensures { ns.new ≡ changed_in relaxed_or ns.old i }
{
    nodes::nodes_relax(ns, i);
}

// A union dealt in turn.
#[unsafe(no_mangle)]
pub extern "C" fn nodes_interleave(ns: &mut [Node], i: usize)
    ensures { ns.new ≡ changed_in interleaved ns.old i }
{
    nodes::nodes_interleave(ns, i);
}

// The count and the order of a child that was split.
#[unsafe(no_mangle)]
pub extern "C" fn nodes_split(ns: &mut [Node], i: usize, count: u64, order: u64)
    ensures { ns.new ≡ changed_in (split_operator (split_row count order)) ns.old i }
{
    nodes::nodes_split(ns, i, count, order);
}
