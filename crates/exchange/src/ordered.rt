// A child's tree after its order handling, written as rows.
ghost use Rattle.std.specs.Prelude.{◌≡◌, length};
ghost use Rattle.exchange.specs.Rows.{operator_of};
ghost use Rattle.exchange.specs.Runs.{Ready, Maps};
ghost use Rattle.exchange.specs.Handling.{given_up, sorted_by, handled_by};

use crate::order::Handling;
use crate::row::{self, Place, Row, Step};
use crate::settled::Settled;
use crate::{operator, replace};

// The tree that stands there, its order-preserving operators replaced or not.
fn put_given_up(replaced: bool, src: Place, dst: &mut [Row], to: usize) -> Step
    requires { Ready (given_up replaced) src.rows.now src.at (length dst.old) to }
    ensures { Maps (given_up replaced) src.entry.rows.now src.entry.at dst.old to dst.new result }
{
    if replaced {
        return replace::replace_order_preserving_variants(src.rows, src.at, dst, to);
    }
    row::copy_tree(src, dst, to)
}

// The same below a sort by the handling's entries, if there are any, with the limit of `limiting`.
fn add_sort_above(h: Handling, limiting: Settled, src: Place, dst: &mut [Row], to: usize) -> Step
    requires { Ready (sorted_by h.entries (operator_of limiting.node).limit h.replaced) src.rows.now src.at (length dst.old) to }
    ensures { Maps (sorted_by h.entries (operator_of limiting.node).limit h.replaced) src.entry.rows.now src.entry.at dst.old to dst.new result }
{
    if h.entries == 0 {
        return put_given_up(h.replaced, src, dst, to);
    }
    let s = put_given_up(h.replaced, src, &mut *dst, to + 1);
    let under = row::node_at(&*dst, to + 1);
    row::put_node(
        &mut *dst,
        to,
        operator::required_sort(limiting, h.entries, under),
        1,
    );
    s
}

// The child's tree, by what its order handling is.
pub fn put_handled(h: Handling, limiting: Settled, src: Place, dst: &mut [Row], to: usize) -> Step
    requires { Ready (handled_by h (operator_of limiting.node).limit) src.rows.now src.at (length dst.old) to }
    ensures { Maps (handled_by h (operator_of limiting.node).limit) src.entry.rows.now src.entry.at dst.old to dst.new result }
{
    let s = add_sort_above(h, limiting, src, &mut *dst, to);
    if h.cleared {
        row::set_mark(&mut *dst, to, 0);
    }
    s
}
