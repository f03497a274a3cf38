// The tree of a child in its form: its new operators, its root, split or not, and what is below it as it stands.
ghost use Rattle.std.specs.Prelude.{◌≡◌, map, ◌+◌, ◌≤◌, length};
ghost use Rattle.exchange.specs.FactRows.{fact_row};
ghost use Rattle.exchange.specs.Forms.{form_of};
ghost use Rattle.exchange.specs.Rows.{node_of, operator_of};
ghost use Rattle.exchange.specs.Runs.{Ready, Maps};
ghost use Rattle.exchange.specs.Built.{row_in, top_operator, built_root, built_top, under_relationship, built_relationship, top_rows, new_rows, built_rows, built, Put};

use crate::fact::{ChildForm, Fact, FactRow, FactRows, WIDTH};
use crate::form::{
    SPLIT, TOP_KEYED, TOP_MERGE, TOP_NONE, form_of, relationship_of, split_of, top_of,
};
use crate::kind;
use crate::mark::is_set;
use crate::operator::{new_exchange, new_merge, split_operator};
use crate::row::{self, Node, Place, Row, Step};
use crate::settled::Settled;

// The row of a child in a form, or one of zeros. Here and below the X rows and the child in its form stay two: the rows are all children's.
pub fn row_in(xs: FactRows, c: ChildForm) -> FactRow
    ensures { fact_row result ≡ row_in (map fact_row xs.entry.rows.now) c.child (form_of c.form) }
{
    let Fact::Row { place } = xs.fact_row(c) else {
        return [0; WIDTH];
    };
    xs.rows[place]
}

// The root of the child's tree.
fn built_root(xs: FactRows, c: ChildForm, o: Settled) -> Settled
    ensures { result.node ≡ node_of (built_root (map fact_row xs.entry.rows.now) c.child (form_of c.form) (operator_of o.node)) }
{
    if !is_set(split_of(c.form)) {
        return o;
    }
    let split = ChildForm {
        child: c.child,
        form: SPLIT,
    };
    Settled {
        node: split_operator(row_in(xs, split), o),
    }
}

// A merge, a keyed exchange or a round robin.
fn top_operator(top: u64, x: FactRow, under: Node) -> Node
    ensures { result ≡ node_of (top_operator top (fact_row x) (operator_of under)) }
{
    if top == TOP_MERGE {
        return new_merge(x, under);
    }
    if top == TOP_KEYED {
        return new_exchange(kind::KEYED, x, under);
    }
    new_exchange(kind::ROUND_ROBIN, x, under)
}

fn built_top(xs: FactRows, c: ChildForm, root: Node) -> Node
    ensures { result ≡ node_of (built_top (map fact_row xs.entry.rows.now) c.child (form_of c.form) (operator_of root)) }
{
    let top = top_of(c.form);
    let before = ChildForm {
        child: c.child,
        form: form_of(split_of(c.form), top, 0),
    };
    top_operator(top, row_in(xs, before), root)
}

// What stands topmost before a relationship exchange.
fn under_relationship(xs: FactRows, c: ChildForm, root: Settled) -> Node
    ensures { result ≡ node_of (under_relationship (map fact_row xs.entry.rows.now) c.child (form_of c.form) (operator_of root.node)) }
{
    if top_of(c.form) == TOP_NONE {
        return root.node;
    }
    built_top(xs, c, root.node)
}

fn built_relationship(xs: FactRows, c: ChildForm, root: Settled) -> Node
    ensures { result ≡ node_of (built_relationship (map fact_row xs.entry.rows.now) c.child (form_of c.form) (operator_of root.node)) }
{
    let under = under_relationship(xs, c, root);
    new_exchange(kind::KEYED, row_in(xs, c), under)
}

// Writes the top operator, and returns the place past it.
fn put_top(xs: FactRows, c: ChildForm, root: Node, dst: &mut [Row], to: usize) -> usize
    requires root_in_bounds { to + length (top_rows (map fact_row xs.rows.now) c.child (form_of c.form) (operator_of root)) ≤ length dst.old }
    ensures { Put to (top_rows (map fact_row xs.entry.rows.now) c.child (form_of c.form) (operator_of root)) dst.old dst.new result }
{
    if top_of(c.form) == TOP_NONE {
        return to;
    }
    row::put_node(dst, to, built_top(xs, c, root), 1);
    to + 1
}

// Writes the operators above the root, and returns the place past them.
fn put_new(xs: FactRows, c: ChildForm, root: Settled, dst: &mut [Row], to: usize) -> usize
    requires root_in_bounds { to + length (new_rows (map fact_row xs.rows.now) c.child (form_of c.form) (operator_of root.node)) ≤ length dst.old }
    ensures { Put to (new_rows (map fact_row xs.entry.rows.now) c.child (form_of c.form) (operator_of root.node)) dst.old dst.new result }
{
    if !is_set(relationship_of(c.form)) {
        return put_top(xs, c, root.node, dst, to);
    }
    row::put_node(&mut *dst, to, built_relationship(xs, c, root), 1);
    put_top(xs, c, root.node, dst, to + 1)
}

// Writes the rows that the form makes of a child's root, and returns the place past them.
fn put_built(
    xs: FactRows,
    c: ChildForm,
    o: Settled,
    children: u64,
    dst: &mut [Row],
    to: usize,
) -> usize
    requires { to + length (built_rows (map fact_row xs.rows.now) c.child (form_of c.form) (operator_of o.node) children) ≤ length dst.old }
    ensures { Put to (built_rows (map fact_row xs.entry.rows.now) c.child (form_of c.form) (operator_of o.node) children) dst.old dst.new result }
{
    let root = built_root(xs, c, o);
    let next = put_new(xs, c, root, &mut *dst, to);
    row::put_node(&mut *dst, next, root.node, children);
    next + 1
}

// Writes the tree of the child that stands there, as its form has it.
pub fn build_child(xs: FactRows, c: ChildForm, src: Place, dst: &mut [Row], to: usize) -> Step
    requires ready { Ready (built (map fact_row xs.rows.now) c.child (form_of c.form)) src.rows.now src.at (length dst.old) to }
    ensures { Maps (built (map fact_row xs.entry.rows.now) c.child (form_of c.form)) src.entry.rows.now src.entry.at dst.old to dst.new result }
{
    let o = Settled {
        node: row::node_at(src.rows, src.at),
    };
    let children = row::children_at(src.rows, src.at);
    let next = put_built(xs, c, o, children, &mut *dst, to);
    let below = Place {
        at: src.at + 1,
        ..src
    };
    row::copy_trees(below, children, dst, next)
}
