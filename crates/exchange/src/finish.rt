// A child's tree in its last form, after order handling.
ghost use Rattle.std.specs.Prelude.{◌≡◌, map, length};
ghost use Rattle.exchange.specs.FactRows.{node_facts, child_facts, fact_row};
ghost use Rattle.exchange.specs.Forms.{form_of};
ghost use Rattle.exchange.specs.Rows.{operator_of};
ghost use Rattle.exchange.specs.Runs.{Ready, Readys, Maps, MapsAll};
ghost use Rattle.exchange.specs.Built.{built};
ghost use Rattle.exchange.specs.Order.{output_fetch};
ghost use Rattle.exchange.specs.LastForm.{finished_child, finished_each, EachFinished, known_by};

use crate::child::{build_child, row_in};
use crate::fact::{self, ChildForm, FactRow};
use crate::facts::{Finishing, Needing, Unfinished};
use crate::order::{Known, handle_order};
use crate::ordered::put_handled;
use crate::row::{self, NO_LIMIT, Node, Place, Row, Step};
use crate::settled::Settled;
use crate::{kind, partitioning, status};

// What is known of a child by its need and F row, the mark on top of it and its X row.
fn known(w: &Finishing<'_>, c: Needing, tracked: u64, x: FactRow) -> Known
    ensures { result ≡ known_by w.now.settings (node_facts w.now.node) w.now.worked.node.kind w.now.children c.need tracked (child_facts c.facts) (fact_row x) }
{
    let b = w.node;
    let f = c.facts;
    Known {
        sort: w.settings.sort,
        friendly: b[partitioning::FRIENDLY],
        kind: w.worked.node.kind,
        children: w.children,
        need: c.need,
        tracked,
        maintains: f[status::MAINTAINS],
        entries: f[status::ENTRIES],
        met: x[fact::MET],
        aftermet: x[fact::AFTERMET],
        constants: x[fact::CONST],
        ford: x[fact::FORD],
        fplain: x[fact::FPLAIN],
    }
}

// The worked node, without its limit unless it is an output requirement.
fn output_fetch(worked: Settled) -> Settled
    ensures { (operator_of result.node).limit ≡ output_fetch (operator_of worked.node) }
{
    if worked.node.kind == kind::OUTPUT_REQUIREMENT {
        return worked;
    }
    Settled {
        node: Node {
            limited: NO_LIMIT,
            limit: 0,
            ..worked.node
        },
    }
}

// Writes the child that stands there as its form and its order handling have it. Its tree is built at the front of `mid` first.
pub fn finish_child(
    w: &Finishing<'_>,
    c: Needing,
    src: Place,
    mid: &mut [Row],
    dst: &mut [Row],
    to: usize,
) -> Step
    requires ready { Ready (built (map fact_row w.now.xs.rows.now) c.at.child (form_of c.at.form)) src.rows.now src.at (length mid.old) 0 }
    requires ready_2 { Ready (finished_child (map fact_row w.now.xs.rows.now) c.at.child (form_of c.at.form) c.need (child_facts c.facts) w.now.settings (node_facts w.now.node) (operator_of w.now.worked.node) w.now.children) src.rows.now src.at (length dst.old) to }
    ensures { Maps (finished_child (map fact_row w.now.xs.rows.now) c.at.child (form_of c.at.form) c.need (child_facts c.facts) w.now.settings (node_facts w.now.node) (operator_of w.now.worked.node) w.now.children) src.entry.rows.now src.entry.at dst.old to dst.new result }
{
    let read = build_child(w.xs, c.at, src, &mut *mid, 0);
    let x = row_in(w.xs, c.at);
    let top = row::node_at(&*mid, 0);
    let h = handle_order(known(w, c, top.tracked, x));
    let built = Place { rows: &*mid, at: 0 };
    let put = put_handled(h, output_fetch(w.worked), built, &mut *dst, to);
    Step {
        at: read.at,
        to: put.to,
    }
}

// The same of the children that are left, one after the other from the place on.
pub fn finish_children(
    w: &Finishing<'_>,
    k: Unfinished,
    src: Place,
    mid: &mut [Row],
    dst: &mut [Row],
    to: usize,
) -> Step
    requires each_finished { EachFinished k.forms.now k.facts.now k.child k.left (length src.rows.now) (length mid.old) }
    requires readys { Readys (finished_each (map fact_row w.now.xs.rows.now) k.forms.now k.facts.now w.now.settings (node_facts w.now.node) (operator_of w.now.worked.node) w.now.children k.child) src.rows.now src.at k.left (length dst.old) to }
    ensures { MapsAll (finished_each (map fact_row w.now.xs.rows.now) k.entry.forms.now k.entry.facts.now w.now.settings (node_facts w.now.node) (operator_of w.now.worked.node) w.now.children k.entry.child) src.entry.rows.now src.entry.at k.entry.left dst.old to dst.new result }
{
    let mut s = Step { at: src.at, to };
    for child in k.child..k.child + k.left {
        // No From goes from u64 to usize.
        let i = (child - 1) as usize;
        let c = Needing {
            at: ChildForm {
                child,
                form: k.forms[i],
            },
            need: row::node_at(src.rows, s.at).need,
            facts: k.facts[i],
        };
        let next = Place { at: s.at, ..src };
        s = finish_child(w, c, next, &mut *mid, &mut *dst, s.to);
    }
    s
}
