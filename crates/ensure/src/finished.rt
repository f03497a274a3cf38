// The answer, once the forms of the worked node's children are known.
ghost use Rattle.std.specs.Prelude.{◌≡◌, cond, ◌&&◌, List, ◌++◌, ℕ, ◌+◌, ◌<◌, ◌≤◌, eqb, length, drop, set, Ok};
ghost use Rattle.exchange.specs.Trees.{root, Plan};
ghost use Rattle.exchange.specs.Settings.{is_set as is_set_mark};
ghost use Rattle.exchange.specs.States.{ChildState};
ghost use Rattle.exchange.specs.Standings.{form_numbers};
ghost use Rattle.exchange.specs.Relationships.{enforced};
ghost use Rattle.exchange.specs.Operators.{mark};
ghost use Rattle.exchange.specs.FactRows.{node_facts};
ghost use Rattle.exchange.specs.Rows.{operator_of, flatten, row_of};
ghost use Rattle.exchange.specs.Ensure.{interleaved, child_states, finished, answered};
ghost use Rattle.ensure.specs.Outcomes.{facts_of, Ends};
ghost use Rattle.ensure.specs.Lent.{Came};

use crate::interleave::becomes_interleave;
use crate::outcome::Answered;
use exchange::facts::{Finishing, PlanFacts, Unfinished};
use exchange::finish::finish_children;
use exchange::kind;
use exchange::lists::Forms;
use exchange::mark::is_set;
use exchange::partitioning::{self, NodeRow};
use exchange::row::{self, Place, Row};
use exchange::settings::Settings;
use exchange::settled::Settled;
use nodes::interleave_one;

// The worked node's row, as an interleave where it becomes one.
fn put_worked(rows: &mut [Row], worked: Settled, children: u64, interleaves: bool)
    requires { 0 < length rows.old }
    ensures { rows.new ≡ set rows.old 0 (row_of (cond interleaves (interleaved (operator_of worked.node)) (operator_of worked.node)) children) }
{
    if interleaves {
        row::put_node(rows, 0, interleave_one(worked.node), children);
        return;
    }
    row::put_node(rows, 0, worked.node, children);
}

// Whether a better window was found, of a worked node that is one.
fn window_mark(kind: u64, b: NodeRow) -> u64
    ensures { result ≡ mark (eqb kind 7 && is_set_mark (node_facts b).window) }
{
    u64::from(kind == kind::WINDOW && is_set(b[partitioning::WINDOW]))
}

// The answer of the worked node that stands there and its children in their forms, at the front of `dst`.
pub(crate) fn finish_worked(
    s: Settings,
    f: PlanFacts,
    forms: &[u64],
    src: Place,
    mid: &mut [Row],
    dst: &mut [Row],
) -> Answered
    requires roomy { length src.rows.now + 2 ≤ length mid.old }
    requires came { Came s (facts_of f) src.rows.now src.at (length f.children.now) forms.now (length dst.old) }
    ensures { (t : Plan) (rest : List (List ℕ)) (cs : List ChildState) → drop src.entry.at src.entry.rows.now ≡ flatten t ++ rest → child_states s (facts_of f.entry) t ≡ enforced cs → forms.now ≡ form_numbers cs → Ends (answered (finished s (facts_of f.entry) (root t) cs)) (Ok result) dst.old dst.new }
{
    let node = row::node_at(src.rows, src.at);
    let k = row::children_at(src.rows, src.at);
    let worked = Settled { node };
    let i = becomes_interleave(s, node.kind, f.xs, Forms { list: forms });
    put_worked(&mut *dst, worked, k, i);
    let w = Finishing {
        settings: s,
        node: f.node,
        xs: f.xs,
        worked,
        children: k,
    };
    let all = Unfinished {
        forms,
        facts: f.children,
        child: 1,
        left: k,
    };
    let at = src.at + 1;
    let below = Place { at, ..src };
    let m = finish_children(&w, all, below, mid, &mut *dst, 1);
    Answered {
        changed: 1,
        window: window_mark(node.kind, f.node),
        interleave: u64::from(i),
        tracked: node.tracked,
        lines: m.to,
    }
}
