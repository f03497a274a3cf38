// The step of one child: split at its source, then what its need asks: a merge, a keyed exchange or a round robin on top.
ghost use Rattle.std.specs.Prelude.{◌≡◌, Bool, cond, ◌&&◌, List, map, ◌≤◌, length, take};
ghost use Rattle.std.proofs.Math.Option.{some};
ghost use Rattle.exchange.specs.Trees.{Operator};
ghost use Rattle.exchange.specs.Settings.{is_set as is_set_mark};
ghost use Rattle.exchange.specs.Forms.{form_number, form_of, with_top};
ghost use Rattle.exchange.specs.Found.{row_for};
ghost use Rattle.exchange.specs.Facts.{NodeFacts};
ghost use Rattle.exchange.specs.States.{Child};
ghost use Rattle.exchange.specs.Status.{status_of, get_repartition_requirement_status};
ghost use Rattle.exchange.specs.Step.{add_roundrobin, add_merge_on_top, add_hash_on_top, add_roundrobin_on_top, satisfy_distribution, ensure_child, ensure_children};
ghost use Rattle.exchange.specs.FactRows.{child_facts, fact_row, child_at, children_for};
ghost use Rattle.exchange.specs.Standings.{worked_for, node_for, state_for, status_by, standing_at, formed, Passed, SameNode, SameChild, SameChildren, resulting, form_list, each_form};

use exchange::fact::{COUNT, ChildForm, Fact, FactRows};
use exchange::form::{
    PLAIN, SPLIT, TOP_KEYED, TOP_MERGE, TOP_ROUND_ROBIN, form_of, relationship_of, split_of,
};
use exchange::lists::Asks;
use exchange::mark::is_set;
use exchange::need;
use exchange::partitioning::{Standing, Worked};
use exchange::settings::Settings;
use exchange::status::{Asked, RepartitionRequirementStatus, SPLITS};
use needs::partitioning::{add_roundrobin, needs_hash_repartition};
use needs::status::{get_repartition_requirement_status, needs_alignment};

// The worked node whose children take their steps: whether any of them asks to be hashed alike, and their X rows.
#[derive(Clone, Copy)]
struct Stepping<'a> {
    settings: Settings,
    worked: Worked,
    aligned: bool,
    xs: FactRows<'a>,
}

// A child on its way: its number from 1, what is asked of it, and how it stands.
#[derive(Clone, Copy)]
struct ChildState {
    number: u64,
    asked: Asked,
    standing: Standing,
    ghost within: { (1 ≤ number) × (number ≤ 8) × (standing.form ≤ 15) },
}

// Its form with another top.
fn with_top(c: ChildState, top: u64) -> ChildForm
    requires { top ≤ 3 }
    ensures child { result.child ≡ c.number }
    ensures form { result.form ≡ form_number (with_top top (form_of c.standing.form)) }
{
    let form = c.standing.form;
    ChildForm {
        child: c.number,
        form: form_of(split_of(form), top, relationship_of(form)),
    }
}

// A child passes into a form, whose row it needs.
pub(crate) fn pass(xs: FactRows, c: ChildForm) -> Option<u64>
    ensures { Passed c.child c.form (map fact_row xs.entry.rows.now) result }
{
    let Fact::Row { place: _ } = xs.fact_row(c) else {
        return None;
    };
    Some(c.form)
}

// A merge where there is more than one partition.
fn add_merge_on_top(c: ChildState, xs: FactRows) -> Option<u64>
    ensures { result ≡ formed (add_merge_on_top (map fact_row xs.entry.rows.now) (state_for c.number c.asked c.standing)) }
{
    if c.standing.count <= 1 {
        return Some(c.standing.form);
    }
    pass(xs, with_top(c, TOP_MERGE))
}

// A keyed exchange.
fn add_hash_on_top(c: ChildState, xs: FactRows) -> Option<u64>
    ensures { result ≡ formed (add_hash_on_top (map fact_row xs.entry.rows.now) (state_for c.number c.asked c.standing)) }
{
    pass(xs, with_top(c, TOP_KEYED))
}

// A round robin where there are fewer partitions than the target.
fn add_roundrobin_on_top(target: u64, c: ChildState, xs: FactRows) -> Option<u64>
    ensures { result ≡ formed (add_roundrobin_on_top (map fact_row xs.entry.rows.now) target (state_for c.number c.asked c.standing)) }
{
    if target <= c.standing.count {
        return Some(c.standing.form);
    }
    pass(xs, with_top(c, TOP_ROUND_ROBIN))
}

// A child of an unspecified need: a round robin, where it is wanted.
fn satisfy_unspecified(w: Stepping, t: RepartitionRequirementStatus, c: ChildState) -> Option<u64>
    ensures { result ≡ formed (cond (add_roundrobin w.entry.settings (worked_for w.entry.worked) (node_for w.entry.worked) (status_by (child_at c.number c.asked) t)) (add_roundrobin_on_top (map fact_row w.entry.xs.rows.now) w.entry.settings.target (state_for c.number c.asked c.standing)) (some (state_for c.number c.asked c.standing))) }
{
    if add_roundrobin(w.settings, w.worked, c.asked, t) {
        return add_roundrobin_on_top(w.settings.target, c, w.xs);
    }
    Some(c.standing.form)
}

// By the need: single, keyed, unspecified.
fn satisfy_distribution(w: Stepping, t: RepartitionRequirementStatus, c: ChildState) -> Option<u64>
    ensures { result ≡ formed (satisfy_distribution w.entry.settings (worked_for w.entry.worked) (node_for w.entry.worked) (map fact_row w.entry.xs.rows.now) (status_by (child_at c.number c.asked) t) (state_for c.number c.asked c.standing)) }
{
    let a = c.asked;
    if a.need == need::SINGLE {
        return add_merge_on_top(c, w.xs);
    }
    if a.need != need::KEYED {
        return satisfy_unspecified(w, t, c);
    }
    if !t.hash_necessary || !needs_hash_repartition(w.settings, w.worked, a, c.standing) {
        return Some(c.standing.form);
    }
    add_hash_on_top(c, w.xs)
}

// Split where the settings allow it, its rows gain and its source can be.
fn splits_at_source(s: Settings, t: RepartitionRequirementStatus, a: Asked) -> bool
    ensures { result ≡ (is_set_mark s.split && (t.roundrobin_beneficial_stats && is_set_mark (child_facts a.facts).splits)) }
{
    is_set(s.split) && t.roundrobin_beneficial_stats && is_set(a.facts[SPLITS])
}

// A child in a form, whose row it needs; its count is the row's.
fn standing_in(xs: FactRows, c: ChildForm) -> Option<Standing>
    ensures { result ≡ standing_at xs.entry.rows.now c.form (row_for xs.entry.rows.now c.child c.form) }
{
    let Fact::Row { place } = xs.fact_row(c) else {
        return None;
    };
    let row = xs.rows[place];
    Some(Standing {
        form: c.form,
        count: row[COUNT],
        row,
    })
}

// The form of the child of that number after its step.
fn ensure_child(w: Stepping, number: u64, a: Asked) -> Option<u64>
    requires numbered { (1 ≤ number) × (number ≤ 8) }
    ensures { (o : Operator) (b : NodeFacts) (k : Child) → SameNode w.entry.worked o b → SameChild number a k → result ≡ formed (ensure_child w.entry.settings o b (map fact_row w.entry.xs.rows.now) (status_of w.entry.settings w.entry.aligned k)) }
{
    let t = get_repartition_requirement_status(w.settings, w.aligned, a);
    let plain = ChildForm {
        child: number,
        form: PLAIN,
    };
    let unsplit = standing_in(w.xs, plain)?;
    if !splits_at_source(w.settings, t, a) {
        let standing = Standing {
            count: a.count,
            ..unsplit
        };
        let c = ChildState {
            number,
            asked: a,
            standing,
        };
        return satisfy_distribution(w, t, c);
    }
    let split = ChildForm {
        child: number,
        form: SPLIT,
    };
    let standing = standing_in(w.xs, split)?;
    let cut = ChildState {
        number,
        asked: a,
        standing,
    };
    satisfy_distribution(w, t, cut)
}

// The forms of the children after their steps, one after the other.
// That there are as many forms as asks stays a clause, as `Asks` says.
fn ensure_each(w: Stepping, asks: Asks, forms: &mut [u64]) -> Option<()>
    requires { length forms.old ≡ length asks.list.now }
    ensures { resulting result forms.new ≡ each_form (λ k. formed (ensure_child w.entry.settings (worked_for w.entry.worked) (node_for w.entry.worked) (map fact_row w.entry.xs.rows.now) (status_of w.entry.settings w.entry.aligned k))) (children_for 1 asks.entry.list.now) }
{
    for (i, a) in asks.list.iter().enumerate() {
        // No From goes from usize to u64.
        forms[i] = ensure_child(w, i as u64 + 1, *a)?;
    }
    Some(())
}

// The forms of the children after their steps, a place for each or more.
// That there are at least as many places as asks stays a clause, as `Asks` says.
pub(crate) fn ensure_children(
    s: Settings,
    w: Worked,
    asks: Asks,
    xs: FactRows,
    forms: &mut [u64],
) -> Option<()>
    requires { length asks.list.now ≤ length forms.old }
    ensures { (o : Operator) (b : NodeFacts) (ks : List Child) → SameNode w o b → SameChildren 1 asks.entry.list.now ks → resulting result (take (length asks.entry.list.now) forms.new) ≡ form_list (ensure_children s o b (map fact_row xs.entry.rows.now) (get_repartition_requirement_status s ks)) }
{
    let stepping = Stepping {
        settings: s,
        worked: w,
        aligned: needs_alignment(s, asks.list),
        xs,
    };
    let forms = &mut forms[..asks.list.len()];
    ensure_each(stepping, asks, forms)
}
