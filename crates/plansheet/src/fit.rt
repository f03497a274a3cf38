// Whether X rows and Y masks fit the tree: refusal 8.
ghost use Rattle.std.specs.Prelude.{◌≡◌, List, ◌++◌, map, ℕ, ◌+◌, ◌≤◌, ◌<◌, length, take, drop};
ghost use Rattle.exchange.specs.Trees.{node, trees, Operator, Plans};
ghost use Rattle.exchange.specs.declared.settings.Settings.{Settings};
ghost use Rattle.exchange.specs.Facts.{NodeFacts};
ghost use Rattle.exchange.specs.FactRows.{child_facts, fact_row};
ghost use Rattle.exchange.specs.Rows.{flattens};
ghost use Rattle.exchange.specs.Runs.{StandAll};
ghost use Rattle.exchange.specs.Found.{index_of};
ghost use Rattle.exchange.specs.Fit.{within_bits, all_within_bits, worked_fits};
ghost use Rattle.plansheet.specs.FitRows.{count_fits_by, child_fits_by, row_fits_by, fact_rows_fit, Placed, found_at};

use exchange::fact::{CHILD, CONST, COUNT, ChildForm, FORM, Fact, FactRow, FactRows, ORDER};
use exchange::form::{TOP_KEYED, TOP_MERGE, relationship_of, split_of, top_of};
use exchange::mark::is_set;
use exchange::places::child_places;
use exchange::row::{Row, node_at};
use exchange::status::{ChildRow, ENTRIES};

const LAST_FORM: u64 = 15;

// No bit of the mask beyond the first n.
fn within_bits(n: u64, mask: u64) -> bool
    ensures { result ≡ within_bits n mask }
{
    n >= u64::from(u64::BITS) || mask >> n == 0
}

// The same of every mask.
fn masks_fit(n: u64, masks: &[u64]) -> bool
    ensures { result ≡ all_within_bits n masks.now }
{
    masks.iter().all(|mask| within_bits(n, *mask))
}

// The count of a row by what is topmost in its form; of a child as it stands, its own count and order.
fn count_fits(target: u64, form: u64, count: u64, order: u64, own: u64, sorted: u64) -> bool
    ensures { result ≡ count_fits_by target form count order own sorted }
{
    let top = top_of(form);
    if is_set(relationship_of(form)) || TOP_KEYED <= top {
        return count == target;
    }
    if top == TOP_MERGE {
        return count == 1;
    }
    is_set(split_of(form)) || count == own && order == sorted
}

// A row of the child whose tree stands at a place and whose F row is f.
fn child_fits(target: u64, rows: &[Row], x: FactRow, place: usize, f: ChildRow) -> bool
    requires { place < length rows.now }
    ensures { result ≡ child_fits_by target rows.now x place f }
{
    let child = node_at(rows, place);
    count_fits(
        target,
        x[FORM],
        x[COUNT],
        x[ORDER],
        child.count,
        child.order,
    ) && within_bits(f[ENTRIES], x[CONST])
}

// A row of a known form of a known child.
fn row_fits(target: u64, rows: &[Row], places: &[usize], facts: &[ChildRow], x: FactRow) -> bool
    requires { (length facts.now ≡ length places.now) × Placed rows.now places.now }
    ensures { result ≡ row_fits_by target rows.now places.now facts.now x }
{
    if LAST_FORM < x[FORM] || x[CHILD] < 1 {
        return false;
    }
    // No From goes from u64 to usize.
    let i = (x[CHILD] - 1) as usize;
    i < places.len() && child_fits(target, rows, x, places[i], facts[i])
}

// Whether the row was found at that place.
fn found_at(f: Fact, i: usize) -> bool
    ensures { result ≡ found_at f i }
{
    match f {
        Fact::Row { place } => place == i,
        Fact::Missing => false,
    }
}

// Every row fits, and is the first of its child and form.
fn rows_fit(target: u64, rows: &[Row], places: &[usize], facts: &[ChildRow], xs: FactRows) -> bool
    requires { (length facts.now ≡ length places.now) × (length places.now ≤ 8) × Placed rows.now places.now }
    ensures { result ≡ fact_rows_fit target rows.now places.now facts.now xs.entry.rows.now }
{
    for (i, x) in xs.rows.iter().enumerate() {
        if !row_fits(target, rows, places, facts, *x) {
            return false;
        }
        let at = ChildForm {
            child: x[CHILD],
            form: x[FORM],
        };
        if !found_at(xs.fact_row(at), i) {
            return false;
        }
    }
    true
}

// Whether the X rows and the masks fit the tree whose worked node stands at `worked`; each of its children has an F row.
pub(crate) fn facts_fit(
    target: u64,
    rows: &[Row],
    worked: usize,
    facts: &[ChildRow],
    xs: FactRows,
    masks: &[u64],
) -> bool
    requires stand_all { StandAll rows.now (worked + 1) (length facts.now) }
    requires stands { (worked < length rows.now) × (length facts.now ≤ 8) }
    ensures { (s : Settings) (o : Operator) (b : NodeFacts) (ts : Plans) (rest : List (List ℕ)) → s.target ≡ target → trees ts ≡ length facts.now → drop (worked + 1) rows.now ≡ flattens ts ++ rest → result ≡ worked_fits s (record { node = b; children = map child_facts facts.now; rows = map fact_row xs.entry.rows.now; masks = masks.now }) (node o ts) }
{
    let mut room = [0usize; 8];
    let places = &mut room[..facts.len()];
    child_places(rows, worked + 1, &mut *places);
    // A mask's bits are counted by a u64, and no From goes there from usize.
    rows_fit(target, rows, &*places, facts, xs) && masks_fit(facts.len() as u64, masks)
}
