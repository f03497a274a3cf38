// An aggregate's group names in the order that a requirement asks. Ports `reorder_aggregate_keys`.
ghost use Rattle.std.specs.Prelude.{◌≡◌, ◌++◌, ◌+◌, ◌<◌, ◌≤◌, eqb, length, take, IfSome};
ghost use Rattle.keys.specs.Expressions.{same_expr, placeholder, expressions};
ghost use Rattle.keys.specs.Lists.{place_of, expected_expr_positions, permute};
ghost use Rattle.keys.specs.Adjust.{columns_from, name_places, regrouped, regrouped_by, reorder_aggregate_keys, aggregate};
ghost use Rattle.keys.specs.Arrange.{Below};
ghost use Rattle.keys.specs.Values.{numbers, found, positions_of};
ghost use Rattle.adjust.specs.Sheets.{IsRegrouped};

use crate::sheet::AggregateSheet;
use keys::answer::{Adjusted, Handed, Outcome};
use keys::codes::AggregateMode;
use keys::expr::{COLUMN, Expr};
use keys::list::{NumberList, permute};
use keys::reorder::expected_expr_positions;

// The column that each group name stands for: kind 0, the name, its place.
fn group_columns<'a>(groups: &[u64], out: &'a mut [u64; 32]) -> &'a [u64]
    requires { (length groups.now ≤ 32) × Below 65536 groups.now }
    ensures { expressions result.now ≡ columns_from 0 groups.now }
{
    for (i, &name) in groups.iter().enumerate() {
        // No From goes from usize to u64.
        out[i] = Expr::pack(COLUMN, name, i as u64).number;
    }
    &out[..groups.len()]
}

// The first place of a name among fields.
fn find(fields: &[u64], name: u64) -> Option<usize>
    ensures place { found result ≡ place_of eqb name fields.now }
    ensures within { IfSome result (λ p. p < length fields.now) }
{
    fields.iter().position(|&field| field == name)
}

// The first place of a name among the moved group names and, after them, the aggregate names.
// One search of the chain of both takes up to twice the time, where names are found late.
fn find_field(moved: &[u64], aggregates: &[u64], name: u64) -> Option<usize>
    requires { (length moved.now ≤ 32) × (length aggregates.now ≤ 32) }
    ensures place { found result ≡ place_of eqb name (moved.now ++ aggregates.now) }
    ensures within { IfSome result (λ p. p < 64) }
{
    if let Some(p) = find(moved, name) {
        return Some(p);
    }
    Some(moved.len() + find(aggregates, name)?)
}

// The first place of each group name; none where one is not found.
fn name_places(moved: &[u64], aggregates: &[u64], names: &[u64]) -> Option<NumberList>
    requires { (length moved.now ≤ 32) × (length aggregates.now ≤ 32) × (length names.now ≤ 32) }
    ensures { positions_of result ≡ name_places (moved.now ++ aggregates.now) names.now }
{
    let mut items = [0u8; 32];
    for (i, &name) in names.iter().enumerate() {
        let p = find_field(moved, aggregates, name)?;
        // No From goes from usize to u8, and a place below 64 fits.
        items[i] = p as u8;
    }
    Some(NumberList::new(items, names.len()))
}

// The aggregate acts: the names of the moved groups, and where each group name is found again.
fn regroup(sheet: &AggregateSheet<'_>, at: NumberList) -> Option<Adjusted>
    ensures { IsRegrouped sheet.now (λ t. regrouped same_expr t (numbers at) (name_places (permute 0 t.groups (numbers at) ++ t.aggregates) t.groups)) result }
{
    let mut room = [0u64; 32];
    permute(0, sheet.groups, at.positions(), &mut room);
    let places = name_places(&room[..at.count], sheet.aggregates, sheet.groups)?;
    Some(Adjusted {
        outcome: Outcome::Regrouped { at, places },
        cleared: true,
        first: Handed::Cleared,
        others: Handed::Kept,
    })
}

// Where the group names stand for other columns than R asks, in another order: their order, as R asks.
fn regroup_by(sheet: &AggregateSheet<'_>, columns: &[u64]) -> Option<Adjusted>
    requires { expressions columns.now ≡ columns_from 0 sheet.now.groups.now }
    ensures { IsRegrouped sheet.now (λ t. regrouped_by same_expr t (expected_expr_positions same_expr placeholder (columns_from 0 t.groups) t.required)) result }
{
    match expected_expr_positions(columns, sheet.required) {
        Some(at) if sheet.operator.partial => regroup(sheet, at),
        _ => Some(Adjusted::passed(Handed::Kept, Handed::Kept)),
    }
}

fn reorder_aggregate_keys(sheet: &AggregateSheet<'_>) -> Option<Adjusted>
    ensures { IsRegrouped sheet.now (reorder_aggregate_keys same_expr) result }
{
    if sheet.required.len() != sheet.groups.len() || !sheet.operator.plain {
        return Some(Adjusted::passed(Handed::Kept, Handed::Kept));
    }
    let mut room = [0u64; 32];
    let columns = group_columns(sheet.groups, &mut room);
    if columns == sheet.required {
        return Some(Adjusted::passed(Handed::Kept, Handed::Kept));
    }
    regroup_by(sheet, columns)
}

pub fn aggregate(sheet: &AggregateSheet<'_>) -> Option<Adjusted>
    ensures { IsRegrouped sheet.now (aggregate same_expr) result }
{
    if sheet.required.is_empty() {
        return Some(Adjusted::unchanged());
    }
    match AggregateMode::from(sheet.operator.mode) {
        AggregateMode::FinalPartitioned => reorder_aggregate_keys(sheet),
        AggregateMode::Other => Some(Adjusted::cleared()),
    }
}
