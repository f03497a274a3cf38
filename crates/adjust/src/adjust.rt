// What a requirement on an operator's output asks of its keys and of its children. Ports `adjust_input_keys_ordering` and what it calls.
ghost use Rattle.std.specs.Prelude.{◌≡◌, Some, List, ℕ, ◌≤◌, length, take};
ghost use Rattle.keys.specs.Expressions.{Expression, same_expr, expressions};
ghost use Rattle.keys.specs.Adjust.{shift_right_required, reorder_partitioned_join_keys};
ghost use Rattle.keys.specs.Adjust.{collect_left, hash_join, cross_join, projection, other, adjust_input_keys_ordering, cleared};
ghost use Rattle.keys.specs.Answers.{key_sheet, adjusted_of};
ghost use Rattle.adjust.specs.Sheets.{IsDecided};

use crate::aggregate::aggregate;
use crate::sheet::{AggregateSheet, Sheet};
use keys::answer::{Adjusted, Handed, Operator, Outcome};
use keys::codes::{HashMode, Join, Op};
use keys::expr::{COLUMN, Expr};
use keys::reorder::{Pairs, try_reorder};

// The index less `columns` in every key, in the front of the room lent, and how many there are; none where one is no column or its index too small.
pub fn shift_right_required(required: &[u64], columns: u64, out: &mut [u64; 32]) -> usize
    requires { length required.now ≤ 32 }
    ensures few { result ≤ 32 }
    ensures shifted { expressions (take result out.new) ≡ shift_right_required columns (expressions required.now) }
{
    for (i, &number) in required.iter().enumerate() {
        let key = Expr { number };
        if key.kind() != COLUMN || key.index() < columns {
            return 0;
        }
        out[i] = number - columns;
    }
    required.len()
}

// The second child's list is R shifted.
fn cross_join(sheet: &Sheet<'_>) -> Adjusted
    ensures { IsDecided sheet.now (cross_join same_expr) (Some result) }
{
    Adjusted::passed(Handed::Kept, Handed::Shifted)
}

fn collect_left(sheet: &Sheet<'_>) -> Adjusted
    ensures { IsDecided sheet.now (collect_left same_expr) (Some result) }
{
    match Join::from(sheet.operator.join) {
        Join::Inner | Join::Right => cross_join(sheet),
        Join::RightSemi | Join::RightAnti | Join::RightMark => {
            Adjusted::passed(Handed::Kept, Handed::Required)
        }
        Join::Other => Adjusted::passed(Handed::Kept, Handed::Cleared),
    }
}

// The pairs and their directions in the order that the requirement asks.
pub fn reorder_partitioned_join_keys(rewriting: &[[u64; 2]], pairs: Pairs<'_>) -> Adjusted
    ensures { (k : Operator) (s o a m : List ℕ) (cs : List (List Expression)) → let t = key_sheet k pairs.entry.required.now pairs.entry.left.now pairs.entry.right.now s rewriting.now o a m cs in adjusted_of t (Some result) ≡ reorder_partitioned_join_keys same_expr t }
{
    let tried = try_reorder(rewriting, pairs);
    Adjusted {
        outcome: Outcome::Tried(tried),
        cleared: false,
        first: Handed::Keys,
        others: Handed::Keys,
    }
}

// The same of a sheet.
fn join_keys(sheet: &Sheet<'_>) -> Adjusted
    ensures { IsDecided sheet.now (reorder_partitioned_join_keys same_expr) (Some result) }
{
    let pairs = Pairs {
        required: sheet.required,
        left: sheet.left,
        right: sheet.right,
    };
    reorder_partitioned_join_keys(sheet.rewriting, pairs)
}

fn hash_join(sheet: &Sheet<'_>) -> Adjusted
    ensures { IsDecided sheet.now (hash_join same_expr) (Some result) }
{
    match HashMode::from(sheet.operator.mode) {
        HashMode::Partitioned => join_keys(sheet),
        HashMode::CollectLeft => collect_left(sheet),
        HashMode::Auto => Adjusted::cleared(),
    }
}

fn projection(sheet: &Sheet<'_>) -> Adjusted
    ensures { IsDecided sheet.now (projection same_expr) (Some result) }
{
    if sheet.mapped.len() == sheet.required.len() {
        return Adjusted::passed(Handed::Mapped, Handed::Kept);
    }
    Adjusted::cleared()
}

fn other(sheet: &Sheet<'_>) -> Adjusted
    ensures { IsDecided sheet.now (other same_expr) (Some result) }
{
    if sheet.required.is_empty() {
        return Adjusted::unchanged();
    }
    Adjusted::passed(Handed::Required, Handed::Required)
}

// None where a group name is not found again among the reordered fields.
pub fn adjust_input_keys_ordering(sheet: &Sheet<'_>) -> Option<Adjusted>
    ensures { IsDecided sheet.now (adjust_input_keys_ordering same_expr) result }
{
    match Op::from(sheet.operator.op) {
        Op::HashJoin => Some(hash_join(sheet)),
        Op::CrossJoin => Some(cross_join(sheet)),
        Op::SortMergeJoin => Some(join_keys(sheet)),
        Op::Aggregate => aggregate(&AggregateSheet {
            operator: sheet.operator,
            required: sheet.required,
            groups: sheet.groups,
            aggregates: sheet.aggregates,
        }),
        Op::Projection => Some(projection(sheet)),
        Op::Clearing => Some(Adjusted::cleared()),
        Op::Other => Some(other(sheet)),
    }
}
