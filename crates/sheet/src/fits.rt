// Whether the lists of a sheet fit its operator, by their counts: refusal 5.
ghost use Rattle.std.specs.Prelude.{◌≡◌, ◌≤◌, length};
ghost use Rattle.sheet.specs.KeySheets.{serves};
ghost use Rattle.sheet.specs.ListFits.{direction_counts, pair_counts, key_counts_fit, input_counts, join_counts_fit};

use crate::{join_lines, key_lines};
use keys::codes::Op;
use keys::inputs::order_tried;
use linekinds::bounds::MARK;

// A list that does not serve is empty.
fn serves(b: bool, n: usize) -> bool
    ensures { result ≡ serves b n }
{
    b || n == 0
}

fn directions_fit(op: u64, s: usize, l: usize) -> bool
    ensures { result ≡ direction_counts op s l }
{
    match Op::from(op) {
        Op::SortMergeJoin => s == l,
        _ => s == 0,
    }
}

// The counts of L, G, S and W of a K sheet.
fn pairs_fit(op: u64, mode: u64, l: usize, g: usize, s: usize, w: usize) -> bool
    ensures { result ≡ pair_counts op mode l g s w }
{
    let pairs = order_tried(op, mode);
    l == g && directions_fit(op, s, l) && serves(pairs, l) && serves(pairs, w / 2)
}

// The counts of a K sheet's lines.
#[tactic(auto, unfolding(crate::specs::ListFits::key_counts_fit))]
pub(crate) fn key_lists_fit(op: u64, mode: u64, counts: &[usize]) -> bool
    requires { 9 ≤ length counts.now }
    ensures { result ≡ key_counts_fit op mode counts.now }
{
    pairs_fit(
        op,
        mode,
        counts[key_lines::LEFT],
        counts[key_lines::RIGHT],
        counts[key_lines::DIRECTIONS],
        counts[key_lines::REWRITING],
    ) && serves(Op::from(op) == Op::Aggregate, counts[key_lines::GROUPS])
        && serves(Op::from(op) == Op::Aggregate, counts[key_lines::AGGREGATES])
        && serves(Op::from(op) == Op::Projection, counts[key_lines::MAPPED])
}

// H or N: a mark, and no keys after mark 0.
fn input_fits(mark: u64, n: usize) -> bool
    ensures { result ≡ input_counts mark n }
{
    mark == MARK || n <= 1
}

// The counts of an I sheet's lines, and the marks of H and N.
#[tactic(auto, unfolding(crate::specs::ListFits::join_counts_fit))]
pub(crate) fn join_lists_fit(op: u64, counts: &[usize], h: u64, n: u64) -> bool
    requires { 6 ≤ length counts.now }
    ensures { result ≡ join_counts_fit op counts.now h n }
{
    let left = counts[join_lines::LEFT];
    left == counts[join_lines::RIGHT]
        && directions_fit(op, counts[join_lines::DIRECTIONS], left)
        && input_fits(h, counts[join_lines::LEFT_INPUT])
        && input_fits(n, counts[join_lines::RIGHT_INPUT])
}
