// Reads an operator's line straight into its row, where the description allows that and nothing in the line is unusual.
ghost use Rattle.std.specs.Prelude.{◌≡◌, true, ◌≤◌, ◌<◌, length};
ghost use Rattle.plansheet.specs.Shapes.{rule_fits};
ghost use Rattle.plansheet.specs.PlainTrees.{Wide, PlainCodes, PlainShape, OperatorFits, OperatorRead};

use crate::description::{LineShape, TreeShape};
use exchange::row::{CHILDREN, ID, KEEPS, KIND, NEED, Row, TRACKED};
use linekinds::bounds::{MOST_CHILDREN, PLAIN};
use numberlines::operator::operator_at;
use numberlines::row::Unread;

// Whether no bound is below a plain field's largest number.
fn wide_bounds(bounds: &[[u64; 2]]) -> bool
    ensures { result ≡ true → Wide bounds.now }
{
    bounds.iter().all(|bound| PLAIN <= bound[1])
}

// Whether the codes turn a line of plain numbers without a limit back only at its keeps, tracked and need.
fn plain_codes(codes: &[u64]) -> bool
    ensures { result ≡ true → PlainCodes codes.now }
{
    codes.len() == TreeShape::CHILDREN
        && PLAIN <= codes[TreeShape::KIND]
        && PLAIN <= codes[TreeShape::COUNT]
        && PLAIN <= codes[TreeShape::ORDER]
}

// Whether such a line is within the bounds, and has no most and no code but at those three.
fn plain_shape(h: LineShape) -> bool
    ensures { result ≡ true → PlainShape h.entry.letter h.entry.bounds.now h.entry.sizes.now h.entry.codes.now }
{
    h.letter != b'\n'
        && h.bounds.len() == TreeShape::WIDTH
        && h.bounds[TreeShape::LIMIT][0] == 1
        && h.sizes.is_empty()
        && wide_bounds(h.bounds)
        && plain_codes(h.codes)
}

// How many rows may be read quickly: none, or those for which there is room.
pub(crate) fn quick_rows(h: LineShape, most: usize, room: usize) -> usize
    ensures { (0 < result → PlainShape h.entry.letter h.entry.bounds.now h.entry.sizes.now h.entry.codes.now) × (result ≤ most) × (result ≤ room) }
{
    if !plain_shape(h) {
        return 0;
    }
    most.min(room)
}

// Whether an operator of the kind may have so many children.
pub(crate) fn rule_fits(rules: &[[u64; 2]], kind: u64, children: u64) -> bool
    requires { kind < length rules.now }
    ensures { result ≡ rule_fits rules.now kind children }
{
    // No From goes from u64 to usize.
    let rule = rules[kind as usize];
    rule[0] <= children && children <= rule[1]
}

// Whether the row of such a line has codes and children that it may have.
fn operator_fits(codes: &[u64], rules: &[[u64; 2]], row: &Row) -> bool
    requires { 7 ≤ length codes.now }
    ensures { result ≡ true → OperatorFits codes.now rules.now row.now }
{
    // No From goes from usize to u64.
    let kinds = rules.len() as u64;
    row[KEEPS] <= codes[TreeShape::KEEPS]
        && row[TRACKED] <= codes[TreeShape::TRACKED]
        && row[NEED] <= codes[TreeShape::NEED]
        && row[CHILDREN] <= MOST_CHILDREN
        && row[KIND] < kinds
        && rule_fits(rules, row[KIND], row[CHILDREN])
}

// The line at a place as row `seen`, where nothing in it is unusual: the place of its LF.
pub(crate) fn operator_read(
    s: &[u8],
    at: usize,
    seen: usize,
    h: LineShape,
    rules: &[[u64; 2]],
    row: &mut Row,
) -> Result<usize, Unread>
    requires { (h.letter ≡ 10 → ⊥) × (7 ≤ length h.codes.now) × (seen < 65536) }
    ensures { OperatorRead h.entry.letter s.now at seen h.entry.codes.now rules.now result row.new }
{
    let end = operator_at(s, at, h.letter, &mut *row)?;
    if !operator_fits(h.codes, rules, &*row) {
        return Err(Unread::Unusual);
    }
    // No From goes from usize to u64.
    row[ID] = seen as u64 + 1;
    Ok(end)
}
