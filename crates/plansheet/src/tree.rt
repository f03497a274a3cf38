// Reads the lines of one tree: the line's description, the rule of kinds and children, the most lines, the place and the line's number are given.
ghost use Rattle.std.specs.Prelude.{◌≡◌, cond, ◌+◌, ◌≤◌, ◌<◌, eqb, length, drop};
ghost use Rattle.refusals.specs.Refusals.{judged_by};
ghost use Rattle.text.specs.Text.{line, line_fields, line_at, after};
ghost use Rattle.text.specs.Read.{stored_in};
ghost use Rattle.linekinds.specs.Lines.{line_number};
ghost use Rattle.linekinds.specs.Reading.{read_by};
ghost use Rattle.plansheet.specs.Shapes.{exchange_limited};
ghost use Rattle.plansheet.specs.PlainTrees.{PlainShape, number_at, tree_row_by, RowStored};
ghost use Rattle.plansheet.specs.PlanSheets.{operator_rows};
ghost use Rattle.plansheet.specs.Described.{tree_by};
ghost use Rattle.plansheet.specs.ReadRows.{tree_number, fields_row, rows_by, Left, run_from};

use crate::description::TreeShape;
use crate::operator::{operator_read, quick_rows, rule_fits};
use crate::place::Place;
use crate::shape::{judge_shape, misfit_refusal};
use exchange::kind::{REPARTITION, REPARTITION_UNKNOWN};
use exchange::row::{CHILDREN, Row};
use linekinds::bounds::MOST_CHILDREN;
use linekinds::line::Read;
use refusals::{Refusal, Refused};
use text::bounds::fixed_at;
use text::field::Field;
use text::store::store;

// A repartition with a limit.
fn exchange_limited(kind: u64, state: u64) -> bool
    ensures { result ≡ exchange_limited kind state }
{
    state != Field::Empty.state() && (kind == REPARTITION || kind == REPARTITION_UNKNOWN)
}

// By a tree line's fields, the lines before it and the place after it.
fn judge_tree(h: TreeShape, seen: usize, next: usize, fields: &[[u64; 2]]) -> Result<(), Refusal>
    requires { 8 ≤ length fields.now }
    ensures { result ≡ judged_by (tree_number h.entry.line.sizes.now h.entry.line.codes.now h.entry.rules.now h.entry.most seen next fields.now) }
{
    let kind = fields[TreeShape::KIND][1];
    let children = fields[TreeShape::CHILDREN][1];
    if exchange_limited(kind, fields[TreeShape::LIMIT][0]) {
        return Err(Refusal::MalformedField);
    }
    if h.most <= seen || MOST_CHILDREN < children {
        return Err(Refusal::BeyondSize);
    }
    judge_shape(h.line.sizes, h.line.codes, next, fields)?;
    // No From goes from usize to u64.
    if h.rules.len() as u64 <= kind {
        return Err(Refusal::UndefinedCode);
    }
    if !rule_fits(h.rules, kind, children) {
        return Err(Refusal::UnfitChildren);
    }
    Ok(())
}

// The tree line at a place, before which there are `seen`; its fields go into the rows lent.
fn tree_line(s: &[u8], at: usize, seen: usize, h: TreeShape, fields: &mut [[u64; 2]]) -> Read
    requires { length h.line.bounds.now ≤ length fields.old }
    ensures answer { result ≡ read_by (line_number (tree_by h.entry) seen (after s.now at) (line_at h.entry.line.letter s.now at)) (after s.now at) (line_at h.entry.line.letter s.now at) }
    ensures stored { fields.new ≡ stored_in fields.old (line_fields h.entry.line.letter (line (drop at s.now))) }
{
    let j = match fixed_at(s, at, h.line.letter, h.line.bounds, fields) {
        Ok(j) => j,
        Err(misfit) => return Read::Refused(misfit_refusal(misfit)),
    };
    if let Err(refusal) = judge_tree(h, seen, j.next, &fields[..j.count]) {
        return Read::Refused(refusal);
    }
    Read::Line {
        count: j.count,
        next: j.next,
    }
}

// A tree line's fields as an operator's row.
fn operator_row(fields: &[[u64; 2]], id: u64) -> Row
    requires { 8 ≤ length fields.now }
    ensures { result ≡ fields_row id fields.now }
{
    let limited = u64::from(fields[TreeShape::LIMIT][0] == 0);
    [
        id,
        fields[TreeShape::KIND][1],
        fields[TreeShape::COUNT][1],
        fields[TreeShape::KEEPS][1],
        limited,
        fields[TreeShape::LIMIT][1],
        fields[TreeShape::ORDER][1],
        0,
        fields[TreeShape::TRACKED][1],
        fields[TreeShape::NEED][1],
        fields[TreeShape::CHILDREN][1],
    ]
}

// How many children a row has, and the place after its line.
#[derive(Clone, Copy)]
pub(crate) struct TreeRow {
    pub children: u64,
    pub next: usize,
}

// The tree line at a place as row `seen`, by its fields.
fn judged_row(
    s: &[u8],
    at: usize,
    seen: usize,
    h: TreeShape,
    fields: &mut [[u64; 2]],
    rows: &mut [Row],
) -> Result<TreeRow, Refusal>
    requires { length h.line.bounds.now ≤ length fields.old }
    ensures answer { result ≡ tree_row_by (number_at (tree_by h.entry) seen s.now at) (after s.now at) (line_at h.entry.line.letter s.now at) }
    ensures stored { RowStored (tree_by h.entry) seen s.now at rows.old rows.new }
{
    match tree_line(s, at, seen, h, &mut *fields) {
        Read::Line { count, next } => {
            // No From goes from usize to u64.
            let row = operator_row(&fields[..count], seen as u64 + 1);
            store(rows, seen, row);
            Ok(TreeRow {
                children: row[CHILDREN],
                next,
            })
        }
        Read::Refused(refusal) => Err(refusal),
    }
}

// The tree line at a place as row `seen`; the first `quick` rows quickly, where nothing in the line is unusual.
fn tree_row(
    place: Place,
    seen: usize,
    quick: usize,
    h: TreeShape,
    fields: &mut [[u64; 2]],
    rows: &mut [Row],
) -> Result<TreeRow, Refusal>
    requires wide { length h.line.bounds.now ≤ length fields.old }
    requires plain_shape { (0 < quick → PlainShape h.line.letter h.line.bounds.now h.line.sizes.now h.line.codes.now) × (quick ≤ h.most) × (quick ≤ length rows.old) }
    ensures answer { result ≡ tree_row_by (number_at (tree_by h.entry) seen place.entry.s.now place.entry.at) (after place.entry.s.now place.entry.at) (line_at h.entry.line.letter place.entry.s.now place.entry.at) }
    ensures stored { RowStored (tree_by h.entry) seen place.entry.s.now place.entry.at rows.old rows.new }
{
    if seen < quick {
        if let Ok(end) = operator_read(place.s, place.at, seen, h.line, h.rules, &mut rows[seen]) {
            return Ok(TreeRow {
                children: rows[seen][CHILDREN],
                next: end + 1,
            });
        }
    }
    judged_row(place.s, place.at, seen, h, fields, rows)
}

// How many rows were read, the place after them and the number of the line there. The rows are in the room lent, so that a number says which.
#[derive(Clone, Copy)]
pub struct RowsRead {
    pub count: usize,
    pub next: usize,
    pub line: u64,
}

// The lines of one tree from a place on, as operators' rows, of which those are stored for which there is room; what follows the tree is left alone.
pub(crate) fn read_tree(
    place: Place,
    h: TreeShape,
    fields: &mut [[u64; 2]],
    rows: &mut [Row],
) -> Result<RowsRead, Refused>
    requires { length h.line.bounds.now ≤ length fields.old }
    ensures answer { result ≡ rows_by (run_from (tree_by h.entry) 1 place.entry.s.now place.entry.line place.entry.at) }
    ensures left { Left (operator_rows 1) place.entry.s.now (run_from (tree_by h.entry) 1 place.entry.s.now place.entry.line place.entry.at) rows.old rows.new }
{
    let quick = quick_rows(h.line, h.most, rows.len());
    let mut p = place.at;
    let mut l = place.line;
    let mut n: usize = 0;
    let mut owed: u64 = 1;
    // Ends where no line is still to come, as the lines themselves say.
    while owed != 0 {
        let here = Place {
            s: place.s,
            at: p,
            line: l,
        };
        let row = tree_row(here, n, quick, h, &mut *fields, &mut *rows).map_err(
            |refusal| refusal.on_line(l),
        )?;
        owed = owed - 1 + row.children;
        p = row.next;
        n += 1;
        l += 1;
    }
    Ok(RowsRead {
        count: n,
        next: p,
        line: l,
    })
}
