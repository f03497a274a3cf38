// Reads the F, X and Y lines of a D sheet into rows of numbers.
ghost use Rattle.std.specs.Prelude.{◌≡◌, true, false, ℕ, ◌+◌, ◌≤◌, ◌<◌, length, get_or};
ghost use Rattle.text.specs.Text.{line_at, after};
ghost use Rattle.linekinds.specs.Lines.{line_number};
ghost use Rattle.linekinds.specs.Reading.{row_values, read_by, Small};
ghost use Rattle.plansheet.specs.Shapes.{over_any};
ghost use Rattle.plansheet.specs.PlanLines.{child_line, fact_shape, fact_line};
ghost use Rattle.plansheet.specs.ReadRows.{number_rows, rows_by, Left, run_from};
ghost use Rattle.plansheet.specs.PlainFacts.{FactFound, FactLeft};

use crate::line::{child_line, fact_line};
use crate::place::Place;
use crate::tree::RowsRead;
use exchange::fact::{ATHASH, CONST, FORD, FactRow, ORDER, WIDTH};
use exchange::status::ChildRow;
use linekinds::bounds::MARK;
use linekinds::line::Read;
use linekinds::pack::copy_numbers;
use numberlines::row::{Unread, row_at};
use refusals::{Refusal, Refused};
use text::store::store;

// A line's numbers.
fn numbers_of<const N: usize>(fields: &[[u64; 2]]) -> [u64; N]
    requires { length fields.now ≡ N }
    ensures { result ≡ row_values fields.now }
{
    let mut row = [0; N];
    copy_numbers(fields, &mut row);
    row
}

// Each is 0 or 1.
fn all_marks(numbers: &[u64]) -> bool
    ensures { result ≡ true → (i : ℕ) → i < length numbers.now → get_or numbers.now i 0 ≤ 1 }
{
    numbers.iter().all(|n| *n <= MARK)
}

// The marks of an X row are marks.
fn marked(row: &FactRow) -> bool
    ensures { result ≡ true → Small row.now → over_any fact_shape.codes row.now ≡ false }
{
    all_marks(&row[ATHASH..CONST]) && all_marks(&row[FORD..ORDER])
}

// The X line at a place, into its row, where nothing in it is unusual.
fn fact_at(s: &[u8], at: usize, row: &mut FactRow) -> Result<usize, Unread>
    ensures { FactFound s.now at row.old result row.new }
{
    let end = row_at(s, at, b'X', &mut *row)?;
    if !marked(&*row) {
        return Err(Unread::Unusual);
    }
    Ok(end)
}

// The X line at a place by its fields, each judged, as row n where there is room for it.
fn judged_fact(s: &[u8], at: usize, n: usize, fields: &mut [[u64; 2]], rows: &mut [FactRow]) -> Read
    requires { 256 ≤ length fields.old }
    ensures answer { (seen : ℕ) → result ≡ read_by (line_number fact_line seen (after s.now at) (line_at 88 s.now at)) (after s.now at) (line_at 88 s.now at) }
    ensures stored { FactLeft (line_at 88 s.now at) n rows.old result rows.new }
{
    let r = fact_line(s, at, &mut *fields);
    let Read::Line { count, next } = r else {
        return r;
    };
    store(rows, n, numbers_of(&fields[..count]));
    Read::Line { count, next }
}

// The X line at a place, as row n where there is room for it.
fn read_fact(s: &[u8], at: usize, n: usize, fields: &mut [[u64; 2]], rows: &mut [FactRow]) -> Read
    requires { 256 ≤ length fields.old }
    ensures answer { (seen : ℕ) → result ≡ read_by (line_number fact_line seen (after s.now at) (line_at 88 s.now at)) (after s.now at) (line_at 88 s.now at) }
    ensures stored { FactLeft (line_at 88 s.now at) n rows.old result rows.new }
{
    if rows.len() <= n {
        return judged_fact(s, at, n, fields, rows);
    }
    let Ok(end) = fact_at(s, at, &mut rows[n]) else {
        return judged_fact(s, at, n, fields, rows);
    };
    Read::Line {
        count: WIDTH,
        next: end + 1,
    }
}

// So many F lines from a place on.
pub(crate) fn read_children(
    place: Place,
    children: usize,
    fields: &mut [[u64; 2]],
    rows: &mut [ChildRow],
) -> Result<RowsRead, Refused>
    requires { (256 ≤ length fields.old) × (children ≤ length rows.old) }
    ensures answer { result ≡ rows_by (run_from child_line children place.entry.s.now place.entry.line place.entry.at) }
    ensures left { Left number_rows place.entry.s.now (run_from child_line children place.entry.s.now place.entry.line place.entry.at) rows.old rows.new }
{
    let mut p = place.at;
    let mut l = place.line;
    for row in &mut rows[..children] {
        match child_line(place.s, p, &mut *fields) {
            Read::Line { count, next } => {
                *row = numbers_of(&fields[..count]);
                p = next;
            }
            Read::Refused(refusal) => return Err(refusal.on_line(l)),
        }
        l += 1;
    }
    Ok(RowsRead {
        count: children,
        next: p,
        line: l,
    })
}

// The X lines from a place on, as many as there are: those for which there is room are stored.
pub(crate) fn read_facts(
    place: Place,
    fields: &mut [[u64; 2]],
    rows: &mut [FactRow],
) -> Result<RowsRead, Refused>
    requires { 256 ≤ length fields.old }
    ensures answer { result ≡ rows_by (run_from fact_line 0 place.entry.s.now place.entry.line place.entry.at) }
    ensures left { Left number_rows place.entry.s.now (run_from fact_line 0 place.entry.s.now place.entry.line place.entry.at) rows.old rows.new }
{
    let mut p = place.at;
    let mut l = place.line;
    let mut n: usize = 0;
    // Ends at the line that is no X line: nothing says beforehand how many there are.
    loop {
        match read_fact(place.s, p, n, &mut *fields, &mut *rows) {
            Read::Line { next, .. } => p = next,
            Read::Refused(refusal) if refusal == Refusal::WrongLine => {
                return Ok(RowsRead {
                    count: n,
                    next: p,
                    line: l,
                });
            }
            Read::Refused(refusal) => return Err(refusal.on_line(l)),
        }
        n += 1;
        l += 1;
    }
}
