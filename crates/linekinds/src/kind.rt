// Kinds of lines, and what their fields must be.
ghost use Rattle.std.specs.Prelude.{◌≡◌, ◌≤◌, length};
ghost use Rattle.refusals.specs.Refusals.{judged_by};
ghost use Rattle.linekinds.specs.KeyLines.{defined_expr, undefined_exprs, over, defined_mode, defined_join, fit_children};
ghost use Rattle.linekinds.specs.Reading.{head_count, entry_width, row_values, undefined_by, undefined_key, undefined_join, undefined_input, fields_number, size_number, counts_number, codes_number, Whole};
ghost use Rattle.linekinds.specs.Lines.{whole_entries};

use crate::bounds::{LAST_DIRECTION, MARK, MOST_BYTES, MOST_CHILDREN, MOST_ENTRIES, PLAIN};
use keys::codes::{AggregateMode, HashMode, Join, Op};
use keys::expr::{COLUMN, OTHER, PLACEHOLDER};
use refusals::Refusal;
use text::line::Fields;

// What is asked of a line's fields: the K line, the I line, expressions, rules, a mark and expressions, directions, names.
#[derive(Clone, Copy, PartialEq, Eq, Debug)]
pub enum Codes {
    Key,
    Join,
    Exprs,
    Rules,
    Input,
    Directions,
    Names,
}

impl Codes {
    // How many fields stand before the list.
    pub fn heads(self) -> usize
        ensures { result ≡ head_count self }
    {
        match self {
            Codes::Key => 7,
            Codes::Join => 2,
            Codes::Input => 1,
            Codes::Exprs | Codes::Rules | Codes::Directions | Codes::Names => 0,
        }
    }

    // How many fields an entry of the list has; 0 where there is no list.
    pub fn width(self) -> usize
        ensures { result ≡ entry_width self }
    {
        match self {
            Codes::Key | Codes::Join => 0,
            Codes::Exprs | Codes::Input => 3,
            Codes::Rules => 6,
            Codes::Directions | Codes::Names => 1,
        }
    }
}

// Another expression than a column has index 0, and the placeholder name and index 0.
pub(crate) fn defined_expr(kind: u64, name: u64, index: u64) -> bool
    ensures { result ≡ defined_expr kind name index }
{
    match kind {
        COLUMN => true,
        OTHER => index == 0,
        PLACEHOLDER => name == 0 && index == 0,
        _ => false,
    }
}

// Whether three of the numbers are no expression.
fn undefined_exprs(rows: &[[u64; 2]]) -> bool
    ensures { result ≡ undefined_exprs (row_values rows.now) }
{
    let (entries, _) = rows.as_chunks::<3>();
    entries.iter().any(|[kind, name, index]| !defined_expr(kind[1], name[1], index[1]))
}

// Whether one of the numbers is over the largest.
fn over(rows: &[[u64; 2]], most: u64) -> bool
    ensures { result ≡ over most (row_values rows.now) }
{
    rows.iter().any(|row| most < row[1])
}

// A hash join and an aggregate have modes; elsewhere the number is 0.
fn defined_mode(op: u64, mode: u64) -> bool
    ensures { result ≡ defined_mode op mode }
{
    match Op::from(op) {
        Op::HashJoin => mode < HashMode::CODES,
        Op::Aggregate => mode < AggregateMode::CODES,
        _ => mode == 0,
    }
}

// A hash join has a join type; elsewhere the number is 0.
fn defined_join(op: u64, join: u64) -> bool
    ensures { result ≡ defined_join op join }
{
    match Op::from(op) {
        Op::HashJoin => join < Join::CODES,
        _ => join == 0,
    }
}

fn fit_children(op: u64, n: u64) -> bool
    ensures { result ≡ fit_children op n }
{
    match Op::from(op) {
        Op::HashJoin | Op::CrossJoin | Op::SortMergeJoin => n == 2,
        Op::Aggregate | Op::Projection | Op::Clearing => n == 1,
        Op::Other => true,
    }
}

// Codes of the K line: op, mode, join and two marks.
fn undefined_key(rows: &[[u64; 2]]) -> bool
    requires { length rows.now ≡ 7 }
    ensures { result ≡ undefined_key (row_values rows.now) }
{
    let op = rows[0][1];
    op >= Op::CODES
        || !defined_mode(op, rows[1][1])
        || !defined_join(op, rows[2][1])
        || rows[4][1] > MARK
        || rows[5][1] > MARK
}

fn undefined_join(rows: &[[u64; 2]]) -> bool
    requires { length rows.now ≡ 2 }
    ensures { result ≡ undefined_join (row_values rows.now) }
{
    rows[0][1] >= Op::CODES || !defined_mode(rows[0][1], rows[1][1])
}

fn undefined_input(rows: &[[u64; 2]]) -> bool
    requires { 1 ≤ length rows.now }
    ensures { result ≡ undefined_input (row_values rows.now) }
{
    rows[0][1] > MARK || undefined_exprs(&rows[1..])
}

// Whether a line whose fields are as many as its kind has holds a code that is not defined.
fn undefined(c: Codes, rows: &[[u64; 2]]) -> bool
    requires { Whole c (length rows.now) }
    ensures { result ≡ undefined_by c (row_values rows.now) }
{
    match c {
        Codes::Key => undefined_key(rows),
        Codes::Join => undefined_join(rows),
        Codes::Exprs | Codes::Rules => undefined_exprs(rows),
        Codes::Input => undefined_input(rows),
        Codes::Directions => over(rows, LAST_DIRECTION),
        Codes::Names => false,
    }
}

fn whole_entries(width: usize, n: usize) -> bool
    ensures { result ≡ whole_entries width n }
{
    if width == 0 { n == 0 } else { n % width == 0 }
}

// As many fields as the kind has, each of them a number within its bound.
fn judge_fields(c: Codes, f: Fields) -> Result<(), Refusal>
    ensures { result ≡ judged_by (fields_number c f.count f.worst f.largest) }
{
    let heads = c.heads();
    if f.count < heads || f.worst > 0 || f.largest > PLAIN {
        return Err(Refusal::MalformedField);
    }
    if !whole_entries(c.width(), f.count - heads) {
        return Err(Refusal::MalformedField);
    }
    Ok(())
}

// No byte after the largest sheet's, and no more entries than a list may have.
fn judge_size(c: Codes, f: Fields) -> Result<(), Refusal>
    ensures { result ≡ judged_by (size_number c f.count f.next) }
{
    if f.next > MOST_BYTES {
        return Err(Refusal::BeyondSize);
    }
    if f.count.saturating_sub(c.heads()) > MOST_ENTRIES * c.width() {
        return Err(Refusal::BeyondSize);
    }
    Ok(())
}

// By a line's count of fields, their largest state and value, and the place after it.
pub(crate) fn judge_counts(c: Codes, f: Fields) -> Result<(), Refusal>
    ensures { result ≡ judged_by (counts_number c f.count f.worst f.largest f.next) }
{
    judge_fields(c, f)?;
    judge_size(c, f)
}

fn judge_key(rows: &[[u64; 2]]) -> Result<(), Refusal>
    requires { length rows.now ≡ 7 }
    ensures { result ≡ judged_by (codes_number Codes.Key (row_values rows.now)) }
{
    if rows[6][1] > MOST_CHILDREN {
        return Err(Refusal::BeyondSize);
    }
    if undefined_key(rows) {
        return Err(Refusal::UndefinedCode);
    }
    if !fit_children(rows[0][1], rows[6][1]) {
        return Err(Refusal::UnfitChildren);
    }
    Ok(())
}

// By the numbers of a line whose fields are as many as its kind has.
pub(crate) fn judge_codes(c: Codes, rows: &[[u64; 2]]) -> Result<(), Refusal>
    requires { Whole c (length rows.now) }
    ensures { result ≡ judged_by (codes_number c (row_values rows.now)) }
{
    if c == Codes::Key {
        return judge_key(rows);
    }
    if undefined(c, rows) {
        return Err(Refusal::UndefinedCode);
    }
    Ok(())
}
