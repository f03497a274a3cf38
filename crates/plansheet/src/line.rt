// The lines of a D sheet, each by its description; their fields go into the rows lent.
ghost use Rattle.std.specs.Prelude.{◌≡◌, ℕ, ◌≤◌, length, drop};
ghost use Rattle.refusals.specs.Refusals.{judged_by};
ghost use Rattle.text.specs.Text.{line, line_fields, line_at, after};
ghost use Rattle.text.specs.Read.{stored_in};
ghost use Rattle.linekinds.specs.Lines.{line_number};
ghost use Rattle.linekinds.specs.Reading.{read_by};
ghost use Rattle.plansheet.specs.Shapes.{fixed_line, plain_shape};
ghost use Rattle.plansheet.specs.PlanLines.{settings_line, node_line, child_line, fact_line, mask_line, two_to};
ghost use Rattle.plansheet.specs.ReadRows.{plain_number};

use crate::description::LineShape;
use crate::shape::{over_any, shaped_line};
use exchange::fact;
use exchange::status::{ROWS, WIDTH};
use linekinds::bounds::{LONG, MOST_BYTES, PLAIN};
use linekinds::line::Read;
use refusals::Refusal;
use text::line::{Fields, line_at};

// No code and no size is asked: no number is larger.
pub(crate) const ANY: u64 = LONG;

// How many sets n children have.
pub fn sets_of(n: usize) -> usize
    requires { n ≤ 8 }
    ensures { result ≡ two_to n }
{
    1 << n
}

// A line of so many plain fields, by their count, their largest state and value, and the place after it.
fn judge_plain(width: usize, f: Fields) -> Result<(), Refusal>
    ensures { result ≡ judged_by (plain_number width f.count f.worst f.largest f.next) }
{
    if f.count != width || f.worst > 0 || f.largest > PLAIN {
        return Err(Refusal::MalformedField);
    }
    if f.next > MOST_BYTES {
        return Err(Refusal::BeyondSize);
    }
    Ok(())
}

// The line of a letter with so many plain fields, the first of which have last codes; its fields go into the rows lent.
fn plain_line(
    s: &[u8],
    at: usize,
    letter: u8,
    width: usize,
    codes: &[u64],
    fields: &mut [[u64; 2]],
) -> Read
    requires { width ≤ length fields.old }
    ensures answer { (seen : ℕ) → result ≡ read_by (line_number (fixed_line (plain_shape letter width codes.now)) seen (after s.now at) (line_at letter s.now at)) (after s.now at) (line_at letter s.now at) }
    ensures stored { fields.new ≡ stored_in fields.old (line_fields letter (line (drop at s.now))) }
{
    let Some(f) = line_at(s, at, letter, fields) else {
        return Read::Refused(Refusal::WrongLine);
    };
    if let Err(refusal) = judge_plain(width, f) {
        return Read::Refused(refusal);
    }
    if over_any(codes, &fields[..f.count]) {
        return Read::Refused(Refusal::UndefinedCode);
    }
    Read::Line {
        count: f.count,
        next: f.next,
    }
}

// The D line.
pub(crate) fn settings_line(s: &[u8], at: usize, fields: &mut [[u64; 2]]) -> Read
    requires { 256 ≤ length fields.old }
    ensures answer { (seen : ℕ) → result ≡ read_by (line_number settings_line seen (after s.now at) (line_at 68 s.now at)) (after s.now at) (line_at 68 s.now at) }
    ensures stored { fields.new ≡ stored_in fields.old (line_fields 68 (line (drop at s.now))) }
{
    let codes = [ANY, 1, 1, ANY, 1, ANY, ANY, 1, 1];
    plain_line(s, at, b'D', 9, &codes, fields)
}

// The B line.
pub(crate) fn node_line(s: &[u8], at: usize, fields: &mut [[u64; 2]]) -> Read
    requires { 256 ≤ length fields.old }
    ensures answer { (seen : ℕ) → result ≡ read_by (line_number node_line seen (after s.now at) (line_at 66 s.now at)) (after s.now at) (line_at 66 s.now at) }
    ensures stored { fields.new ≡ stored_in fields.old (line_fields 66 (line (drop at s.now))) }
{
    plain_line(s, at, b'B', 4, &[1; 4], fields)
}

// An F line.
pub(crate) fn child_line(s: &[u8], at: usize, fields: &mut [[u64; 2]]) -> Read
    requires { 256 ≤ length fields.old }
    ensures answer { (seen : ℕ) → result ≡ read_by (line_number child_line seen (after s.now at) (line_at 70 s.now at)) (after s.now at) (line_at 70 s.now at) }
    ensures stored { fields.new ≡ stored_in fields.old (line_fields 70 (line (drop at s.now))) }
{
    let mut bounds = [[0, PLAIN]; WIDTH];
    bounds[ROWS] = [0, LONG];
    let sizes = [ANY, ANY, ANY, ANY, ANY, ANY, 8];
    let codes = [1, 1, 2, ANY, 1, 1];
    let shape = LineShape {
        letter: b'F',
        bounds: &bounds,
        sizes: &sizes,
        codes: &codes,
    };
    shaped_line(s, at, shape, fields)
}

// An X line.
pub(crate) fn fact_line(s: &[u8], at: usize, fields: &mut [[u64; 2]]) -> Read
    requires { 256 ≤ length fields.old }
    ensures answer { (seen : ℕ) → result ≡ read_by (line_number fact_line seen (after s.now at) (line_at 88 s.now at)) (after s.now at) (line_at 88 s.now at) }
    ensures stored { fields.new ≡ stored_in fields.old (line_fields 88 (line (drop at s.now))) }
{
    let codes = [ANY, ANY, ANY, ANY, 1, 1, 1, 1, 1, ANY, 1, 1];
    plain_line(s, at, b'X', fact::WIDTH, &codes, fields)
}

// The Y line of a worked node with n children.
pub(crate) fn mask_line(s: &[u8], at: usize, n: usize, fields: &mut [[u64; 2]]) -> Read
    requires { (n ≤ 8) × (256 ≤ length fields.old) }
    ensures answer { (seen : ℕ) → result ≡ read_by (line_number (mask_line n) seen (after s.now at) (line_at 89 s.now at)) (after s.now at) (line_at 89 s.now at) }
    ensures stored { fields.new ≡ stored_in fields.old (line_fields 89 (line (drop at s.now))) }
{
    plain_line(s, at, b'Y', sets_of(n), &[], fields)
}
