// Reads a line of fixed fields by its description: a bound for each field, the most of the first fields, the last codes of the first fields.
ghost use Rattle.std.specs.Prelude.{◌≡◌, ℕ, ◌≤◌, length, drop};
ghost use Rattle.refusals.specs.Refusals.{judged_by, refusal_of};
ghost use Rattle.text.specs.Text.{line, line_fields, line_at, after};
ghost use Rattle.text.specs.Read.{stored_in};
ghost use Rattle.linekinds.specs.Lines.{line_number};
ghost use Rattle.linekinds.specs.Reading.{row_values, read_by};
ghost use Rattle.plansheet.specs.Shapes.{over_any, fixed_line};
ghost use Rattle.plansheet.specs.Described.{shape_by};
ghost use Rattle.plansheet.specs.ReadRows.{Bounded, misfit_number, shape_number};

use crate::description::LineShape;
use linekinds::bounds::MOST_BYTES;
use linekinds::line::Read;
use refusals::Refusal;
use text::bounds::{Misfit, fixed_at};

// Whether one of the first fields is over its largest number.
pub(crate) fn over_any(largest: &[u64], fields: &[[u64; 2]]) -> bool
    ensures { result ≡ over_any largest.now (row_values fields.now) }
{
    // As many pairs as the shorter list has.
    for (most, field) in largest.iter().zip(fields) {
        if *most < field[1] {
            return true;
        }
    }
    false
}

// By a line's fields and the place after it.
pub(crate) fn judge_shape(
    sizes: &[u64],
    codes: &[u64],
    next: usize,
    fields: &[[u64; 2]],
) -> Result<(), Refusal>
    ensures { result ≡ judged_by (shape_number sizes.now codes.now next (row_values fields.now)) }
{
    if next > MOST_BYTES || over_any(sizes, fields) {
        return Err(Refusal::BeyondSize);
    }
    if over_any(codes, fields) {
        return Err(Refusal::UndefinedCode);
    }
    Ok(())
}

// Why a line is turned back whose fields are not within their bounds, or that is none of the letter. No From: both types are of other crates.
pub(crate) fn misfit_refusal(m: Misfit) -> Refusal
    ensures { result ≡ refusal_of (misfit_number m) }
{
    match m {
        Misfit::Unfit => Refusal::MalformedField,
        Misfit::Wrong => Refusal::WrongLine,
    }
}

// The line of a letter at a place; its fields go into the rows lent.
pub(crate) fn shaped_line(s: &[u8], at: usize, h: LineShape, fields: &mut [[u64; 2]]) -> Read
    requires { (length h.bounds.now ≤ length fields.old) × Bounded h.bounds.now }
    ensures answer { (seen : ℕ) → result ≡ read_by (line_number (fixed_line (shape_by h.entry)) seen (after s.now at) (line_at h.entry.letter s.now at)) (after s.now at) (line_at h.entry.letter s.now at) }
    ensures stored { fields.new ≡ stored_in fields.old (line_fields h.entry.letter (line (drop at s.now))) }
{
    let j = match fixed_at(s, at, h.letter, h.bounds, fields) {
        Ok(j) => j,
        Err(misfit) => return Read::Refused(misfit_refusal(misfit)),
    };
    if let Err(refusal) = judge_shape(h.sizes, h.codes, j.next, &fields[..j.count]) {
        return Read::Refused(refusal);
    }
    Read::Line {
        count: j.count,
        next: j.next,
    }
}
