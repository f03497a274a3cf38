// Reads one line of a kind.
ghost use Rattle.std.specs.Prelude.{◌≡◌, ℕ, ◌≤◌, length, drop};
ghost use Rattle.text.specs.Text.{line, line_fields, line_at, after};
ghost use Rattle.text.specs.Read.{stored_in};
ghost use Rattle.linekinds.specs.Lines.{line_number};
ghost use Rattle.linekinds.specs.Reading.{kind_of, read_by};

use crate::kind::{Codes, judge_codes, judge_counts};
use refusals::Refusal;
use text::line::line_at;

// An enum of its own, which document 01 names.
// A line with its count of fields and the place after it, or why it is turned back, by the lowest number.
#[derive(Clone, Copy, PartialEq, Eq, Debug)]
pub enum Read {
    Line { count: usize, next: usize },
    Refused(Refusal),
}

// The line of a letter at a place; its fields go into the rows lent, 192 since the longest line has as many.
pub(crate) fn read_line(s: &[u8], at: usize, letter: u8, c: Codes, rows: &mut [[u64; 2]]) -> Read
    requires { 192 ≤ length rows.old }
    ensures answer { (seen : ℕ) → result ≡ read_by (line_number (kind_of c letter) seen (after s.now at) (line_at letter s.now at)) (after s.now at) (line_at letter s.now at) }
    ensures stored { rows.new ≡ stored_in rows.old (line_fields letter (line (drop at s.now))) }
{
    let Some(f) = line_at(s, at, letter, rows) else {
        return Read::Refused(Refusal::WrongLine);
    };
    if let Err(refusal) = judge_counts(c, f) {
        return Read::Refused(refusal);
    }
    if let Err(refusal) = judge_codes(c, &rows[..f.count]) {
        return Read::Refused(refusal);
    }
    Read::Line {
        count: f.count,
        next: f.next,
    }
}
