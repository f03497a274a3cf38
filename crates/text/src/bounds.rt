// Lines of fixed fields, each with a bound: a row of the largest state (0 a number, 1 may be empty) and the largest value.
ghost use Rattle.std.specs.Prelude.{◌≡◌, ◌≤◌, length, drop};
ghost use Rattle.text.specs.Text.{line, line_fields, line_at, after};
ghost use Rattle.text.specs.Read.{stored_in};
ghost use Rattle.text.specs.Bounds.{fits_rows, judged};

use crate::line::{Fields, line_at};

// A line whose fields are within their bounds, with the place after it. They stand in the room lent, and here is only their number.
#[derive(Clone, Copy)]
pub struct Judged {
    pub count: usize,
    pub next: usize,
}

// A line whose fields are not within their bounds, or not as many; or no line of the letter.
#[derive(Clone, Copy, PartialEq, Eq, Debug)]
pub enum Misfit {
    Unfit,
    Wrong,
}

pub fn rows_fit(bounds: &[[u64; 2]], rows: &[[u64; 2]]) -> bool
    ensures { result ≡ fits_rows bounds.now rows.now }
{
    if rows.len() != bounds.len() {
        return false;
    }
    // By index, over two slices side by side.
    for (bound, row) in bounds.iter().zip(rows) {
        if bound[0] < row[0] || bound[1] < row[1] {
            return false;
        }
    }
    true
}

// The line of a letter at a place, with as many fields as bounds, each within its own.
pub fn fixed_at(
    s: &[u8],
    at: usize,
    letter: u8,
    bounds: &[[u64; 2]],
    out: &mut [[u64; 2]],
) -> Result<Judged, Misfit>
    requires { length bounds.now ≤ length out.old }
    ensures answer { result ≡ judged bounds.now (after s.now at) (line_at letter s.now at) }
    ensures stored { out.new ≡ stored_in out.old (line_fields letter (line (drop at s.now))) }
{
    let Some(Fields { count, next, .. }) = line_at(s, at, letter, out) else {
        return Err(Misfit::Wrong);
    };
    if count != bounds.len() || !rows_fit(bounds, &out[..count]) {
        return Err(Misfit::Unfit);
    }
    Ok(Judged { count, next })
}
