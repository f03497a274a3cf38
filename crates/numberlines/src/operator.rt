// Reads a tree line that has no limit, into an operator's row.
ghost use Rattle.std.specs.Prelude.{◌≡◌, length};
ghost use Rattle.numberlines.specs.NumberLines.{OperatorFound};
ghost use Rattle.numberlines.specs.Runs.{EmptyTo};

use crate::comma::Comma;
use crate::row::{Unread, begins, last_to, numbers_to};

// The comma right behind another, with an empty field between them.
fn empty_to(from: Comma<'_>) -> Result<Comma<'_>, Unread>
    ensures { EmptyTo from.entry result }
{
    let s = from.s;
    let at = from.at + 1;
    if s[at] != b',' {
        return Err(Unread::Unusual);
    }
    Ok(Comma { s, at })
}

// The line of a letter with an operator's fields, and the place of its LF. The row's first place is left alone.
pub fn operator_at(s: &[u8], at: usize, letter: u8, row: &mut [u64]) -> Result<usize, Unread>
    requires { length row.old ≡ 11 }
    ensures { OperatorFound letter s.now at row.old result row.new }
{
    let comma = begins(s, at, letter)?;
    let p = empty_to(numbers_to(comma, &mut row[1..4])?)?;
    row[4] = 0;
    row[5] = 0;
    let q = numbers_to(p, &mut row[6..7])?;
    row[7] = 0;
    let r = numbers_to(q, &mut row[8..10])?;
    last_to(r, &mut row[10])
}
