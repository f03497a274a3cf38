// Reads a line of as many numbers as a row has places.
ghost use Rattle.std.specs.Prelude.{◌<◌, length};
ghost use Rattle.numberlines.specs.NumberLines.{RowFound};
ghost use Rattle.numberlines.specs.Runs.{BegunTo, NumbersTo, LastTo};

use crate::comma::Comma;
use crate::number::number_to;
use linekinds::bounds::MOST_BYTES;

// Why a line was not read: it is of the letter, and something in it is unusual; or it is something else, and nothing was stored.
#[derive(Clone, Copy, PartialEq, Eq, Debug)]
pub enum Unread {
    Unusual,
    Other,
}

// The comma after the letter at a place, in a text that ends with an LF; an LF is no letter.
pub(crate) fn begins(s: &[u8], at: usize, letter: u8) -> Result<Comma<'_>, Unread>
    ensures { BegunTo s.now at letter result }
{
    if letter == b'\n' || s.len() <= at || s[s.len() - 1] != b'\n' {
        return Err(Unread::Other);
    }
    if s[at] != letter || s[at + 1] != b',' {
        return Err(Unread::Other);
    }
    Ok(Comma { s, at: at + 1 })
}

// Numbers up to 65535, each after a comma, into all places of a row; and the comma that follows the last.
// Inlined, as `last_to` and `number_to` are: a call for each number costs time.
#[inline(always)]
pub(crate) fn numbers_to<'a>(from: Comma<'a>, row: &mut [u64]) -> Result<Comma<'a>, Unread>
    ensures { NumbersTo from.entry result row.new }
{
    let s = from.s;
    let mut at = from.at;
    for place in row.iter_mut() {
        let number = number_to(Comma { s, at }, b',').ok_or(Unread::Unusual)?;
        *place = number.value;
        at = number.end;
    }
    Ok(Comma { s, at })
}

// The last number of a line, a plain one after a comma, into a place; and the place of the LF.
#[inline(always)]
pub(crate) fn last_to(from: Comma<'_>, place: &mut u64) -> Result<usize, Unread>
    ensures { LastTo from.entry result place.new }
{
    let number = number_to(from, b'\n').ok_or(Unread::Unusual)?;
    *place = number.value;
    if number.end >= MOST_BYTES {
        return Err(Unread::Unusual);
    }
    Ok(number.end)
}

// The line of a letter, with a number for each place of the row; and the place of its LF.
pub fn row_at(s: &[u8], at: usize, letter: u8, row: &mut [u64]) -> Result<usize, Unread>
    requires { 0 < length row.old }
    ensures { RowFound letter s.now at row.old result row.new }
{
    let comma = begins(s, at, letter)?;
    let last = row.len() - 1;
    let p = numbers_to(comma, &mut row[..last])?;
    last_to(p, &mut row[last])
}
