// Reads a line of a K or I sheet, whose lines are numbered from 0 on.
ghost use Rattle.std.specs.Prelude.{◌≡◌, ◌≤◌, length};
ghost use Rattle.linekinds.specs.ListLines.{line_letter, line_codes, ListRead};

use crate::kind::Codes;
use crate::line::{Read, read_line};
use crate::pack::pack_line;
use crate::plain::list_at;
use refusals::Refusal;

// A K or an I sheet.
#[derive(Clone, Copy, PartialEq, Eq, Debug)]
pub enum SheetKind {
    Key,
    Join,
}

impl SheetKind {
    // The letter of line i.
    pub fn letter(self, i: usize) -> u8
        ensures { result ≡ line_letter self i }
    {
        match self {
            SheetKind::Key => match i {
                0 => b'K',
                1 => b'R',
                2 => b'L',
                3 => b'G',
                4 => b'S',
                5 => b'W',
                6 => b'O',
                7 => b'A',
                8 => b'M',
                _ => b'C',
            },
            SheetKind::Join => match i {
                0 => b'I',
                1 => b'L',
                2 => b'G',
                3 => b'S',
                4 => b'H',
                5 => b'N',
                6 => b'W',
                _ => b'V',
            },
        }
    }

    // What is asked of the fields of line i.
    pub fn codes(self, i: usize) -> Codes
        ensures { result ≡ line_codes self i }
    {
        match self {
            SheetKind::Key => match i {
                0 => Codes::Key,
                4 => Codes::Directions,
                5 => Codes::Rules,
                6 | 7 => Codes::Names,
                _ => Codes::Exprs,
            },
            SheetKind::Join => match i {
                0 => Codes::Join,
                3 => Codes::Directions,
                4 | 5 => Codes::Input,
                6 | 7 => Codes::Rules,
                _ => Codes::Exprs,
            },
        }
    }
}

// How long the list of a line is, packed, and the place after the line. The list stands at the front of the room lent.
#[derive(Clone, Copy)]
pub struct Packed {
    pub count: usize,
    pub next: usize,
}

// Line i of a sheet by its fields, each judged: its list goes into the room lent. Not a part of `read_list`, whose loop stays short so.
pub fn judged_list(
    s: &[u8],
    at: usize,
    k: SheetKind,
    i: usize,
    rows: &mut [[u64; 2]],
    list: &mut [u64; 64],
) -> Result<Packed, Refusal>
    requires { 192 ≤ length rows.old }
    ensures { ListRead s.now at k i result list.new }
{
    let letter = k.letter(i);
    let c = k.codes(i);
    match read_line(s, at, letter, c, rows) {
        Read::Line { count, next } => Ok(Packed {
            count: pack_line(c, &rows[..count], list),
            next,
        }),
        Read::Refused(refusal) => Err(refusal),
    }
}

// Line i of a sheet: its list goes into the room lent.
pub fn read_list(
    s: &[u8],
    at: usize,
    k: SheetKind,
    i: usize,
    rows: &mut [[u64; 2]],
    list: &mut [u64; 64],
) -> Result<Packed, Refusal>
    requires { 192 ≤ length rows.old }
    ensures { ListRead s.now at k i result list.new }
{
    let Some(entries) = list_at(s, at, k.letter(i), k.codes(i), &mut *list) else {
        return judged_list(s, at, k, i, rows, list);
    };
    Ok(Packed {
        count: entries.count,
        next: entries.end + 1,
    })
}
