// A K or I sheet written again from what is held of it.
ghost use Rattle.std.specs.Prelude.{ℕ, ◌+◌, ◌≤◌, ◌<◌, length, get_or};
ghost use Rattle.text.specs.Write.{Wrote};
ghost use Rattle.sheet.specs.KeyAnswers.{numbers_line};
ghost use Rattle.sheet.specs.Held.{field_numbers, held_text};

use crate::line::{put_expr_fields, put_exprs, put_number_fields, put_numbers};
use linekinds::kind::Codes;
use linekinds::lists::SheetKind;
use sheet::held::Lists;
use text::write::put_byte;

// A mark, and expressions behind it.
fn put_input(out: &mut [u8], at: usize, letter: u8, list: &[u64]) -> usize
    requires { at + length (numbers_line letter (field_numbers Codes.Input list.now)) ≤ length out.old }
    ensures { Wrote out.old at (numbers_line letter (field_numbers Codes.Input list.now)) out.new result }
{
    if list.is_empty() {
        return put_numbers(out, at, letter, list);
    }
    let p = put_byte(out, at, letter);
    let q = put_number_fields(out, p, &list[..1]);
    let e = put_expr_fields(out, q, &list[1..]);
    put_byte(out, e, b'\n')
}

// A line from the numbers that are held of it.
fn put_held(out: &mut [u8], at: usize, letter: u8, c: Codes, list: &[u64]) -> usize
    requires { at + length (numbers_line letter (field_numbers c list.now)) ≤ length out.old }
    ensures { Wrote out.old at (numbers_line letter (field_numbers c list.now)) out.new result }
{
    match c {
        Codes::Exprs | Codes::Rules => put_exprs(out, at, letter, list),
        Codes::Input => put_input(out, at, letter, list),
        Codes::Key | Codes::Join | Codes::Directions | Codes::Names => {
            put_numbers(out, at, letter, list)
        }
    }
}

// The first n lines of a sheet, as many as its head says.
pub fn put_sheet(out: &mut [u8], k: SheetKind, n: usize, held: Lists<'_, '_>) -> usize
    requires { (n ≤ length held.lists.now) × (n ≤ length held.counts.now) × ((i : ℕ) → i < n → get_or held.counts.now i 0 ≤ 64) × (length (held_text k held.lists.now held.counts.now 0 n) ≤ length out.old) }
    ensures { Wrote out.old 0 (held_text k held.entry.lists.now held.entry.counts.now 0 n) out.new result }
{
    let mut p = 0;
    for i in 0..n {
        p = put_held(out, p, k.letter(i), k.codes(i), held.list(i));
    }
    p
}
