// Reads a list line entry by entry, in one pass, where nothing in it is unusual. What it finds stands on the line; where it finds
// something else, the line is left to be judged by its fields.
ghost use Rattle.std.specs.Prelude.{◌≡◌, IsTrue, ◌↔◌, ◌≤◌, length};
ghost use Rattle.linekinds.specs.PlainText.{StandsAt, DigitAt, DigitsFound, FieldFound, EntryFound, EndFound, EntriesFound, NumbersFound, RulesFound, InputFound, ListFound};

use crate::bounds::{LAST_DIRECTION, MARK, MOST_BYTES, MOST_ENTRIES, PLAIN};
use crate::kind::{Codes, defined_expr};
use keys::expr::Expr;

// A number, and the place after it.
#[derive(Clone, Copy)]
pub struct Number {
    pub value: u64,
    pub end: usize,
}

// How many entries, and the place of the LF. The entries stand at the front of the room lent, packed as a list's numbers are.
#[derive(Clone, Copy)]
pub struct Entries {
    pub count: usize,
    pub end: usize,
}

fn stands(s: &[u8], at: usize, b: u8) -> bool
    ensures { IsTrue result ↔ StandsAt s.now at b }
{
    at < s.len() && s[at] == b
}

fn digit_at(s: &[u8], at: usize) -> bool
    ensures { IsTrue result ↔ DigitAt s.now at }
{
    at < s.len() && s[at].is_ascii_digit()
}

// The digits from a place on, of a number up to 65535.
fn number_at(s: &[u8], at: usize) -> Option<Number>
    ensures { DigitsFound s.now at result }
{
    if !digit_at(s, at) {
        return None;
    }
    let mut n = u64::from(s[at] - b'0');
    let mut p = at + 1;
    // The digits end where another byte stands.
    while digit_at(s, p) {
        if n == 0 {
            return None;
        }
        n = n * 10 + u64::from(s[p] - b'0');
        if n > PLAIN {
            return None;
        }
        p += 1;
    }
    Some(Number { value: n, end: p })
}

// A comma at a place, and such a number after it.
fn field_at(s: &[u8], at: usize) -> Option<Number>
    ensures { FieldFound s.now at result }
{
    if !stands(s, at, b',') {
        return None;
    }
    number_at(s, at + 1)
}

// The three fields of an expression, packed.
fn entry_at(s: &[u8], at: usize) -> Option<Number>
    ensures { EntryFound s.now at result }
{
    let kind = field_at(s, at)?;
    let name = field_at(s, kind.end)?;
    let index = field_at(s, name.end)?;
    if !defined_expr(kind.value, name.value, index.value) {
        return None;
    }
    Some(Number {
        value: Expr::pack(kind.value, name.value, index.value).number,
        end: index.end,
    })
}

// The end of a line of n entries, at a place.
fn line_end(s: &[u8], at: usize, n: usize) -> Option<Entries>
    ensures { EndFound s.now at n result }
{
    if !stands(s, at, b'\n') || at >= MOST_BYTES {
        return None;
    }
    Some(Entries { count: n, end: at })
}

// Expressions from a place on to the LF, up to `most` with those before `from`, packed behind these.
fn entries_at(
    s: &[u8],
    at: usize,
    from: usize,
    most: usize,
    list: &mut [u64; 64],
) -> Option<Entries>
    requires { (from ≤ most) × (most ≤ 64) }
    ensures { (length list.new ≡ 64) × EntriesFound s.now at from most list.old result list.new }
{
    let mut p = at;
    let mut n = from;
    // The entries end where no comma stands.
    while stands(s, p, b',') {
        if n == most {
            return None;
        }
        let entry = entry_at(s, p)?;
        list[n] = entry.value;
        n += 1;
        p = entry.end;
    }
    line_end(s, p, n)
}

// Numbers up to the largest, from a place on to the LF.
fn numbers_at(s: &[u8], at: usize, largest: u64, list: &mut [u64; 64]) -> Option<Entries>
    ensures { (length list.new ≡ 64) × NumbersFound s.now at largest result list.new }
{
    let mut p = at;
    let mut n: usize = 0;
    // The entries end where no comma stands.
    while stands(s, p, b',') {
        if n == MOST_ENTRIES {
            return None;
        }
        let number = field_at(s, p)?;
        if number.value > largest {
            return None;
        }
        list[n] = number.value;
        n += 1;
        p = number.end;
    }
    line_end(s, p, n)
}

// Rules: an even number of expressions.
fn rules_at(s: &[u8], at: usize, list: &mut [u64; 64]) -> Option<Entries>
    ensures { (length list.new ≡ 64) × RulesFound s.now at list.old result list.new }
{
    let entries = entries_at(s, at, 0, 2 * MOST_ENTRIES, list)?;
    if entries.count % 2 != 0 {
        return None;
    }
    Some(entries)
}

// A mark, and expressions behind it.
fn input_at(s: &[u8], at: usize, list: &mut [u64; 64]) -> Option<Entries>
    ensures { (length list.new ≡ 64) × InputFound s.now at list.old result list.new }
{
    let mark = field_at(s, at)?;
    if mark.value > MARK {
        return None;
    }
    list[0] = mark.value;
    entries_at(s, mark.end, 1, 1 + MOST_ENTRIES, list)
}

// The list of a line of a letter.
pub(crate) fn list_at(
    s: &[u8],
    at: usize,
    letter: u8,
    c: Codes,
    list: &mut [u64; 64],
) -> Option<Entries>
    ensures { (length list.new ≡ 64) × ListFound c letter s.now at result list.new }
{
    if letter == b'\n' || !stands(s, at, letter) {
        return None;
    }
    let p = at + 1;
    match c {
        Codes::Key | Codes::Join => None,
        Codes::Exprs => entries_at(s, p, 0, MOST_ENTRIES, list),
        Codes::Rules => rules_at(s, p, list),
        Codes::Input => input_at(s, p, list),
        Codes::Directions => numbers_at(s, p, LAST_DIRECTION, list),
        Codes::Names => numbers_at(s, p, PLAIN, list),
    }
}
