// Reads a line at a place of a text, field by field, in one pass.
ghost use Rattle.std.specs.Prelude.{◌≡◌, map, ◌+◌, drop, set};
ghost use Rattle.std.proofs.lemmas.List.Edits.{sets};
ghost use Rattle.text.specs.Text.{until, line, fields, line_fields, line_at, after, row};
ghost use Rattle.text.specs.Scan.{ends_line};
ghost use Rattle.text.specs.Read.{tallied, line_read, stored_in};

use crate::field::{Field, digit_and_comma, field_at};
use crate::store::store;

// Stores a field's row where there is room.
fn store_row(out: &mut [[u64; 2]], i: usize, field: Field)
    ensures { out.new ≡ set out.old i (row field) }
{
    store(out, i, [field.state(), field.value()]);
}

// The line ends at `at`: at an LF, or with the text.
fn line_ended(s: &[u8], at: usize) -> bool
    ensures { result ≡ ends_line (drop at s.now) }
{
    s.len() <= at || s[at] == b'\n'
}

// How many fields, the largest of their states, the largest of their values, and the place where reading goes on. The fields stand in the
// room lent, which may have ended before them.
#[derive(Clone, Copy)]
pub struct Fields {
    pub count: usize,
    pub worst: u64,
    pub largest: u64,
    pub next: usize,
}

// The fields from `at` to the LF, or to the end of the text, into as much room as there is. Reading goes on at the LF.
fn fields_at(s: &[u8], at: usize, out: &mut [[u64; 2]]) -> Fields
    ensures counted { result ≡ tallied (at + until 10 (drop at s.now)) (fields (line (drop at s.now))) }
    ensures stored { out.new ≡ sets out.old 0 (map row (fields (line (drop at s.now)))) }
{
    let mut i = at;
    let mut n: usize = 0;
    let mut worst: u64 = 0;
    let mut largest: u64 = 0;
    // It ends with the line; fields are counted also where the room has ended.
    loop {
        if digit_and_comma(s, i) {
            let d = u64::from(s[i] - b'0');
            store_row(out, n, Field::Number(d));
            largest = largest.max(d);
            n += 1;
            i += 2;
            continue;
        }
        let f = field_at(s, i);
        store_row(out, n, f.field);
        worst = worst.max(f.field.state());
        largest = largest.max(f.field.value());
        n += 1;
        if line_ended(s, f.end) {
            return Fields {
                count: n,
                worst,
                largest,
                next: f.end,
            };
        }
        i = f.end + 1;
    }
}

// The line of a letter that begins at a place. There is none where it lacks its LF, its letter or the comma after that.
pub fn line_at(s: &[u8], at: usize, letter: u8, out: &mut [[u64; 2]]) -> Option<Fields>
    ensures answer { result ≡ line_read (after s.now at) (line_at letter s.now at) }
    ensures stored { out.new ≡ stored_in out.old (line_fields letter (line (drop at s.now))) }
{
    if s.len() <= at || s[at] == b'\n' || s[at] != letter {
        return None;
    }
    let p = at + 1;
    if s.len() <= p {
        return None;
    }
    if s[p] == b'\n' {
        return Some(Fields {
            count: 0,
            worst: 0,
            largest: 0,
            next: p + 1,
        });
    }
    if s[p] != b',' {
        return None;
    }
    let f = fields_at(s, p + 1, out);
    if s.len() <= f.next {
        return None;
    }
    Some(Fields {
        next: f.next + 1,
        ..f
    })
}
