// Writes numbers, fields and lines where there is room for them, and gives their exact length beforehand.
ghost use Rattle.std.specs.Prelude.{◌≡◌, [], ◌∷◌, map, ℕ, ◌+◌, ◌-◌, ◌≤◌, ◌<◌, length};
ghost use Rattle.std.proofs.lemmas.List.Edits.{sets};
ghost use Rattle.text.specs.Write.{decimal, row_field, field_text, line_text, Wrote};

use crate::field::Field;

// How many decimal digits a number has.
pub fn number_length(n: u64) -> usize
    ensures exact { result ≡ length (decimal n) }
    ensures few { result ≤ 20 }
{
    let tenth = n / 10;
    let mut power: u64 = 1;
    let mut k: usize = 1;
    // It ends with the first power of ten past the number.
    while power <= tenth {
        power *= 10;
        k += 1;
    }
    k
}

pub fn field_length(field: Field) -> usize
    ensures exact { result ≡ length (field_text field) }
    ensures few { result ≤ 20 }
{
    match field {
        Field::Number(n) => number_length(n),
        Field::Empty | Field::Malformed => 0,
    }
}

// The length of the rows' line, whatever its letter.
pub fn line_length(rows: &[[u64; 2]]) -> usize
    ensures { (letter : ℕ) → result ≡ length (line_text letter (map row_field rows.now)) }
{
    let mut n: usize = 2;
    for row in rows {
        n += 1 + field_length(Field::of_row(row));
    }
    n
}

pub fn put_byte(out: &mut [u8], at: usize, b: u8) -> usize
    requires { at + 1 ≤ length out.old }
    ensures { Wrote out.old at (b ∷ []) out.new result }
{
    out[at] = b;
    at + 1
}

fn digit(d: u64) -> u8
    requires { d < 10 }
    ensures { result ≡ 48 + d }
{
    // No From goes from u64 to u8, and one digit fits.
    b'0' + d as u8
}

// The digits of `n`, the last of them before `end`.
fn put_digits(out: &mut [u8], end: usize, n: u64)
    requires n_len_bound { length (decimal n) ≤ end }
    requires end_in_bounds { end ≤ length out.old }
    ensures { out.new ≡ sets out.old (end - length (decimal n)) (decimal n) }
{
    let mut i = end - 1;
    let mut m = n;
    // A digit a turn, from the last place backwards, until the number is used up.
    while m >= 10 {
        out[i] = digit(m % 10);
        m /= 10;
        i -= 1;
    }
    out[i] = digit(m);
}

// A number of two digits.
fn put_two(out: &mut [u8], at: usize, n: u64) -> usize
    requires { (10 ≤ n) × (n < 100) × (at + length (decimal n) ≤ length out.old) }
    ensures { Wrote out.old at (decimal n) out.new result }
{
    let p = put_byte(out, at, digit(n / 10));
    put_byte(out, p, digit(n % 10))
}

pub fn put_number(out: &mut [u8], at: usize, n: u64) -> usize
    requires { at + length (decimal n) ≤ length out.old }
    ensures { Wrote out.old at (decimal n) out.new result }
{
    if n < 10 {
        return put_byte(out, at, digit(n));
    }
    if n < 100 {
        return put_two(out, at, n);
    }
    if n < 1000 {
        let p = put_two(out, at, n / 10);
        return put_byte(out, p, digit(n % 10));
    }
    let end = at + number_length(n);
    put_digits(out, end, n);
    end
}

// A comma, and the field: its digits where it is a number, and else nothing.
fn put_field(out: &mut [u8], at: usize, field: Field) -> usize
    requires { at + length (44 ∷ field_text field) ≤ length out.old }
    ensures { Wrote out.old at (44 ∷ field_text field) out.new result }
{
    let p = put_byte(out, at, b',');
    match field {
        Field::Number(n) => put_number(out, p, n),
        Field::Empty | Field::Malformed => p,
    }
}

// A letter, the fields of the rows, and an LF.
pub fn put_line(out: &mut [u8], at: usize, letter: u8, rows: &[[u64; 2]]) -> usize
    requires { at + length (line_text letter (map row_field rows.now)) ≤ length out.old }
    ensures { Wrote out.old at (line_text letter (map row_field rows.now)) out.new result }
{
    let mut p = put_byte(out, at, letter);
    for row in rows {
        p = put_field(out, p, Field::of_row(row));
    }
    put_byte(out, p, b'\n')
}
