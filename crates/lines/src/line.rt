// Lines written from a list of numbers, or of packed expressions, and their lengths.
ghost use Rattle.std.specs.Prelude.{◌≡◌, [], ◌∷◌, map, ℕ, ◌+◌, ◌≤◌, length};
ghost use Rattle.text.specs.declared.field.Field.TheVariants.{Number as number};
ghost use Rattle.text.specs.Write.{fields_text, Wrote};
ghost use Rattle.keys.specs.Expressions.{expressions};
ghost use Rattle.sheet.specs.KeyAnswers.{numbers_line, expr_numbers, exprs_line};
ghost use Rattle.lines.specs.Fields.{number_field, expr_fields};

use keys::expr::Expr;
use text::write::{number_length, put_byte, put_number};

// The length of the numbers' line, whatever its letter.
pub(crate) fn numbers_length(list: &[u64]) -> usize
    requires { length list.now ≤ 128 }
    ensures exact { (letter : ℕ) → result ≡ length (numbers_line letter list.now) }
    ensures few { result ≤ 4096 }
{
    let mut length = 2;
    for &n in list {
        length += 1 + number_length(n);
    }
    length
}

// The length of a line of two numbers.
pub(crate) fn pair_length(a: u64, b: u64) -> usize
    ensures exact { (letter : ℕ) → result ≡ length (numbers_line letter (a ∷ b ∷ [])) }
    ensures few { result ≤ 44 }
{
    4 + number_length(a) + number_length(b)
}

// The length of an expression's three fields, each with its comma.
fn expr_length(e: Expr) -> usize
    ensures exact { result ≡ length (expr_fields e.number) }
    ensures few { result ≤ 63 }
{
    3 + number_length(e.kind()) + number_length(e.name()) + number_length(e.index())
}

// The length of the expressions' line, whatever its letter.
pub(crate) fn exprs_length(list: &[u64]) -> usize
    requires { length list.now ≤ 64 }
    ensures exact { (letter : ℕ) → result ≡ length (exprs_line letter (expressions list.now)) }
    ensures few { result ≤ 4096 }
{
    let mut length = 2;
    for &e in list {
        length += expr_length(Expr { number: e });
    }
    length
}

// A number, and a comma before it.
fn put_number_field(out: &mut [u8], at: usize, n: u64) -> usize
    requires { at + length (number_field n) ≤ length out.old }
    ensures { Wrote out.old at (number_field n) out.new result }
{
    let p = put_byte(out, at, b',');
    put_number(out, p, n)
}

// The numbers, and a comma before each.
pub(crate) fn put_number_fields(out: &mut [u8], at: usize, list: &[u64]) -> usize
    requires { at + length (fields_text (map number list.now)) ≤ length out.old }
    ensures { Wrote out.old at (fields_text (map number list.now)) out.new result }
{
    let mut p = at;
    for &n in list {
        p = put_number_field(out, p, n);
    }
    p
}

fn put_expr(out: &mut [u8], at: usize, e: Expr) -> usize
    requires { at + length (expr_fields e.number) ≤ length out.old }
    ensures { Wrote out.old at (expr_fields e.number) out.new result }
{
    let p = put_number_field(out, at, e.kind());
    let q = put_number_field(out, p, e.name());
    put_number_field(out, q, e.index())
}

// The fields of the expressions, and a comma before each.
pub(crate) fn put_expr_fields(out: &mut [u8], at: usize, list: &[u64]) -> usize
    requires { at + length (fields_text (map number (expr_numbers (expressions list.now)))) ≤ length out.old }
    ensures { Wrote out.old at (fields_text (map number (expr_numbers (expressions list.now)))) out.new result }
{
    let mut p = at;
    for &e in list {
        p = put_expr(out, p, Expr { number: e });
    }
    p
}

// The numbers' line.
pub fn put_numbers(out: &mut [u8], at: usize, letter: u8, list: &[u64]) -> usize
    requires { at + length (numbers_line letter list.now) ≤ length out.old }
    ensures { Wrote out.old at (numbers_line letter list.now) out.new result }
{
    let p = put_byte(out, at, letter);
    let q = put_number_fields(out, p, list);
    put_byte(out, q, b'\n')
}

// The line of two numbers.
pub(crate) fn put_pair(out: &mut [u8], at: usize, letter: u8, a: u64, b: u64) -> usize
    requires { at + length (numbers_line letter (a ∷ b ∷ [])) ≤ length out.old }
    ensures { Wrote out.old at (numbers_line letter (a ∷ b ∷ [])) out.new result }
{
    let p = put_byte(out, at, letter);
    let q = put_number_field(out, p, a);
    let e = put_number_field(out, q, b);
    put_byte(out, e, b'\n')
}

// The expressions' line.
pub(crate) fn put_exprs(out: &mut [u8], at: usize, letter: u8, list: &[u64]) -> usize
    requires { at + length (exprs_line letter (expressions list.now)) ≤ length out.old }
    ensures { Wrote out.old at (exprs_line letter (expressions list.now)) out.new result }
{
    let p = put_byte(out, at, letter);
    let q = put_expr_fields(out, p, list);
    put_byte(out, q, b'\n')
}
