// Reads one field of a line.
ghost use Rattle.std.specs.Prelude.{◌≡◌, ◌↔◌, IsTrue, ◌+◌, drop};
ghost use Rattle.text.specs.declared.field.Field.TheVariants.{Number as number, Empty as empty, Malformed as malformed};
ghost use Rattle.text.specs.Text.{state_of, value_of};
ghost use Rattle.text.specs.Scan.{span, more_digits, first, DigitAndComma};
ghost use Rattle.text.specs.Read.{field_to};
ghost use Rattle.text.specs.Write.{row_field};

// The largest number of which ten times as much still fits.
const TENTH: u64 = u64::MAX / 10;

// A number of 64 bits, nothing, or anything else.
#[derive(Clone, Copy, PartialEq, Eq, Debug)]
pub enum Field {
    Number(u64),
    Empty,
    Malformed,
}

impl Field {
    // The field that a row stands for.
    pub fn of_row(row: &[u64; 2]) -> Field
        ensures { result ≡ row_field row.now }
    {
        Field::from(row)
    }

    // The state of its row: 0 a number, 1 empty, 2 malformed.
    pub fn state(self) -> u64
        ensures { result ≡ state_of self }
    {
        match self {
            Field::Number(_) => 0,
            Field::Empty => 1,
            Field::Malformed => 2,
        }
    }

    // The value of its row, 0 where it is no number.
    pub fn value(self) -> u64
        ensures { result ≡ value_of self }
    {
        match self {
            Field::Number(n) => n,
            Field::Empty => 0,
            Field::Malformed => 0,
        }
    }
}

impl From<&[u64; 2]> for Field {
    ghost from_gives = { λ row r. r ≡ row_field row.now };

    fn from(row: &[u64; 2]) -> Field {
        match row[0] {
            0 => Field::Number(row[1]),
            1 => Field::Empty,
            _ => Field::Malformed,
        }
    }
}

// A field, with the place of the byte that ends it, or the text's length.
#[derive(Clone, Copy)]
pub struct Scanned {
    pub end: usize,
    pub field: Field,
}

// The place of the first comma or LF from `at` on, or the length.
fn field_end(s: &[u8], at: usize) -> usize
    ensures place { result ≡ at + span (drop at s.now) }
{
    let rest = s.get(at..).unwrap_or(&[]);
    at + rest
        .iter()
        .position(|b| *b == b',' || *b == b'\n')
        .unwrap_or(rest.len())
}

// A field that is malformed, and that goes on at `at`.
fn malformed_at(s: &[u8], at: usize) -> Scanned
    ensures { result ≡ field_to (at + span (drop at s.now)) malformed }
{
    Scanned {
        end: field_end(s, at),
        field: Field::Malformed,
    }
}

// The field that goes on at `at` after digits that gave `begun`.
fn more_digits(s: &[u8], at: usize, begun: u64) -> Scanned
    ensures { result ≡ field_to (at + span (drop at s.now)) (more_digits begun (drop at s.now)) }
{
    let mut n = begun;
    for i in at..s.len() {
        let b = s[i];
        if b == b',' || b == b'\n' {
            return Scanned {
                end: i,
                field: Field::Number(n),
            };
        }
        if !b.is_ascii_digit() || n == 0 || n > TENTH {
            return malformed_at(s, i);
        }
        let d = u64::from(b - b'0');
        let m = n * 10;
        if m > u64::MAX - d {
            return malformed_at(s, i);
        }
        n = m + d;
    }
    Scanned {
        end: s.len().max(at),
        field: Field::Number(n),
    }
}

// The field that begins at `at`.
pub(crate) fn field_at(s: &[u8], at: usize) -> Scanned
    ensures { result ≡ field_to (at + span (drop at s.now)) (first (drop at s.now)) }
{
    if s.len() <= at || s[at] == b',' || s[at] == b'\n' {
        return Scanned {
            end: at,
            field: Field::Empty,
        };
    }
    let b = s[at];
    if !b.is_ascii_digit() {
        return malformed_at(s, at);
    }
    more_digits(s, at + 1, u64::from(b - b'0'))
}

// A digit stands at `at`, and a comma after it: the most frequent field.
pub(crate) fn digit_and_comma(s: &[u8], at: usize) -> bool
    ensures { IsTrue result ↔ DigitAndComma s.now at }
{
    at < s.len() && s.len() - at > 1 && s[at].is_ascii_digit() && s[at + 1] == b','
}
