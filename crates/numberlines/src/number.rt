// Reads a number and the byte that ends it. The text ends with an LF, so that no place is compared with its length on the way.
ghost use Rattle.std.specs.Prelude.{ℕ, ◌+◌, ◌≤◌, ◌<◌, length};
ghost use Rattle.text.specs.Write.{decimal};
ghost use Rattle.linekinds.specs.PlainText.{TextAt};
ghost use Rattle.numberlines.specs.NumberLines.{Closed, NumberTo};

use crate::comma::Comma;
use linekinds::bounds::PLAIN;
use linekinds::plain::Number;

// The number that goes on at a place, after digits that gave `begun`.
fn longer_to(s: &[u8], at: usize, begun: u64, b: u8) -> Option<Number>
    requires { Closed s.now × (at < length s.now) × (begun < 65536) × (b < 48) }
    ensures { (from : ℕ) → TextAt s.now from (decimal begun) at → NumberTo s.now from b result }
{
    let mut n = begun;
    let mut p = at;
    // The digits end where another byte stands.
    while s[p].is_ascii_digit() {
        if n == 0 {
            return None;
        }
        n = n * 10 + u64::from(s[p] - b'0');
        if n > PLAIN {
            return None;
        }
        p += 1;
    }
    if s[p] != b {
        return None;
    }
    Some(Number { value: n, end: p })
}

// A number up to 65535 after a comma, and the place of the byte b after it.
#[inline(always)]
pub(crate) fn number_to(from: Comma<'_>, b: u8) -> Option<Number>
    requires { b < 48 }
    ensures { NumberTo from.entry.s.now (from.entry.at + 1) b result }
{
    let s = from.s;
    let at = from.at + 1;
    if !s[at].is_ascii_digit() {
        return None;
    }
    let n = u64::from(s[at] - b'0');
    let p = at + 1;
    if s[p] == b {
        return Some(Number { value: n, end: p });
    }
    longer_to(s, p, n, b)
}
