// The C lines of a K answer: each child keeps its list, or is handed another.
ghost use Rattle.std.specs.Prelude.{◌≡◌, ℕ, ◌+◌, ◌≤◌, ◌<◌, length, get_or, IfSome, option_copied};
ghost use Rattle.text.specs.Write.{Wrote};
ghost use Rattle.lines.specs.Children.{children_text, child_list};

use crate::line::{exprs_length, put_exprs};
use sheet::held::Lists;

// What the first child and every other is handed; none keeps its own list.
#[derive(Clone, Copy)]
pub struct Children<'a> {
    pub first: Option<&'a [u64]>,
    pub others: Option<&'a [u64]>,
}

// The list of child i.
fn child_list<'a>(children: Children<'a>, i: usize, own: &'a [u64]) -> &'a [u64]
    ensures { result.now ≡ child_list i (option_copied children.entry.first) (option_copied children.entry.others) own.now }
{
    let handed = if i == 0 {
        children.first
    } else {
        children.others
    };
    handed.unwrap_or(own)
}

// The length of n children's lines. Their lists are those from 9 on; how many, the head of the sheet says.
pub fn children_length(children: Children<'_>, held: Lists<'_, '_>, n: usize) -> usize
    requires { (n ≤ 8) × (17 ≤ length held.lists.now) × (17 ≤ length held.counts.now) × IfSome (option_copied children.first) (λ l. length l ≤ 64) × IfSome (option_copied children.others) (λ l. length l ≤ 64) × ((i : ℕ) → i < 9 + n → get_or held.counts.now i 0 ≤ 64) }
    ensures exact { result ≡ length (children_text (option_copied children.entry.first) (option_copied children.entry.others) held.entry.lists.now held.entry.counts.now n) }
    ensures few { result ≤ 65536 }
{
    let mut length = 0;
    for i in 0..n {
        length += exprs_length(child_list(children, i, held.list(9 + i)));
    }
    length
}

pub fn put_children(
    out: &mut [u8],
    at: usize,
    children: Children<'_>,
    held: Lists<'_, '_>,
    n: usize,
) -> usize
    requires { (n ≤ 8) × (17 ≤ length held.lists.now) × (17 ≤ length held.counts.now) × ((i : ℕ) → i < 9 + n → get_or held.counts.now i 0 ≤ 64) × (at + length (children_text (option_copied children.first) (option_copied children.others) held.lists.now held.counts.now n) ≤ length out.old) }
    ensures { Wrote out.old at (children_text (option_copied children.entry.first) (option_copied children.entry.others) held.entry.lists.now held.entry.counts.now n) out.new result }
{
    let mut p = at;
    for i in 0..n {
        p = put_exprs(out, p, b'C', child_list(children, i, held.list(9 + i)));
    }
    p
}
