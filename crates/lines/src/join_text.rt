// The lines of an I answer: i, P, L, G, S.
ghost use Rattle.std.specs.Prelude.{◌≡◌, ◌≤◌, length};
ghost use Rattle.text.specs.Write.{Wrote};
ghost use Rattle.lines.specs.Texts.{join_text_of};

use crate::line::{exprs_length, numbers_length, pair_length, put_exprs, put_numbers, put_pair};

// The numbers and lists of an I answer, keys packed.
#[derive(Clone, Copy)]
pub struct JoinLists<'a> {
    pub report: u64,
    pub followed: u64,
    pub positions: &'a [u64],
    pub left: &'a [u64],
    pub right: &'a [u64],
    pub directions: &'a [u64],
}

pub fn join_lists_length(x: &JoinLists<'_>) -> usize
    requires { (length x.now.positions.now ≤ 64) × (length x.now.left.now ≤ 64) × (length x.now.right.now ≤ 64) × (length x.now.directions.now ≤ 64) }
    ensures exact { result ≡ length (join_text_of x.now) }
    ensures few { result ≤ 65536 }
{
    let head = pair_length(x.report, x.followed) + numbers_length(x.positions);
    head + exprs_length(x.left) + exprs_length(x.right) + numbers_length(x.directions)
}

pub fn put_join_lists(out: &mut [u8], x: &JoinLists<'_>) -> usize
    requires { length (join_text_of x.now) ≤ length out.old }
    ensures { Wrote out.old 0 (join_text_of x.now) out.new result }
{
    let at_p = put_pair(out, 0, b'i', x.report, x.followed);
    let at_l = put_numbers(out, at_p, b'P', x.positions);
    let at_g = put_exprs(out, at_l, b'L', x.left);
    let at_s = put_exprs(out, at_g, b'G', x.right);
    put_numbers(out, at_s, b'S', x.directions)
}
