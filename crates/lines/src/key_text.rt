// The lines k, P, R, L, G, S, J of a K answer.
ghost use Rattle.std.specs.Prelude.{◌≡◌, ◌≤◌, length};
ghost use Rattle.text.specs.Write.{Wrote};
ghost use Rattle.lines.specs.Texts.{key_text_of};

use crate::line::{exprs_length, numbers_length, pair_length, put_exprs, put_numbers, put_pair};

// The numbers and lists of a K answer, keys packed.
#[derive(Clone, Copy)]
pub struct KeyLists<'a> {
    pub changed: u64,
    pub report: u64,
    pub positions: &'a [u64],
    pub required: &'a [u64],
    pub left: &'a [u64],
    pub right: &'a [u64],
    pub directions: &'a [u64],
    pub projection: &'a [u64],
}

pub fn key_lists_length(x: &KeyLists<'_>) -> usize
    requires { (length x.now.positions.now ≤ 64) × (length x.now.required.now ≤ 64) × (length x.now.left.now ≤ 64) × (length x.now.right.now ≤ 64) × (length x.now.directions.now ≤ 64) × (length x.now.projection.now ≤ 128) }
    ensures exact { result ≡ length (key_text_of x.now) }
    ensures few { result ≤ 65536 }
{
    let head = pair_length(x.changed, x.report)
        + numbers_length(x.positions)
        + exprs_length(x.required);
    let sides = exprs_length(x.left) + exprs_length(x.right);
    head + sides + numbers_length(x.directions) + numbers_length(x.projection)
}

pub fn put_key_lists(out: &mut [u8], x: &KeyLists<'_>) -> usize
    requires { length (key_text_of x.now) ≤ length out.old }
    ensures { Wrote out.old 0 (key_text_of x.now) out.new result }
{
    let at_p = put_pair(out, 0, b'k', x.changed, x.report);
    let at_r = put_numbers(out, at_p, b'P', x.positions);
    let at_l = put_exprs(out, at_r, b'R', x.required);
    let at_g = put_exprs(out, at_l, b'L', x.left);
    let at_s = put_exprs(out, at_g, b'G', x.right);
    let at_j = put_numbers(out, at_s, b'S', x.directions);
    put_numbers(out, at_j, b'J', x.projection)
}
