// The order that a requirement asks of the pairs of a join. Ports `try_reorder` and `expected_expr_positions`.
ghost use Rattle.std.specs.Prelude.{◌≡◌, List, ℕ, ◌≤◌, eqb, length};
ghost use Rattle.keys.specs.Expressions.{gone_number};
ghost use Rattle.keys.specs.Lists.{take_places, expected_expr_positions};
ghost use Rattle.keys.specs.Reorder.{rewrite_one, rewrite, meets, either_side, moved_by, try_reorder};
ghost use Rattle.keys.specs.Searched.{searched, searched_by};
ghost use Rattle.keys.specs.Values.{number_rules, positions_of, positions_in, tried_of, report_of};

use crate::list::{KeyList, NumberList, Positions};

// Each expected key takes its leftmost place among the current ones, which then becomes the placeholder.
fn take_places(current: &[u64], expected: &[u64]) -> Option<NumberList>
    requires { (length current.now ≤ 32) × (length expected.now ≤ 32) }
    ensures { positions_of result ≡ take_places eqb gone_number current.now expected.now }
{
    let mut left = KeyList::new(current);
    let mut items = [0u8; 32];
    for (i, &key) in expected.iter().enumerate() {
        let p = left.place_of(key)?;
        left.take(p);
        // No From goes from usize to u8, and a place of a key list fits.
        items[i] = p as u8;
    }
    Some(NumberList::new(items, expected.len()))
}

pub fn expected_expr_positions(current: &[u64], expected: &[u64]) -> Option<NumberList>
    requires { (length current.now ≤ 32) × (length expected.now ≤ 32) }
    ensures { positions_of result ≡ expected_expr_positions eqb gone_number current.now expected.now }
{
    if current.is_empty() || expected.is_empty() {
        return None;
    }
    take_places(current, expected)
}

// The first rule whose first key is x gives its second; no such rule: x itself.
// By `find` it takes a fifth more instructions, and a sheet of 32 rules a third more time.
fn rewrite_one(w: &[[u64; 2]], x: u64) -> u64
    ensures { result ≡ rewrite_one eqb (number_rules w.now) x }
{
    for rule in w {
        if rule[0] == x {
            return rule[1];
        }
    }
    x
}

// Each key rewritten, in the room lent.
fn rewrite_keys<'a>(w: &[[u64; 2]], keys: &[u64], out: &'a mut [u64; 32]) -> &'a [u64]
    requires { length keys.now ≤ 32 }
    ensures { result.now ≡ rewrite eqb (number_rules w.now) keys.now }
{
    for (i, &key) in keys.iter().enumerate() {
        out[i] = rewrite_one(w, key);
    }
    &out[..keys.len()]
}

// The keys of both sides of a join, and the list that is required of them.
#[derive(Clone, Copy)]
pub struct Pairs<'a> {
    pub required: &'a [u64],
    pub left: &'a [u64],
    pub right: &'a [u64],
    pub ghost few_required: { length required.now ≤ 32 },
    pub ghost few: { length left.now ≤ 32 },
    pub ghost even: { length right.now ≡ length left.now },
}

fn meets(x: Pairs<'_>) -> bool
    ensures { result ≡ meets eqb x.entry.required.now x.entry.left.now x.entry.right.now }
{
    x.required == x.left || x.required == x.right
}

fn either_side(x: Pairs<'_>) -> Option<NumberList>
    ensures { positions_of result ≡ either_side eqb gone_number x.entry.required.now x.entry.left.now x.entry.right.now }
{
    let left = expected_expr_positions(x.left, x.required);
    left.or_else(|| expected_expr_positions(x.right, x.required))
}

// What a try comes to.
#[derive(Clone, Copy)]
pub enum Reordered {
    Met,
    Moved(NumberList),
    Impossible,
}

impl Reordered {
    // Document 01's number.
    pub fn report(self) -> u64
        ensures { result ≡ report_of self }
    {
        match self {
            Reordered::Met => 1,
            Reordered::Moved(_) => 2,
            Reordered::Impossible => 3,
        }
    }

    // The positions of the pairs that moved.
    pub fn positions(&self) -> Positions<'_>
        ensures { result.list.now ≡ positions_in self.now }
    {
        match self {
            Reordered::Moved(at) => at.positions(),
            Reordered::Met | Reordered::Impossible => Positions::NONE,
        }
    }
}

// The pairs are moved to the positions, where all were found.
fn moved_by(p: Option<NumberList>) -> Reordered
    ensures { (l g : List ℕ) → tried_of l g result ≡ moved_by gone_number l g (positions_of p) }
{
    match p {
        Some(at) => Reordered::Moved(at),
        None => Reordered::Impossible,
    }
}

// Where the keys as they stand do not meet the requirement: whether the rewritten ones do, and the search.
fn search_order(raw: Pairs<'_>, rewritten: Pairs<'_>) -> Reordered
    ensures { tried_of raw.entry.left.now raw.entry.right.now result ≡ searched eqb gone_number raw.entry.required.now raw.entry.left.now raw.entry.right.now rewritten.entry.required.now rewritten.entry.left.now rewritten.entry.right.now }
{
    if meets(rewritten) {
        return Reordered::Met;
    }
    match either_side(raw) {
        Some(at) => Reordered::Moved(at),
        None => moved_by(either_side(rewritten)),
    }
}

fn try_rewritten(w: &[[u64; 2]], raw: Pairs<'_>) -> Reordered
    ensures { tried_of raw.entry.left.now raw.entry.right.now result ≡ searched_by eqb gone_number (number_rules w.now) raw.entry.required.now raw.entry.left.now raw.entry.right.now }
{
    let mut required = [0u64; 32];
    let mut left = [0u64; 32];
    let mut right = [0u64; 32];
    let rewritten = Pairs {
        required: rewrite_keys(w, raw.required, &mut required),
        left: rewrite_keys(w, raw.left, &mut left),
        right: rewrite_keys(w, raw.right, &mut right),
    };
    search_order(raw, rewritten)
}

pub fn try_reorder(w: &[[u64; 2]], x: Pairs<'_>) -> Reordered
    ensures { tried_of x.entry.left.now x.entry.right.now result ≡ try_reorder eqb gone_number (number_rules w.now) x.entry.required.now x.entry.left.now x.entry.right.now }
{
    if x.left.len() != x.required.len() {
        return Reordered::Impossible;
    }
    if meets(x) {
        return Reordered::Met;
    }
    if w.is_empty() {
        return moved_by(either_side(x));
    }
    try_rewritten(w, x)
}
