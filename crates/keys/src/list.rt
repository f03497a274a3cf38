// Lists of keys and of positions: thirty-two entries and a count.
ghost use Rattle.std.specs.Prelude.{◌≡◌, ◌≤◌, length, get_or, take};
ghost use Rattle.keys.specs.Lists.{permute};

use crate::expr::{Expr, GONE};

// An array of thirty-two expressions and a count: document 01 names this struct and what it holds, so it is no case of a generic one.
#[derive(Clone, Copy)]
pub struct KeyList {
    pub items: [Expr; 32],
    pub count: usize,
    ghost full: { length items ≡ 32 },
    ghost within: { count ≤ 32 },
}

// The same of positions, a byte each, so that a list is short enough to be handed over.
#[derive(Clone, Copy)]
pub struct NumberList {
    pub items: [u8; 32],
    pub count: usize,
    ghost full: { length items ≡ 32 },
    ghost within: { count ≤ 32 },
}

// Positions that were found, handed on.
#[derive(Clone, Copy)]
pub struct Positions<'a> {
    pub list: &'a [u8],
    pub ghost few: { length list.now ≤ 32 },
}

impl Positions<'_> {
    pub const NONE: Positions<'static> = Positions { list: &[] };
}

impl KeyList {
    ghost use Rattle.std.specs.Prelude.{◌<◌, eqb, set, IfSome};
    ghost use Rattle.keys.specs.Expressions.{gone_number};
    ghost use Rattle.keys.specs.Lists.{place_of};
    ghost use Rattle.keys.specs.Values.{packed_keys, found};

    fn empty() -> KeyList
        ensures { result.count ≡ 0 }
    {
        KeyList {
            items: [Expr { number: 0 }; 32],
            count: 0,
        }
    }

    // The keys of a lent list.
    pub fn new(keys: &[u64]) -> KeyList
        requires { length keys.now ≤ 32 }
        ensures keys { packed_keys result ≡ keys.now }
        ensures count { result.count ≡ length keys.now }
    {
        let mut list = KeyList::empty();
        for (i, &number) in keys.iter().enumerate() {
            list.items[i] = Expr { number };
        }
        list.count = keys.len();
        list
    }

    // The keys at the positions.
    pub fn moved(keys: &[u64], at: Positions<'_>) -> KeyList
        ensures keys { packed_keys result ≡ permute gone_number keys.now at.entry.list.now }
        ensures count { result.count ≡ length at.entry.list.now }
    {
        let mut list = KeyList::empty();
        for (i, &p) in at.list.iter().enumerate() {
            list.items[i] = Expr {
                number: entry(GONE, keys, p),
            };
        }
        list.count = at.list.len();
        list
    }

    pub fn keys(&self) -> &[Expr]
        ensures { result.now ≡ take self.now.count self.now.items }
    {
        &self.items[..self.count]
    }

    // The leftmost place of a key.
    pub(crate) fn place_of(&self, key: u64) -> Option<usize>
        ensures place { found result ≡ place_of eqb key (packed_keys self.now) }
        ensures within { IfSome result (λ p. p < self.now.count) }
    {
        self.keys().iter().position(|e| e.number == key)
    }

    // The placeholder at a place.
    pub(crate) fn take(&mut self, p: usize)
        requires { p < self.old.count }
        ensures keys { packed_keys self.new ≡ set (packed_keys self.old) p gone_number }
        ensures count { self.new.count ≡ self.old.count }
    {
        self.items[p] = Expr { number: GONE };
    }
}

impl NumberList {
    ghost use Rattle.keys.specs.Values.{numbers};

    pub fn new(items: [u8; 32], count: usize) -> NumberList
        requires { count ≤ 32 }
        ensures items { result.items ≡ items }
        ensures count { result.count ≡ count }
    {
        NumberList { items, count }
    }

    pub fn positions(&self) -> Positions<'_>
        ensures { result.list.now ≡ numbers self.now }
    {
        Positions {
            list: &self.items[..self.count],
        }
    }
}

// What stands at a position, or `gone` where nothing does.
pub fn entry(gone: u64, all: &[u64], p: u8) -> u64
    ensures { result ≡ get_or all.now p gone }
{
    all.get(usize::from(p)).copied().unwrap_or(gone)
}

// The numbers at the positions, in the front of the room lent; `gone` where nothing stands. By index: with a zip it would be no shorter.
// No slice is handed back: a clause cannot say what a room holds while a part of it is lent out.
pub fn permute(gone: u64, all: &[u64], at: Positions<'_>, out: &mut [u64; 32])
    ensures { take (length at.entry.list.now) out.new ≡ permute gone all.now at.entry.list.now }
{
    for (i, &p) in at.list.iter().enumerate() {
        out[i] = entry(gone, all, p);
    }
}
