// The pairs of an answer at the positions that were found: the keys of both sides, and the directions with them.
ghost use Rattle.std.specs.Prelude.{◌≡◌, ◌≤◌, length, take};
ghost use Rattle.keys.specs.Lists.{permute};
ghost use Rattle.keys.specs.Expressions.{gone_number};
ghost use Rattle.keys.specs.Adjust.{moved_directions};
ghost use Rattle.moves.specs.Moved.{MovedBy};

use keys::list::{KeyList, Positions, permute};

// The positions, the keys of both sides there, and the directions.
#[derive(Clone, Copy)]
pub struct MovedPairs<'a> {
    pub positions: &'a [u64],
    pub left: &'a [u64],
    pub right: &'a [u64],
    pub directions: &'a [u64],
}

impl MovedPairs<'_> {
    pub const NONE: MovedPairs<'static> = MovedPairs {
        positions: &[],
        left: &[],
        right: &[],
        directions: &[],
    };
}

// Room for what stands at up to thirty-two positions.
#[derive(Drop)]
pub struct PairRooms {
    pub positions: [u64; 32],
    pub left: [u64; 32],
    pub right: [u64; 32],
    pub directions: [u64; 32],
}

impl PairRooms {
    pub const EMPTY: PairRooms = PairRooms {
        positions: [0; 32],
        left: [0; 32],
        right: [0; 32],
        directions: [0; 32],
    };
}

// A side's keys at the positions: built in a key list, and laid as numbers in the front of the room lent.
fn moved_side(keys: &[u64], at: Positions<'_>, out: &mut [u64; 32])
    ensures { take (length at.entry.list.now) out.new ≡ permute gone_number keys.now at.entry.list.now }
{
    let moved = KeyList::moved(keys, at);
    for (i, key) in moved.keys().iter().enumerate() {
        out[i] = key.number;
    }
}

// The positions as numbers, in the front of the room lent; by index, as `keys::list::permute`.
fn wide_positions(at: Positions<'_>, out: &mut [u64; 32])
    ensures { take (length at.entry.list.now) out.new ≡ at.entry.list.now }
{
    for (i, &p) in at.list.iter().enumerate() {
        out[i] = u64::from(p);
    }
}

// The directions at the first positions, one for each that there is; how many.
fn moved_directions(s: &[u64], at: Positions<'_>, out: &mut [u64; 32]) -> usize
    ensures few { result ≤ 32 }
    ensures moved { take result out.new ≡ moved_directions s.now at.entry.list.now }
{
    let n = at.list.len().min(s.len());
    let list = &at.list[..n];
    permute(0, s, Positions { list }, out);
    n
}

// The pairs at the positions, in the front of the rooms lent; how many directions.
fn moved_pairs(l: &[u64], g: &[u64], s: &[u64], at: Positions<'_>, rooms: &mut PairRooms) -> usize
    ensures positions { take (length at.entry.list.now) rooms.new.positions ≡ at.entry.list.now }
    ensures left { take (length at.entry.list.now) rooms.new.left ≡ permute gone_number l.now at.entry.list.now }
    ensures right { take (length at.entry.list.now) rooms.new.right ≡ permute gone_number g.now at.entry.list.now }
    ensures few { result ≤ 32 }
    ensures directions { take result rooms.new.directions ≡ moved_directions s.now at.entry.list.now }
{
    wide_positions(at, &mut rooms.positions);
    moved_side(l, at, &mut rooms.left);
    moved_side(g, at, &mut rooms.right);
    moved_directions(s, at, &mut rooms.directions)
}

// The same, handed on as slices of the rooms.
pub fn pairs_at<'a>(
    l: &[u64],
    g: &[u64],
    s: &[u64],
    at: Positions<'_>,
    rooms: &'a mut PairRooms,
) -> MovedPairs<'a>
    ensures { MovedBy l.now g.now s.now at.entry.list.now result }
{
    let n = at.list.len();
    let directed = moved_pairs(l, g, s, at, &mut *rooms);
    MovedPairs {
        positions: &rooms.positions[..n],
        left: &rooms.left[..n],
        right: &rooms.right[..n],
        directions: &rooms.directions[..directed],
    }
}
