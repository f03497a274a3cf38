// Operators as rows of numbers, lent as slices: a tree is its rows in preorder.
// Here and in child.rt, ordered.rt, finish.rt and replace.rt the rows to write and the place in them, `dst` and `to`, stay two:
// of a struct that lends `dst` by &mut each function would have to promise that it is the same slice still.
ghost use Rattle.std.specs.Prelude.{◌≡◌, List, [], ◌++◌, ℕ, ◌+◌, ◌<◌, length, get_or, set, drop};
ghost use Rattle.exchange.specs.Trees.{Plan};
ghost use Rattle.exchange.specs.Rows.{packed, unpacked, node_at, children_at, flatten};
ghost use Rattle.exchange.specs.Runs.{Stands, Ready, Readys, Maps, MapsAll};

// The places of a row.
pub const ID: usize = 0;

pub const KIND: usize = 1;

pub const COUNT: usize = 2;

pub const KEEPS: usize = 3;

pub const LIMITED: usize = 4;

pub const LIMIT: usize = 5;

pub const ORDER: usize = 6;

pub const MASK: usize = 7;

pub const TRACKED: usize = 8;

pub const NEED: usize = 9;

pub const CHILDREN: usize = 10;

pub const WIDTH: usize = 11;

// The mark of a node without a limit.
pub const NO_LIMIT: u64 = 0;

// Kinds and needs stay numbers, as kind.rt says, and marks, as mark.rt says.
pub type Row = [u64; WIDTH];

// An operator. An absent limit has `limited` 0 and `limit` 0. Kinds, marks and needs stay numbers, as in `Row`.
#[repr(C)]
#[derive(Clone, Copy, Default)]
pub struct Node {
    pub id: u64,
    pub kind: u64,
    pub count: u64,
    pub keeps: u64,
    pub limited: u64,
    pub limit: u64,
    pub order: u64,
    pub mask: u64,
    pub tracked: u64,
    pub need: u64,
}

// Rows, and a place among them.
#[derive(Clone, Copy)]
pub struct Place<'a> {
    pub rows: &'a [Row],
    pub at: usize,
}

// Past what was read, and past what was written.
#[derive(Clone, Copy)]
pub struct Step {
    pub at: usize,
    pub to: usize,
}

impl From<Row> for Node {
    ghost from_gives = { λ x r. r ≡ unpacked x };

    fn from(x: Row) -> Node {
        Node {
            id: x[ID],
            kind: x[KIND],
            count: x[COUNT],
            keeps: x[KEEPS],
            limited: x[LIMITED],
            limit: x[LIMIT],
            order: x[ORDER],
            mask: x[MASK],
            tracked: x[TRACKED],
            need: x[NEED],
        }
    }
}

pub fn pack(n: Node, children: u64) -> Row
    ensures { result ≡ packed n children }
{
    [
        n.id, n.kind, n.count, n.keeps, n.limited, n.limit, n.order, n.mask, n.tracked, n.need,
        children,
    ]
}

// That `at` is in range stays a clause here and below, and so does that a tree stands there: a loop passes the place past the last tree
// too, which is the rows' length, so `Place` has to be there without the fact, and a struct with it would be a second for the same values.
// They take `rows` and `at` and no `Place`: what calls them has these two by themselves, mostly with another place or after a write.
pub fn node_at(rows: &[Row], at: usize) -> Node
    requires { at < length rows.now }
    ensures { result ≡ node_at rows.now at }
{
    Node::from(rows[at])
}

pub fn children_at(rows: &[Row], at: usize) -> u64
    requires { at < length rows.now }
    ensures { result ≡ children_at rows.now at }
{
    rows[at][CHILDREN]
}

pub fn put_node(rows: &mut [Row], to: usize, n: Node, children: u64)
    requires { to < length rows.old }
    ensures { rows.new ≡ set rows.old to (packed n children) }
{
    rows[to] = pack(n, children);
}

// The mark of the row at `at`.
pub fn set_mark(rows: &mut [Row], at: usize, m: u64)
    requires { at < length rows.old }
    ensures { rows.new ≡ set rows.old at (set (get_or rows.old at []) 8 m) }
{
    rows[at][TRACKED] = m;
}

// The place past the tree at `at`. That one stands there stays a clause, as in `node_at`.
pub fn past_tree(rows: &[Row], at: usize) -> usize
    requires { Stands rows.now at }
    ensures { (t : Plan) (rest : List (List ℕ)) → drop at rows.now ≡ flatten t ++ rest → result ≡ at + length (flatten t) }
{
    let mut a = at;
    let mut left: u64 = 1;
    // No `for`: each row says how many are still to come.
    while left != 0 {
        left = left - 1 + children_at(rows, a);
        a += 1;
    }
    a
}

// The `count` trees from the place on, as they stand.
pub fn copy_trees(src: Place, count: u64, dst: &mut [Row], to: usize) -> Step
    requires { Readys (λ ts. ts) src.rows.now src.at count (length dst.old) to }
    ensures { MapsAll (λ ts. ts) src.entry.rows.now src.entry.at count dst.old to dst.new result }
{
    let mut a = src.at;
    let mut b = to;
    let mut left = count;
    // No `for`: each row says how many are still to come.
    while left != 0 {
        let below = children_at(src.rows, a);
        dst[b] = src.rows[a];
        a += 1;
        b += 1;
        left = left - 1 + below;
    }
    Step { at: a, to: b }
}

// The tree that stands there, as it stands.
pub fn copy_tree(src: Place, dst: &mut [Row], to: usize) -> Step
    requires { Ready (λ t. t) src.rows.now src.at (length dst.old) to }
    ensures { Maps (λ t. t) src.entry.rows.now src.entry.at dst.old to dst.new result }
{
    copy_trees(src, 1, dst, to)
}
