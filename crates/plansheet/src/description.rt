// How a line is described, and a tree's lines.
ghost use Rattle.std.specs.Prelude.{◌≤◌, length};
ghost use Rattle.plansheet.specs.ReadRows.{Bounded};

// A letter, a bound for each field (its largest state and value), the most of the first fields, the last codes of the first fields.
// Any numbers make one: that bounds are bounds is asked where lines are read by them.
#[derive(Clone, Copy)]
pub struct LineShape<'a> {
    pub letter: u8,
    pub bounds: &'a [[u64; 2]],
    pub sizes: &'a [u64],
    pub codes: &'a [u64],
}

// An operator's line, by kinds the fewest and most children, and the most lines.
#[derive(Clone, Copy)]
pub struct TreeShape<'a> {
    pub line: LineShape<'a>,
    pub rules: &'a [[u64; 2]],
    pub most: usize,
    pub ghost bounded: { Bounded line.bounds.now },
    pub ghost eight: { 8 ≤ length line.bounds.now },
    pub ghost few: { most ≤ 65536 },
}

impl TreeShape<'_> {
    // The fields of an operator's line, by their places.
    pub(crate) const KIND: usize = 0;

    pub(crate) const COUNT: usize = 1;

    pub(crate) const KEEPS: usize = 2;

    pub(crate) const LIMIT: usize = 3;

    pub(crate) const ORDER: usize = 4;

    pub(crate) const TRACKED: usize = 5;

    pub(crate) const NEED: usize = 6;

    pub(crate) const CHILDREN: usize = 7;

    pub(crate) const WIDTH: usize = 8;
}
