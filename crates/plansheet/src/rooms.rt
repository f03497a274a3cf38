// The rooms lent for a sheet, and what its lines left in them.
ghost use Rattle.std.specs.Prelude.{◌≡◌, ◌≤◌, length};
ghost use Rattle.plansheet.specs.PlanRooms.{Suffices};

use exchange::fact::FactRow;
use exchange::row::Row;
use exchange::status::ChildRow;

// For a line's fields, the D line's numbers, the tree's rows, the B row, F and X rows, masks, and the index of the X rows.
#[derive(Drop)]
pub struct SheetRooms<'a> {
    pub fields: &'a mut [[u64; 2]],
    pub head: &'a mut [u64],
    pub rows: &'a mut [Row],
    pub node: &'a mut [u64],
    pub facts: &'a mut [ChildRow],
    pub xs: &'a mut [FactRow],
    pub masks: &'a mut [u64],
    pub index: &'a mut [u64],
    pub ghost wide: { 256 ≤ length fields.now },
    pub ghost four: { 4 ≤ length node.now },
    pub ghost eight: { 8 ≤ length facts.now },
    pub ghost masked: { 256 ≤ length masks.now },
}

// The tree's rows in front and how many there are, the worked node's place, its children, and the F rows, X rows and masks in front;
// of the X rows, which may be more than there is room for, how many there are.
// Of the F rows the first `children` count, and of the masks two to that many: `PlanRooms` speaks of the rooms as they are lent, so that they
// are cut where they are judged.
#[derive(Clone, Copy)]
pub struct LinesRead<'a> {
    pub rows: &'a [Row],
    pub lines: usize,
    pub worked: usize,
    pub children: usize,
    pub facts: &'a [ChildRow],
    pub xs: &'a [FactRow],
    pub count: usize,
    pub masks: &'a [u64],
    pub ghost eight: { 8 ≤ length facts.now },
    pub ghost roomy: { Suffices count (length xs.now) },
    pub ghost masked: { 256 ≤ length masks.now },
}
