// The lengths of rooms that suffice for every sheet, and whether rooms that are lent have them.
ghost use Rattle.lochkave.specs.Rooms.{Decides, KeyRooms, TreeRooms};

use exchange::fact::PLACES;

// The fields of a line; of a K or I sheet's fewer suffice.
pub const FIELDS: usize = 256;

pub const KEY_FIELDS: usize = 192;

// The lists of a K sheet, one a line, and those of an I sheet.
pub const LISTS: usize = 17;

pub const JOIN_LISTS: usize = 8;

// The numbers of the D line and of the B line, the rows of the tree, F rows, X rows, masks, and the index of the X rows.
pub const HEAD: usize = 9;

pub const NODE: usize = 4;

pub const ROWS: usize = 256;

pub const CHILDREN: usize = 8;

pub const XS: usize = 128;

pub const MASKS: usize = 256;

pub const INDEX: usize = PLACES;

// The rows of a tree that is worked on, and of an answer.
pub const MID: usize = 258;

pub const DST: usize = 536;

// The fields of a line, and the lists of K and I sheets.
pub(crate) fn keys_fit(fields: usize, lists: &[[u64; 64]]) -> bool
    ensures { Decides result (KeyRooms fields lists.now) }
{
    fields >= FIELDS && lists.len() >= LISTS
}

// The rows, masks and index of a D sheet, and the rows of its answer.
pub(crate) fn trees_fit(
    rows: usize,
    xs: usize,
    mid: usize,
    dst: usize,
    masks: usize,
    index: usize,
) -> bool
    ensures { Decides result (TreeRooms rows xs mid dst masks index) }
{
    rows >= ROWS && xs >= XS && mid >= MID && dst >= DST && masks >= MASKS && index >= INDEX
}
