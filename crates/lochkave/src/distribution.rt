// Decides a D sheet, with rooms by its length: what is cleared on every call is less for a short one.
ghost use Rattle.std.specs.Prelude.{◌≤◌, length};
ghost use Rattle.sheet.specs.Outcomes.{Writes};
ghost use Rattle.lochkave.specs.Entry.{distribution_outcome};
ghost use Rattle.lochkave.specs.Rooms.{PlanRooms};

use crate::plan::{Held, answer_plan, held_sheet};
use crate::rooms::{CHILDREN, DST, FIELDS, HEAD, INDEX, MASKS, MID, NODE, ROWS, XS};
use exchange::fact::FactRow;
use exchange::row::Row;
use exchange::{fact, row, status};
use plansheet::plan::read_plan;
use plansheet::rooms::SheetRooms;
use refusals::Refused;

// A sheet of fewer bytes has at most 64 T lines and 39 X rows: a T line takes 17 bytes at least, an X row 28.
const SHORT: usize = 1088;

// Twice as many.
const MIDDLE: usize = 2176;

// What a D sheet is read into, and what it is decided and answered in.
pub(crate) struct TreeRooms<'a> {
    pub fields: &'a mut [[u64; 2]],
    pub rows: &'a mut [Row],
    pub xs: &'a mut [FactRow],
    pub mid: &'a mut [Row],
    pub dst: &'a mut [Row],
    pub masks: &'a mut [u64],
    pub index: &'a mut [u64],
}

// A sheet, in the rooms lent.
pub(crate) fn distribute_in(sheet: &[u8], lent: TreeRooms, out: &mut [u8]) -> Result<usize, Refused>
    requires { PlanRooms (length sheet.now) (length lent.fields.now) (length lent.rows.now) (length lent.xs.now) (length lent.mid.now) (length lent.dst.now) (length lent.masks.now) (length lent.index.now) }
    ensures { Writes (distribution_outcome sheet.now (length out.old)) result out.old out.new }
{
    let TreeRooms {
        fields,
        rows,
        xs,
        mid,
        dst,
        masks,
        index,
    } = lent;
    let mut head = [0u64; HEAD];
    let mut node = [0u64; NODE];
    let mut facts = [[0u64; status::WIDTH]; CHILDREN];
    let mut lent = SheetRooms {
        fields,
        head: &mut head,
        rows,
        node: &mut node,
        facts: &mut facts,
        xs,
        masks,
        index,
    };
    match read_plan(sheet, &mut lent) {
        // Not by `?`: the rooms are moved out of `lent` afterwards.
        Err(refused) => return Err(refused),
        Ok(p) => {
            let Held { tree, facts } = held_sheet(p, lent);
            return answer_plan(p.settings, facts, tree, mid, dst, out);
        }
    }
}

// The same in rooms for so many rows of the tree, X rows, and rows between and of the answer.
fn distribute_sized<const R: usize, const X: usize, const M: usize, const D: usize>(
    sheet: &[u8],
    out: &mut [u8],
) -> Result<usize, Refused>
    requires rooms { PlanRooms (length sheet.now) 256 R X M D 256 129 }
    requires few { (X ≤ 128) × (M ≤ 258) }
    ensures { Writes (distribution_outcome sheet.now (length out.old)) result out.old out.new }
{
    let mut fields = [[0u64; 2]; FIELDS];
    let mut rows = [[0u64; row::WIDTH]; R];
    let mut xs = [[0u64; fact::WIDTH]; X];
    let mut mid = [[0u64; row::WIDTH]; M];
    let mut dst = [[0u64; row::WIDTH]; D];
    let mut masks = [0u64; MASKS];
    let mut index = [0u64; INDEX];
    let lent = TreeRooms {
        fields: &mut fields,
        rows: &mut rows,
        xs: &mut xs,
        mid: &mut mid,
        dst: &mut dst,
        masks: &mut masks,
        index: &mut index,
    };
    distribute_in(sheet, lent, out)
}

// Any sheet, in rooms of its own.
pub(crate) fn distribute(sheet: &[u8], out: &mut [u8]) -> Result<usize, Refused>
    ensures { Writes (distribution_outcome sheet.now (length out.old)) result out.old out.new }
{
    if sheet.len() < SHORT {
        return distribute_sized::<64, 39, 66, 152>(sheet, out);
    }
    if sheet.len() < MIDDLE {
        return distribute_sized::<128, 78, 130, 280>(sheet, out);
    }
    distribute_sized::<ROWS, XS, MID, DST>(sheet, out)
}
