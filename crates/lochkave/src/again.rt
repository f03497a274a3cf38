// A sheet that was read, written again from what is held of it.
ghost use Rattle.std.specs.Prelude.{◌≡◌, ℕ, ◌≤◌, ◌<◌, length, get_or};
ghost use Rattle.sheet.specs.KeySheets.{read_key_sheet, read_join_sheet};
ghost use Rattle.sheet.specs.Held.{held_text};
ghost use Rattle.sheet.specs.KeyAnswers.{wrote};
ghost use Rattle.sheet.specs.Outcomes.{within, Writes};
ghost use Rattle.plansheet.specs.PlanSheets.{read_plan};
ghost use Rattle.plananswer.specs.SheetTexts.{sheet_rows_text};
ghost use Rattle.lochkave.specs.Entry.{key_again, join_again, plan_again};

use crate::plan::{Held, held_sheet};
use crate::rooms::{
    CHILDREN, FIELDS, HEAD, INDEX, JOIN_LISTS, KEY_FIELDS, LISTS, MASKS, NODE, ROWS, XS,
};
use exchange::{fact, row, status};
use linekinds::lists::SheetKind;
use lines::sheet_text::put_sheet;
use plananswer::sheet_text::{SheetRows, put_plan_sheet};
use plansheet::plan::read_plan;
use plansheet::rooms::SheetRooms;
use refusals::{Refusal, Refused};
use sheet::held::Lists;
use sheet::key_lines;
use sheet::sheets::read_sheet;

// The sheet that is held, at the front of the output, where there is room for its bytes.
fn put_again(
    bytes: usize,
    kind: SheetKind,
    n: usize,
    held: Lists,
    out: &mut [u8],
) -> Result<usize, Refused>
    requires lines { (n ≤ length held.lists.now) × (n ≤ length held.counts.now) }
    requires counts { (i : ℕ) → i < n → get_or held.counts.now i 0 ≤ 64 }
    requires bytes { bytes ≡ length (held_text kind held.lists.now held.counts.now 0 n) }
    ensures { Writes (within (length out.old) (wrote (held_text kind held.entry.lists.now held.entry.counts.now 0 n))) result out.old out.new }
{
    if out.len() < bytes {
        return Err(Refusal::OutputTooShort.on_line(0));
    }
    Ok(put_sheet(out, kind, n, held))
}

pub(crate) fn rewrite_key_sheet(sheet: &[u8], out: &mut [u8]) -> Result<usize, Refused>
    ensures { Writes (within (length out.old) (key_again (read_key_sheet sheet.now))) result out.old out.new }
{
    let mut rows = [[0u64; 2]; KEY_FIELDS];
    let mut lists = [[0u64; 64]; LISTS];
    let mut counts = [0usize; LISTS];
    read_sheet(sheet, SheetKind::Key, &mut rows, &mut lists, &mut counts)?;
    // No From goes from u64 to usize.
    let n = key_lines::LINES + lists[key_lines::HEAD][key_lines::CHILDREN] as usize;
    let held = Lists {
        lists: &lists,
        counts: &counts,
    };
    put_again(sheet.len(), SheetKind::Key, n, held, out)
}

// The same of an I sheet, whose lines are eight.
pub(crate) fn rewrite_join_sheet(sheet: &[u8], out: &mut [u8]) -> Result<usize, Refused>
    ensures { Writes (within (length out.old) (join_again (read_join_sheet sheet.now))) result out.old out.new }
{
    let mut rows = [[0u64; 2]; KEY_FIELDS];
    let mut lists = [[0u64; 64]; JOIN_LISTS];
    let mut counts = [0usize; JOIN_LISTS];
    read_sheet(sheet, SheetKind::Join, &mut rows, &mut lists, &mut counts)?;
    let held = Lists {
        lists: &lists,
        counts: &counts,
    };
    put_again(sheet.len(), SheetKind::Join, JOIN_LISTS, held, out)
}

// The same of a D sheet. `put_again`, this one and `write_plan` each put other lines:
// over a closure that puts them the promise would be longer than both.
fn put_plan_again(bytes: usize, held: SheetRows, out: &mut [u8]) -> Result<usize, Refused>
    requires { bytes ≡ length (sheet_rows_text held.settings held.tree.now held.node held.children.now held.facts.now held.masks.now) }
    ensures { Writes (within (length out.old) (wrote (sheet_rows_text held.entry.settings held.entry.tree.now held.entry.node held.entry.children.now held.entry.facts.now held.entry.masks.now))) result out.old out.new }
{
    if out.len() < bytes {
        return Err(Refusal::OutputTooShort.on_line(0));
    }
    Ok(put_plan_sheet(out, 0, held))
}

pub(crate) fn rewrite_plan_sheet(sheet: &[u8], out: &mut [u8]) -> Result<usize, Refused>
    ensures { Writes (within (length out.old) (plan_again (read_plan sheet.now))) result out.old out.new }
{
    let mut fields = [[0u64; 2]; FIELDS];
    let mut head = [0u64; HEAD];
    let mut rows = [[0u64; row::WIDTH]; ROWS];
    let mut node = [0u64; NODE];
    let mut facts = [[0u64; status::WIDTH]; CHILDREN];
    let mut xs = [[0u64; fact::WIDTH]; XS];
    let mut masks = [0u64; MASKS];
    let mut index = [0u64; INDEX];
    let mut lent = SheetRooms {
        fields: &mut fields,
        head: &mut head,
        rows: &mut rows,
        node: &mut node,
        facts: &mut facts,
        xs: &mut xs,
        masks: &mut masks,
        index: &mut index,
    };
    let p = read_plan(sheet, &mut lent)?;
    let Held { tree, facts } = held_sheet(p, lent);
    let held = SheetRows {
        settings: p.settings,
        tree: &*tree,
        node: facts.node,
        children: facts.children,
        facts: facts.xs.rows,
        masks: facts.masks,
    };
    put_plan_again(sheet.len(), held, out)
}
