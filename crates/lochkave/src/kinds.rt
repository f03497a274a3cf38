// Decides a K or an I sheet, in the rooms lent.
ghost use Rattle.std.specs.Prelude.{◌≤◌, length};
ghost use Rattle.sheet.specs.SheetLines.{most_lists};
ghost use Rattle.sheet.specs.Outcomes.{within, Writes};
ghost use Rattle.lochkave.specs.Entry.{lists_decision};

use answers::join::answer_join_sheet;
use answers::key::answer_key_sheet;
use linekinds::lists::SheetKind;
use refusals::Refused;
use sheet::held::Lists;
use sheet::sheets::read_sheet;

// So many bytes of output suffice for every answer.
const ANSWER_MOST: usize = 65536;

// A sheet of that kind, of at most N lists.
pub(crate) fn decide_lists<const N: usize>(
    sheet: &[u8],
    kind: SheetKind,
    fields: &mut [[u64; 2]],
    lists: &mut [[u64; 64]],
    out: &mut [u8],
) -> Result<usize, Refused>
    requires rows { 192 ≤ length fields.old }
    requires lists { (most_lists kind ≤ length lists.old) × (most_lists kind ≤ N) × (N ≤ 17) }
    ensures { Writes (within (length out.old) (lists_decision kind sheet.now)) result out.old out.new }
{
    let mut counts = [0usize; N];
    read_sheet(sheet, kind, fields, &mut *lists, &mut counts)?;
    let roomy = out.len() >= ANSWER_MOST;
    let held = Lists {
        lists: &*lists,
        counts: &counts,
    };
    match kind {
        SheetKind::Key => answer_key_sheet(roomy, held, out),
        SheetKind::Join => answer_join_sheet(roomy, held, out),
    }
}
