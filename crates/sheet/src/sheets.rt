// Reads a K or I sheet into lent rooms, or says why it is turned back, by a number from 1 to 6, and on which line.
ghost use Rattle.std.specs.Prelude.{◌≡◌, ◌≤◌, length};
ghost use Rattle.sheet.specs.SheetLines.{most_lists};
ghost use Rattle.sheet.specs.ListFits.{lists_fit, SheetRead};

use crate::fits::{join_lists_fit, key_lists_fit};
use crate::read::read_whole;
use crate::{join_lines, key_lines};
use linekinds::lists::SheetKind;
use refusals::{Refusal, Refused};

// Whether the lists fit that were read of a sheet.
fn lists_fit(k: SheetKind, lists: &[[u64; 64]], counts: &[usize]) -> bool
    requires { (most_lists k ≤ length lists.now) × (most_lists k ≤ length counts.now) }
    ensures { result ≡ lists_fit k lists.now counts.now }
{
    match k {
        SheetKind::Key => {
            let head = &lists[key_lines::HEAD];
            key_lists_fit(head[key_lines::OP], head[key_lines::MODE], counts)
        }
        SheetKind::Join => join_lists_fit(
            lists[join_lines::HEAD][join_lines::OP],
            counts,
            lists[join_lines::LEFT_INPUT][join_lines::MARK],
            lists[join_lines::RIGHT_INPUT][join_lines::MARK],
        ),
    }
}

// A sheet of a kind: line i goes into list i, and how long it is into count i.
pub fn read_sheet(
    s: &[u8],
    k: SheetKind,
    rows: &mut [[u64; 2]],
    lists: &mut [[u64; 64]],
    counts: &mut [usize],
) -> Result<(), Refused>
    requires { (192 ≤ length rows.old) × (most_lists k ≤ length lists.old) × (most_lists k ≤ length counts.old) }
    ensures { SheetRead k s.now result lists.new counts.new }
{
    read_whole(s, k, rows, lists, counts)?;
    if !lists_fit(k, lists, counts) {
        return Err(Refusal::UnfitLists.on_line(0));
    }
    Ok(())
}
