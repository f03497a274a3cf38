// Reads the lines of a K or I sheet, one after the other.
ghost use Rattle.std.specs.Prelude.{◌≡◌, ◌-◌, ◌≤◌, length};
ghost use Rattle.sheet.specs.SheetLines.{most_lists, count_by, FewChildren, lines_from, lines_by, whole_lines, ended_by, HeldLines, HeadKept};

use crate::{join_lines, key_lines};
use linekinds::lists::{SheetKind, judged_list, read_list};
use refusals::{Refusal, Refused};

// The place after lines that were read, and the number of the next line.
#[derive(Clone, Copy)]
pub struct LinesRead {
    pub next: usize,
    pub line: u64,
}

// The lines after the head, up to line n: line i goes into list i.
fn read_lists(
    s: &[u8],
    at: usize,
    k: SheetKind,
    n: usize,
    rows: &mut [[u64; 2]],
    lists: &mut [[u64; 64]],
    counts: &mut [usize],
) -> Result<LinesRead, Refused>
    requires { (192 ≤ length rows.old) × (1 ≤ n) × (n ≤ 17) × (n ≤ length lists.old) × (n ≤ length counts.old) }
    ensures answer { result ≡ lines_by (lines_from s.now k 1 (n - 1) at) }
    ensures held { HeldLines s.now k 1 (lines_from s.now k 1 (n - 1) at) lists.new counts.new }
    ensures kept { HeadKept lists.old counts.old lists.new counts.new }
{
    let mut next = at;
    for i in 1..n {
        // No From goes from usize to u64.
        let line = i as u64 + 1;
        let packed = read_list(s, next, k, i, rows, &mut lists[i]).map_err(|r| r.on_line(line))?;
        counts[i] = packed.count;
        next = packed.next;
    }
    let line = n as u64 + 1;
    Ok(LinesRead { next, line })
}

// How many lines a sheet has; of a K sheet by its children.
fn line_count(k: SheetKind, children: u64) -> usize
    requires { FewChildren k children }
    ensures { result ≡ count_by k children }
{
    match k {
        // No From goes between u64 and usize.
        SheetKind::Key => key_lines::LINES + children as usize,
        SheetKind::Join => join_lines::LINES,
    }
}

// All lines of a sheet, and nothing after them: line i goes into list i. C lends the lists, so that there are enough is a condition.
pub(crate) fn read_whole(
    s: &[u8],
    k: SheetKind,
    rows: &mut [[u64; 2]],
    lists: &mut [[u64; 64]],
    counts: &mut [usize],
) -> Result<LinesRead, Refused>
    requires { (192 ≤ length rows.old) × (most_lists k ≤ length lists.old) × (most_lists k ≤ length counts.old) }
    ensures answer { result ≡ ended_by (whole_lines k s.now) }
    ensures held { HeldLines s.now k 0 (whole_lines k s.now) lists.new counts.new }
{
    let head = judged_list(s, 0, k, 0, rows, &mut lists[0]).map_err(|r| r.on_line(1))?;
    counts[0] = head.count;
    let n = line_count(k, lists[0][key_lines::CHILDREN]);
    let read = read_lists(s, head.next, k, n, rows, lists, counts)?;
    if read.next < s.len() {
        return Err(Refusal::WrongLine.on_line(read.line));
    }
    Ok(read)
}
