// The lines of a D sheet, each from a row.
ghost use Rattle.std.specs.Prelude.{◌≡◌, map, ◌+◌, ◌≤◌, length};
ghost use Rattle.text.specs.Write.{row_field, Wrote};
ghost use Rattle.sheet.specs.KeyAnswers.{numbers_line};
ghost use Rattle.plansheet.specs.PlanTexts.{settings_numbers, row_fields};
ghost use Rattle.plananswer.specs.SheetTexts.{tree_row_line, child_row_line, fact_row_line};

use crate::line::limit_field;
use crate::rows::RowLine;
use exchange::fact::FactRow;
use exchange::row::{CHILDREN, COUNT, KEEPS, KIND, NEED, ORDER, Row, TRACKED};
use exchange::settings::Settings;
use exchange::status::ChildRow;
use lines::line::put_numbers;
use text::write::put_line;

// The D line.
pub(crate) fn put_settings(out: &mut [u8], at: usize, s: Settings) -> usize
    requires { at + length (numbers_line 68 (settings_numbers s)) ≤ length out.old }
    ensures { Wrote out.old at (numbers_line 68 (settings_numbers s)) out.new result }
{
    let list = [
        s.target,
        s.roundrobin,
        s.split,
        s.batch,
        s.estimates,
        s.subset,
        s.files,
        s.sort,
        s.union,
    ];
    put_numbers(out, at, b'D', &list)
}

// The fields of a row's T line, a state and a value each.
fn tree_fields(x: Row) -> [[u64; 2]; 8]
    ensures { map row_field result ≡ row_fields x }
{
    let limit = limit_field(x);
    [
        [0, x[KIND]],
        [0, x[COUNT]],
        [0, x[KEEPS]],
        [limit.state(), limit.value()],
        [0, x[ORDER]],
        [0, x[TRACKED]],
        [0, x[NEED]],
        [0, x[CHILDREN]],
    ]
}

// A row's T line.
pub(crate) struct TreeLine;

impl RowLine<Row> for TreeLine {
    ghost text = { tree_row_line };

    #[tactic(auto, unfolding(crate::specs::SheetTexts::tree_row_line))]
    fn put(out: &mut [u8], at: usize, row: &Row) -> usize {
        put_line(out, at, b'T', &tree_fields(*row))
    }
}

// A row's F line.
pub(crate) struct ChildLine;

impl RowLine<ChildRow> for ChildLine {
    ghost text = { child_row_line };

    fn put(out: &mut [u8], at: usize, row: &ChildRow) -> usize {
        put_numbers(out, at, b'F', row)
    }
}

// A row's X line.
pub(crate) struct FactLine;

impl RowLine<FactRow> for FactLine {
    ghost text = { fact_row_line };

    fn put(out: &mut [u8], at: usize, row: &FactRow) -> usize {
        put_numbers(out, at, b'X', row)
    }
}
