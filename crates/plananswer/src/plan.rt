// The answer of a D sheet: its d line, and a t line for each row of its tree.
ghost use Rattle.std.specs.Prelude.{◌≡◌, ◌+◌, ◌≤◌, length};
ghost use Rattle.text.specs.Write.{Wrote};
ghost use Rattle.sheet.specs.KeyAnswers.{wrote};
ghost use Rattle.sheet.specs.Outcomes.{within, Writes};
ghost use Rattle.plananswer.specs.RowTexts.{lines_of, row_line, head_line, rows_text};

use crate::line::{AnswerLine, operator_length};
use crate::rows::put_rows;
use exchange::row::Row;
use refusals::{Refusal, Refused};
use text::write::{number_length, put_line};

// The numbers of the d line.
#[derive(Clone, Copy, Debug, PartialEq, Eq)]
pub struct Head {
    pub changed: u64,
    pub window: u64,
    pub interleave: u64,
    pub tracked: u64,
}

// The rows of an answer's tree: no more than the sheet's lines can come to.
#[derive(Clone, Copy)]
pub struct AnswerRows<'a> {
    pub rows: &'a [Row],
    pub ghost few: { length rows.now ≤ 65536 },
}

// The length of the d line.
fn head_length(head: Head) -> usize
    ensures exact { result ≡ length (head_line head.changed head.window head.interleave head.tracked) }
    ensures few { result ≤ 86 }
{
    let a = number_length(head.changed) + number_length(head.window);
    6 + a + number_length(head.interleave) + number_length(head.tracked)
}

// The length of the rows' t lines.
fn lines_length(answer: AnswerRows) -> usize
    ensures exact { result ≡ length (lines_of row_line answer.entry.rows.now) }
    ensures few { result ≤ 12517376 }
{
    let mut n: usize = 0;
    for row in answer.rows {
        n += operator_length(*row);
    }
    n
}

// The length of the answer.
#[tactic(auto, unfolding(crate::specs::RowTexts::rows_text))]
fn plan_text_length(head: Head, answer: AnswerRows) -> usize
    ensures { result ≡ length (rows_text head.changed head.window head.interleave head.tracked answer.entry.rows.now) }
{
    head_length(head) + lines_length(answer)
}

// The d line.
#[tactic(auto, unfolding(crate::specs::RowTexts::head_line))]
fn put_head(out: &mut [u8], at: usize, head: Head) -> usize
    requires { at + length (head_line head.changed head.window head.interleave head.tracked) ≤ length out.old }
    ensures { Wrote out.old at (head_line head.changed head.window head.interleave head.tracked) out.new result }
{
    let fields = [
        [0, head.changed],
        [0, head.window],
        [0, head.interleave],
        [0, head.tracked],
    ];
    put_line(out, at, b'd', &fields)
}

// Writes the d line and the t lines, and gives the place past them.
fn put_plan(out: &mut [u8], at: usize, head: Head, rows: &[Row]) -> usize
    requires { at + length (rows_text head.changed head.window head.interleave head.tracked rows.now) ≤ length out.old }
    ensures { Wrote out.old at (rows_text head.changed head.window head.interleave head.tracked rows.now) out.new result }
{
    let p = put_head(out, at, head);
    put_rows::<Row, AnswerLine>(out, p, rows)
}

// The answer, where there is room for it; else refusal 12.
pub fn write_plan(head: Head, answer: AnswerRows, out: &mut [u8]) -> Result<usize, Refused>
    ensures { Writes (within (length out.old) (wrote (rows_text head.changed head.window head.interleave head.tracked answer.entry.rows.now))) result out.old out.new }
{
    if out.len() < plan_text_length(head, answer) {
        return Err(Refusal::OutputTooShort.on_line(0));
    }
    Ok(put_plan(out, 0, head, answer.rows))
}
