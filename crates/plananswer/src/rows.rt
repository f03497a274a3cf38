// A line for each row: what a row's line is, and how it is written, a type says.
ghost use Rattle.std.specs.Prelude.{List, ℕ, ◌+◌, ◌≤◌, length};
ghost use Rattle.text.specs.Write.{Wrote};
ghost use Rattle.plananswer.specs.RowTexts.{lines_of};

// The line of a row.
pub(crate) trait RowLine<T> {
    ghost text: { T → List ℕ };

    fn put(out: &mut [u8], at: usize, row: &T) -> usize
        requires { at + length (text row.now) ≤ length out.old }
        ensures { Wrote out.old at (text row.now) out.new result };
}

// The lines of the rows, one after another.
pub(crate) fn put_rows<T, L: RowLine<T>>(out: &mut [u8], at: usize, rows: &[T]) -> usize
    requires { at + length (lines_of L.text rows.now) ≤ length out.old }
    ensures { Wrote out.old at (lines_of L.text rows.now) out.new result }
{
    let mut p = at;
    for row in rows {
        p = L::put(out, p, row);
    }
    p
}
