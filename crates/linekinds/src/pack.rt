// The list of a line as the decision takes it.
ghost use Rattle.std.specs.Prelude.{◌≡◌, ◌++◌, ◌+◌, ◌≤◌, ◌<◌, length, take, drop};
ghost use Rattle.std.proofs.lemmas.List.Edits.{sets};
ghost use Rattle.linekinds.specs.Reading.{row_values, packs, packed_by, Small, Fits};

use crate::kind::Codes;
use keys::expr::Expr;

// The numbers from a place on, three by three, each three packed in one, from a place of the output on.
fn pack_exprs(rows: &[[u64; 2]], from: usize, out: &mut [u64; 64]) -> usize
    requires { (from ≤ length rows.now) × (length rows.now ≤ 192) × (from ≤ 1) × Small (row_values rows.now) }
    ensures { (result ≤ 64) × (take result out.new ≡ take from out.old ++ packs (drop from (row_values rows.now))) }
{
    let (entries, _) = rows[from..].as_chunks::<3>();
    for (i, [kind, name, index]) in entries.iter().enumerate() {
        out[from + i] = Expr::pack(kind[1], name[1], index[1]).number;
    }
    from + entries.len()
}

// The numbers of a line, from the start of the room on.
pub fn copy_numbers(rows: &[[u64; 2]], out: &mut [u64])
    requires { length rows.now ≤ length out.old }
    ensures { out.new ≡ sets out.old 0 (row_values rows.now) }
{
    for (i, row) in rows.iter().enumerate() {
        out[i] = row[1];
    }
}

// The list of a line whose fields are as many as its kind has.
pub(crate) fn pack_line(c: Codes, rows: &[[u64; 2]], out: &mut [u64; 64]) -> usize
    requires { Fits c (length rows.now) × Small (row_values rows.now) }
    ensures { (length out.new ≡ 64) × (result ≤ 64) × (take result out.new ≡ packed_by c (row_values rows.now)) }
{
    match c {
        Codes::Key | Codes::Join | Codes::Directions | Codes::Names => {
            copy_numbers(rows, out);
            rows.len()
        }
        Codes::Exprs | Codes::Rules => pack_exprs(rows, 0, out),
        Codes::Input => {
            out[0] = rows[0][1];
            pack_exprs(rows, 1, out)
        }
    }
}
