// The functions of `bench` for Rust: target/staticlib/libbench.a. Each stands here again, since such a library holds its own crate's alone.
#![tactic(auto)]

ghost use Rattle.std.specs.Prelude.{◌≡◌, map, length, drop};
ghost use Rattle.text.specs.Text.{line, line_fields, line_at, after};
ghost use Rattle.text.specs.Read.{stored_in};
ghost use Rattle.text.specs.Write.{row_field, line_text};
ghost use Rattle.bench.specs.Answers.{found, place_after, stored_from};
ghost use Rattle.bench.specs.Orders.{report_for, left_for, right_for};

use bench::Found;

#[unsafe(no_mangle)]
pub extern "C" fn bench_line_at(s: &[u8], at: usize, letter: u8, out: &mut [[u64; 2]]) -> Found
    ensures answer { result ≡ found (after s.now at) (line_at letter s.now at) }
    ensures stored { out.new ≡ stored_in out.old (line_fields letter (line (drop at s.now))) }
{
    bench::bench_line_at(s, at, letter, out)
}

// The place after the line; 0, and nothing written, where there is no room for it.
#[unsafe(no_mangle)]
pub extern "C" fn bench_put_line(out: &mut [u8], at: usize, letter: u8, rows: &[[u64; 2]]) -> u64
    ensures answer { result ≡ place_after (length out.old) at (line_text letter (map row_field rows.now)) }
    ensures stored { out.new ≡ stored_from out.old at (line_text letter (map row_field rows.now)) }
{
    bench::bench_put_line(out, at, letter, rows)
}

// The report, and the moved keys in the room lent; 0 where a list has over 32 keys, or the two sides differ in length.
#[unsafe(no_mangle)]
pub extern "C" fn bench_try_reorder(
    w: &[[u64; 2]],
    r: &[u64],
    l: &[u64],
    g: &[u64],
    left: &mut [u64],
    right: &mut [u64],
) -> u64
    ensures answer { result ≡ report_for w.now r.now l.now g.now }
    ensures left { left.new ≡ left_for w.now r.now l.now g.now left.old }
    ensures right { right.new ≡ right_for w.now r.now l.now g.now right.old }
{
    bench::bench_try_reorder(w, r, l, g, left, right)
}
