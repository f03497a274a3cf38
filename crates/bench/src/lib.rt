// The line reader, the line writer and `try_reorder`, as the benchmark in Rust calls them.
#![tactic(auto)]

ghost use Rattle.std.specs.Prelude.{◌≡◌, map, length, drop};
ghost use Rattle.text.specs.Text.{line, line_fields, line_at, after};
ghost use Rattle.text.specs.Read.{stored_in};
ghost use Rattle.text.specs.Write.{row_field, line_text};
ghost use Rattle.bench.specs.Answers.{found, place_after, stored_from};
ghost use Rattle.std.proofs.lemmas.List.Edits.{sets};
ghost use Rattle.keys.specs.Lists.{permute};
ghost use Rattle.keys.specs.Expressions.{gone_number};
ghost use Rattle.bench.specs.Orders.{report_for, left_for, right_for};

use keys::expr::GONE;
use keys::list::{Positions, entry};
use keys::reorder::{Pairs, Reordered, try_reorder};
use text::line::line_at;
use text::store::store;
use text::write::{line_length, put_line};

// A line that was found, with the place after it; all 0 where there is none.
#[repr(C)]
#[derive(Clone, Copy, Default)]
pub struct Found {
    pub next: u64,
    pub count: u64,
    pub worst: u64,
    pub largest: u64,
}

#[unsafe(no_mangle)]
pub extern "C" fn bench_line_at(s: &[u8], at: usize, letter: u8, out: &mut [[u64; 2]]) -> Found
    ensures answer { result ≡ found (after s.now at) (line_at letter s.now at) }
    ensures stored { out.new ≡ stored_in out.old (line_fields letter (line (drop at s.now))) }
{
    let Some(f) = line_at(s, at, letter, out) else {
        return Found::default();
    };
    // No From goes from usize to u64.
    Found {
        next: f.next as u64,
        count: f.count as u64,
        worst: f.worst,
        largest: f.largest,
    }
}

// The place after the line; 0, and nothing written, where there is no room for it.
#[unsafe(no_mangle)]
pub extern "C" fn bench_put_line(out: &mut [u8], at: usize, letter: u8, rows: &[[u64; 2]]) -> u64
    ensures answer { result ≡ place_after (length out.old) at (line_text letter (map row_field rows.now)) }
    ensures stored { out.new ≡ stored_from out.old at (line_text letter (map row_field rows.now)) }
{
    if out.len() < at || out.len() - at < line_length(rows) {
        return 0;
    }
    // No From goes from usize to u64.
    put_line(out, at, letter, rows) as u64
}

// Stores the keys at the positions where there is room, one by one, since C's array may be shorter.
fn store_moved(all: &[u64], at: Positions<'_>, out: &mut [u64])
    ensures { out.new ≡ sets out.old 0 (permute gone_number all.now at.entry.list.now) }
{
    for (i, &p) in at.list.iter().enumerate() {
        store(out, i, entry(GONE, all, p));
    }
}

// The report, and the moved keys in the room lent; 0 where a list has over 32 keys, or the two sides differ in length.
#[unsafe(no_mangle)]
pub extern "C" fn bench_try_reorder(
    w: &[[u64; 2]],
    r: &[u64],
    l: &[u64],
    g: &[u64],
    left: &mut [u64],
    right: &mut [u64],
) -> u64
    ensures answer { result ≡ report_for w.now r.now l.now g.now }
    ensures left { left.new ≡ left_for w.now r.now l.now g.now left.old }
    ensures right { right.new ≡ right_for w.now r.now l.now g.now right.old }
{
    if r.len() > 32 || l.len() > 32 || g.len() != l.len() {
        return 0;
    }
    let pairs = Pairs {
        required: r,
        left: l,
        right: g,
    };
    let tried = try_reorder(w, pairs);
    let Reordered::Moved(at) = tried else {
        return tried.report();
    };
    store_moved(l, at.positions(), left);
    store_moved(g, at.positions(), right);
    tried.report()
}
