// The entry points on byte slices, for C and Rust: a sheet's bytes and a lent output.
// The result is a refusal's number × 2^32 + its line, or how many bytes were written at the front of the output.
#![tactic(auto)]

mod again;
mod distribution;
mod kinds;
mod plan;
pub mod rooms;

ghost use Rattle.std.specs.Prelude.{◌≡◌, length, get_or};
ghost use Rattle.sheet.specs.Outcomes.{answer, after};
ghost use Rattle.lochkave.specs.Entry.{outcome, adjust_outcome, inputs_outcome, distribution_outcome, rewrite_outcome};

use crate::again::{rewrite_join_sheet, rewrite_key_sheet, rewrite_plan_sheet};
use crate::distribution::{TreeRooms, distribute, distribute_in};
use crate::kinds::decide_lists;
use crate::rooms::{DST, INDEX, JOIN_LISTS, KEY_FIELDS, LISTS, ROWS, keys_fit, trees_fit};
use linekinds::lists::SheetKind;
use refusals::word;

// Decides a K sheet.
#[unsafe(no_mangle)]
pub extern "C" fn lochkave_adjust_input_keys_ordering(sheet: &[u8], out: &mut [u8]) -> u64
    ensures result { result ≡ answer (adjust_outcome sheet.now (length out.old)) }
    ensures bytes { out.new ≡ after (adjust_outcome sheet.now (length out.old)) out.old }
{
    let mut fields = [[0u64; 2]; KEY_FIELDS];
    let mut lists = [[0u64; 64]; LISTS];
    word(decide_lists::<LISTS>(sheet, SheetKind::Key, &mut fields, &mut lists, out))
}

// Decides an I sheet.
#[unsafe(no_mangle)]
pub extern "C" fn lochkave_reorder_join_keys_to_inputs(sheet: &[u8], out: &mut [u8]) -> u64
    ensures result { result ≡ answer (inputs_outcome sheet.now (length out.old)) }
    ensures bytes { out.new ≡ after (inputs_outcome sheet.now (length out.old)) out.old }
{
    let mut fields = [[0u64; 2]; KEY_FIELDS];
    let mut lists = [[0u64; 64]; JOIN_LISTS];
    word(decide_lists::<JOIN_LISTS>(sheet, SheetKind::Join, &mut fields, &mut lists, out))
}

// Decides a D sheet.
#[unsafe(no_mangle)]
pub extern "C" fn lochkave_ensure_distribution(sheet: &[u8], out: &mut [u8]) -> u64
    ensures result { result ≡ answer (distribution_outcome sheet.now (length out.old)) }
    ensures bytes { out.new ≡ after (distribution_outcome sheet.now (length out.old)) out.old }
{
    word(distribute(sheet, out))
}

// The byte that says a sheet's kind; 0 where there is none.
fn first_byte(sheet: &[u8]) -> u8
    ensures { result ≡ get_or sheet.now 0 0 }
{
    sheet.first().copied().unwrap_or(0)
}

// Decides a sheet, whose first byte says its kind.
#[unsafe(no_mangle)]
#[tactic(auto, unfolding(crate::specs::Decision::decision))]
pub extern "C" fn lochkave_decide(sheet: &[u8], out: &mut [u8]) -> u64
    ensures result { result ≡ answer (outcome sheet.now (length out.old)) }
    ensures bytes { out.new ≡ after (outcome sheet.now (length out.old)) out.old }
{
    match first_byte(sheet) {
        b'K' => lochkave_adjust_input_keys_ordering(sheet, out),
        b'I' => lochkave_reorder_join_keys_to_inputs(sheet, out),
        _ => lochkave_ensure_distribution(sheet, out),
    }
}

// The same in rooms that are lent and never cleared; in its own where one of them is too short. What they hold afterwards is of no account.
#[unsafe(no_mangle)]
#[tactic(auto, unfolding(crate::specs::Decision::decision))]
pub extern "C" fn lochkave_decide_in(
    sheet: &[u8],
    fields: &mut [[u64; 2]],
    lists: &mut [[u64; 64]],
    rows: &mut [[u64; 11]],
    xs: &mut [[u64; 13]],
    mid: &mut [[u64; 11]],
    dst: &mut [[u64; 11]],
    masks: &mut [u64],
    index: &mut [u64],
    out: &mut [u8],
) -> u64
    ensures result { result ≡ answer (outcome sheet.now (length out.old)) }
    ensures bytes { out.new ≡ after (outcome sheet.now (length out.old)) out.old }
{
    if !keys_fit(fields.len(), lists) {
        return lochkave_decide(sheet, out);
    }
    if !trees_fit(
        rows.len(),
        xs.len(),
        mid.len(),
        dst.len(),
        masks.len(),
        index.len(),
    ) {
        return lochkave_decide(sheet, out);
    }
    word(match first_byte(sheet) {
        b'K' => decide_lists::<LISTS>(sheet, SheetKind::Key, fields, lists, out),
        b'I' => decide_lists::<JOIN_LISTS>(sheet, SheetKind::Join, fields, lists, out),
        _ => {
            let lent = TreeRooms {
                fields,
                rows: &mut rows[..ROWS],
                xs,
                mid,
                dst: &mut dst[..DST],
                masks,
                index: &mut index[..INDEX],
            };
            distribute_in(sheet, lent, out)
        }
    })
}

// Reads a sheet and writes it again from what was read.
#[unsafe(no_mangle)]
#[tactic(auto, unfolding(crate::specs::Entry::rewriting))]
pub extern "C" fn lochkave_rewrite(sheet: &[u8], out: &mut [u8]) -> u64
    ensures result { result ≡ answer (rewrite_outcome sheet.now (length out.old)) }
    ensures bytes { out.new ≡ after (rewrite_outcome sheet.now (length out.old)) out.old }
{
    word(match first_byte(sheet) {
        b'K' => rewrite_key_sheet(sheet, out),
        b'I' => rewrite_join_sheet(sheet, out),
        _ => rewrite_plan_sheet(sheet, out),
    })
}
