// The entry points of `lochkave` for C and Rust: target/staticlib/liblochkave.a, see include/lochkave.h.
// Each stands here again, since such a library holds its own crate's alone.
#![tactic(auto)]

ghost use Rattle.std.specs.Prelude.{◌≡◌, length};
ghost use Rattle.sheet.specs.Outcomes.{answer, after};
ghost use Rattle.lochkave.specs.Entry.{outcome, adjust_outcome, inputs_outcome, distribution_outcome, rewrite_outcome};

// Decides a K sheet.
#[unsafe(no_mangle)]
pub extern "C" fn lochkave_adjust_input_keys_ordering(sheet: &[u8], out: &mut [u8]) -> u64
    ensures result { result ≡ answer (adjust_outcome sheet.now (length out.old)) }
    ensures bytes { out.new ≡ after (adjust_outcome sheet.now (length out.old)) out.old }
{
    lochkave::lochkave_adjust_input_keys_ordering(sheet, out)
}

// Decides an I sheet.
#[unsafe(no_mangle)]
pub extern "C" fn lochkave_reorder_join_keys_to_inputs(sheet: &[u8], out: &mut [u8]) -> u64
    ensures result { result ≡ answer (inputs_outcome sheet.now (length out.old)) }
    ensures bytes { out.new ≡ after (inputs_outcome sheet.now (length out.old)) out.old }
{
    lochkave::lochkave_reorder_join_keys_to_inputs(sheet, out)
}

// Decides a D sheet.
#[unsafe(no_mangle)]
pub extern "C" fn lochkave_ensure_distribution(sheet: &[u8], out: &mut [u8]) -> u64
    ensures result { result ≡ answer (distribution_outcome sheet.now (length out.old)) }
    ensures bytes { out.new ≡ after (distribution_outcome sheet.now (length out.old)) out.old }
{
    lochkave::lochkave_ensure_distribution(sheet, out)
}

// Decides a sheet, whose first byte says its kind.
#[unsafe(no_mangle)]
pub extern "C" fn lochkave_decide(sheet: &[u8], out: &mut [u8]) -> u64
    ensures result { result ≡ answer (outcome sheet.now (length out.old)) }
    ensures bytes { out.new ≡ after (outcome sheet.now (length out.old)) out.old }
{
    lochkave::lochkave_decide(sheet, out)
}

// The same in rooms that are lent and never cleared; in its own where one of them is too short. What they hold afterwards is of no account.
#[unsafe(no_mangle)]
pub extern "C" fn lochkave_decide_in(
    sheet: &[u8],
    fields: &mut [[u64; 2]],
    lists: &mut [[u64; 64]],
    rows: &mut [[u64; 11]],
    xs: &mut [[u64; 13]],
    mid: &mut [[u64; 11]],
    dst: &mut [[u64; 11]],
    masks: &mut [u64],
    index: &mut [u64],
    out: &mut [u8],
) -> u64
    ensures result { result ≡ answer (outcome sheet.now (length out.old)) }
    ensures bytes { out.new ≡ after (outcome sheet.now (length out.old)) out.old }
{
    lochkave::lochkave_decide_in(sheet, fields, lists, rows, xs, mid, dst, masks, index, out)
}

// Reads a sheet and writes it again from what was read.
#[unsafe(no_mangle)]
pub extern "C" fn lochkave_rewrite(sheet: &[u8], out: &mut [u8]) -> u64
    ensures result { result ≡ answer (rewrite_outcome sheet.now (length out.old)) }
    ensures bytes { out.new ≡ after (rewrite_outcome sheet.now (length out.old)) out.old }
{
    lochkave::lochkave_rewrite(sheet, out)
}
