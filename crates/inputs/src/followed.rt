// The order that the inputs of a join have already, with the keys that were followed handed back. Ports `reorder_join_keys_to_inputs`.
ghost use Rattle.std.specs.Prelude.{◌≡◌, List, ℕ};
ghost use Rattle.keys.specs.Expressions.{same_expr, expressions};
ghost use Rattle.keys.specs.Inputs.{reorder_join_keys_to_inputs, followed_keys};
ghost use Rattle.keys.specs.InputValues.{side_number, side_by, attempt_of, HandedBack};
ghost use Rattle.inputs.specs.Sheets.{sheet_of};

use crate::current::join_keys_to_inputs;
use crate::sheet::{Input, Inputs};
use keys::inputs::{Attempt, Side};

// What came of the try, and the caller's own keys of the side that was followed.
#[derive(Clone, Copy)]
pub struct Ordered<'a> {
    pub attempt: Attempt,
    pub keys: &'a [u64],
}

// The caller's own list of the side that was followed.
pub fn followed_keys<'a>(side: Option<Side>, left: Input<'a>, right: Input<'a>) -> &'a [u64]
    ensures { HandedBack (side_number side) left.entry.list right.entry.list result }
{
    match side {
        None => &left.list[..0],
        Some(Side::Left) => left.keys(),
        Some(Side::Right) => right.keys(),
    }
}

// What came of the try, and the keys that were followed.
pub fn reorder_join_keys_to_inputs<'a>(sheet: Inputs<'a, '_>) -> Ordered<'a>
    ensures handed { HandedBack (side_number (side_by result.attempt)) sheet.entry.left_input.list sheet.entry.right_input.list result.keys }
    ensures ordered { (s : List ℕ) → attempt_of (sheet_of sheet.entry s) result.attempt ≡ reorder_join_keys_to_inputs (sheet_of sheet.entry s) same_expr }
    ensures keys { (s : List ℕ) → let t = sheet_of sheet.entry s in expressions result.keys.now ≡ followed_keys t (reorder_join_keys_to_inputs t same_expr).followed }
{
    let attempt = join_keys_to_inputs(sheet);
    let keys = followed_keys(attempt.side(), sheet.left_input, sheet.right_input);
    Ordered { attempt, keys }
}
