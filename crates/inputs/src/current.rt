// The order that the inputs of a join have already. Ports `reorder_join_keys_to_inputs` and `reorder_current_join_keys`.
ghost use Rattle.std.specs.Prelude.{◌≡◌, ◌≤◌, Some, List, ℕ, length};
ghost use Rattle.keys.specs.Expressions.{same_expr, rules};
ghost use Rattle.keys.specs.Inputs.{JoinSheet, JoinAnswer, try_side, reorder_current_join_keys, reorder_join_keys_to_inputs};
ghost use Rattle.keys.specs.InputValues.{input_of, join_sheet, with_pairs, side_number, answer_by, attempt_of};
ghost use Rattle.inputs.specs.Sheets.{sheet_of};

use crate::sheet::{Input, Inputs};
use keys::inputs::{Attempt, Side, order_tried};
use keys::reorder::{Pairs, Reordered, try_reorder};

// One side under its own rewriting.
fn try_side(side: Side, sheet: Inputs<'_, '_>, input: Input<'_>, rewriting: &[[u64; 2]]) -> Attempt
    requires { length input.list.now ≤ 33 }
    ensures { (s : JoinSheet) (impossible untried : JoinAnswer) → let t = with_pairs sheet.entry.left.now sheet.entry.right.now s in answer_by t impossible untried result ≡ try_side t same_expr (side_number (Some side)) (rules rewriting.now) impossible untried (input_of input.entry.list.now) }
{
    if !input.is_hashed() {
        return Attempt::Untried;
    }
    let pairs = Pairs {
        required: input.keys(),
        left: sheet.left,
        right: sheet.right,
    };
    match try_reorder(rewriting, pairs) {
        Reordered::Impossible => Attempt::Failed,
        tried => Attempt::Followed(side, tried),
    }
}

// Left first, right if left is impossible or not hash partitioned; whatever the operator, since that is not read.
pub fn reorder_current_join_keys(sheet: Inputs<'_, '_>) -> Attempt
    ensures { (op mode : ℕ) (s : List ℕ) → let x = sheet.entry in let t = join_sheet op mode x.left.now x.right.now s x.left_input.list.now x.right_input.list.now x.left_rewriting.now x.right_rewriting.now in attempt_of t result ≡ reorder_current_join_keys t same_expr }
{
    let left = try_side(Side::Left, sheet, sheet.left_input, sheet.left_rewriting);
    if let Attempt::Followed(_, _) = left {
        return left;
    }
    match try_side(Side::Right, sheet, sheet.right_input, sheet.right_rewriting) {
        Attempt::Untried => left,
        right => right,
    }
}

// The answer by its outcome and positions.
pub fn join_keys_to_inputs(sheet: Inputs<'_, '_>) -> Attempt
    ensures { (s : List ℕ) → attempt_of (sheet_of sheet.entry s) result ≡ reorder_join_keys_to_inputs (sheet_of sheet.entry s) same_expr }
{
    if !order_tried(sheet.op, sheet.mode) {
        return Attempt::Untried;
    }
    reorder_current_join_keys(sheet)
}
