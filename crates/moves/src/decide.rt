// The decision on a sheet that was read.
ghost use Rattle.std.specs.Prelude.{◌≡◌, ◌≤◌, length};
ghost use Rattle.keys.specs.Expressions.{same_expr};
ghost use Rattle.keys.specs.Adjust.{adjust_input_keys_ordering};
ghost use Rattle.keys.specs.Answers.{adjusted_of};
ghost use Rattle.keys.specs.Inputs.{reorder_join_keys_to_inputs};
ghost use Rattle.keys.specs.InputValues.{attempt_of};
ghost use Rattle.sheet.specs.Held.{pair_rows, operator_of, held_key_sheet, held_join_sheet};

use crate::held_join::HeldJoin;
use crate::held_key::HeldKey;
use adjust::adjust::adjust_input_keys_ordering;
use adjust::sheet::Sheet;
use inputs::followed::reorder_join_keys_to_inputs;
use inputs::sheet::{Input, Inputs};
use keys::answer::{Adjusted, Operator};
use keys::inputs::Attempt;
use sheet::{join_lines, key_lines};

// Every two numbers a row.
fn rule_rows(list: &[u64]) -> &[[u64; 2]]
    ensures { result.now ≡ pair_rows list.now }
{
    list.as_chunks::<2>().0
}

// The numbers of a K line. The sheet's lists hold numbers alone, so a mark is one: set where it is 1,
// as `exchange::mark`, which this crate does not see, has it.
fn operator(h: &[u64]) -> Operator
    requires { 6 ≤ length h.now }
    ensures { result ≡ operator_of h.now }
{
    Operator {
        op: h[key_lines::OP],
        mode: h[key_lines::MODE],
        join: h[key_lines::JOIN],
        columns: h[key_lines::COLUMNS],
        plain: h[key_lines::PLAIN] == 1,
        partial: h[key_lines::PARTIAL] == 1,
    }
}

// R, L, G, W, O, A and M of a K sheet.
pub fn adjust(sheet: HeldKey<'_>) -> Option<Adjusted>
    ensures { let s = held_key_sheet sheet.entry.held.lists.now sheet.entry.held.counts.now in adjusted_of s result ≡ adjust_input_keys_ordering same_expr s }
{
    adjust_input_keys_ordering(&Sheet {
        operator: operator(sheet.list(key_lines::HEAD)),
        required: sheet.list(key_lines::REQUIRED),
        left: sheet.list(key_lines::LEFT),
        right: sheet.list(key_lines::RIGHT),
        rewriting: rule_rows(sheet.list(key_lines::REWRITING)),
        groups: sheet.list(key_lines::GROUPS),
        aggregates: sheet.list(key_lines::AGGREGATES),
        mapped: sheet.list(key_lines::MAPPED),
    })
}

// Op, mode, L, G, H, N, W and V of an I sheet.
pub fn follow(sheet: HeldJoin<'_>) -> Attempt
    ensures { let s = held_join_sheet sheet.entry.held.lists.now sheet.entry.held.counts.now in attempt_of s result ≡ reorder_join_keys_to_inputs s same_expr }
{
    let head = sheet.list(join_lines::HEAD);
    let ordered = reorder_join_keys_to_inputs(Inputs {
        op: head[join_lines::OP],
        mode: head[join_lines::MODE],
        left: sheet.list(join_lines::LEFT),
        right: sheet.list(join_lines::RIGHT),
        left_rewriting: rule_rows(sheet.list(join_lines::LEFT_REWRITING)),
        right_rewriting: rule_rows(sheet.list(join_lines::RIGHT_REWRITING)),
        left_input: Input {
            list: sheet.list(join_lines::LEFT_INPUT),
        },
        right_input: Input {
            list: sheet.list(join_lines::RIGHT_INPUT),
        },
    });
    ordered.attempt
}
