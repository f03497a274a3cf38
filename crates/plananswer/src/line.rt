// The t line of an operator's row: its fields, its exact length, its bytes.
ghost use Rattle.std.specs.Prelude.{◌≡◌, map, ◌+◌, ◌≤◌, length, get_or};
ghost use Rattle.text.specs.Write.{row_field};
ghost use Rattle.exchange.specs.Rows.{limit_of};
ghost use Rattle.plananswer.specs.PlanTexts.{limit_field};
ghost use Rattle.plananswer.specs.RowTexts.{row_fields, row_line};

use crate::rows::RowLine;
use exchange::row::{
    CHILDREN, COUNT, ID, KEEPS, KIND, LIMIT, LIMITED, MASK, NO_LIMIT, ORDER, Row, TRACKED,
};
use text::field::Field;
use text::write::{field_length, number_length, put_line};

// The limit's field: empty where there is none.
pub(crate) fn limit_field(x: Row) -> Field
    ensures { result ≡ limit_field (limit_of (get_or x 4 0) (get_or x 5 0)) }
{
    if x[LIMITED] == NO_LIMIT {
        return Field::Empty;
    }
    Field::Number(x[LIMIT])
}

// The fields of a row's t line, a state and a value each.
fn operator_fields(x: Row) -> [[u64; 2]; 9]
    ensures { map row_field result ≡ row_fields x }
{
    let limit = limit_field(x);
    [
        [0, x[ID]],
        [0, x[KIND]],
        [0, x[COUNT]],
        [0, x[KEEPS]],
        [limit.state(), limit.value()],
        [0, x[ORDER]],
        [0, x[MASK]],
        [0, x[TRACKED]],
        [0, x[CHILDREN]],
    ]
}

// The length of a row's t line.
pub(crate) fn operator_length(x: Row) -> usize
    ensures exact { result ≡ length (row_line x) }
    ensures few { result ≤ 191 }
{
    let limit = limit_field(x);
    let a = number_length(x[ID]) + number_length(x[KIND]) + number_length(x[COUNT]);
    let b = number_length(x[KEEPS]) + field_length(limit) + number_length(x[ORDER]);
    let c = number_length(x[MASK]) + number_length(x[TRACKED]) + number_length(x[CHILDREN]);
    11 + a + b + c
}

// A row's t line.
pub(crate) struct AnswerLine;

impl RowLine<Row> for AnswerLine {
    ghost text = { row_line };

    #[tactic(auto, unfolding(crate::specs::RowTexts::row_line))]
    fn put(out: &mut [u8], at: usize, row: &Row) -> usize {
        put_line(out, at, b't', &operator_fields(*row))
    }
}
