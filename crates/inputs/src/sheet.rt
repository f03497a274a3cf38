// The numbers and lists of an I sheet that a decision reads.
ghost use Rattle.std.specs.Prelude.{◌≡◌, ◌≤◌, length};

// H or N: a mark and the keys after it.
#[derive(Clone, Copy)]
pub struct Input<'a> {
    pub list: &'a [u64],
}

// The inputs stand apart from the rest, since their keys are handed back.
// `op` and `mode` are the sheet's codes, which may be any number: `order_tried` reads them by From.
#[derive(Clone, Copy)]
pub struct Inputs<'a, 'b> {
    pub op: u64,
    pub mode: u64,
    pub left: &'b [u64],
    pub right: &'b [u64],
    pub left_rewriting: &'b [[u64; 2]],
    pub right_rewriting: &'b [[u64; 2]],
    pub left_input: Input<'a>,
    pub right_input: Input<'a>,
    ghost few: { length left.now ≤ 32 },
    ghost even: { length right.now ≡ length left.now },
    ghost few_of_left: { length left_input.list.now ≤ 33 },
    ghost few_of_right: { length right_input.list.now ≤ 33 },
}

impl<'a> Input<'a> {
    ghost use Rattle.keys.specs.Kept.{hashed};
    ghost use Rattle.keys.specs.InputValues.{input_of, PartOf, mark_length};

    pub fn is_hashed(self) -> bool
        ensures { result ≡ hashed (input_of self.entry.list.now) }
    {
        matches!(self.list, [1, ..])
    }

    // The list without its mark.
    pub fn keys(self) -> &'a [u64]
        ensures { PartOf self.entry.list (mark_length self.entry.list.now) (length self.entry.list.now) result }
    {
        match self.list {
            [] => self.list,
            [_, keys @ ..] => keys,
        }
    }
}
