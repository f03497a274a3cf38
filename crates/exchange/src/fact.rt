// What is known of a child in a form: X rows in sheet order, with an index beside them.
ghost use Rattle.std.specs.Prelude.{◌≡◌, ◌≤◌, length};
ghost use Rattle.exchange.specs.Found.{slot as slot_at, index_of, row_for, found_of};

// The places of an X row.
pub const CHILD: usize = 0;

pub const FORM: usize = 1;

pub const COUNT: usize = 2;

pub const LAYOUT: usize = 3;

pub const ATHASH: usize = 4;

pub const EXACT: usize = 5;

pub const SUBSET: usize = 6;

pub const MET: usize = 7;

pub const AFTERMET: usize = 8;

pub const CONST: usize = 9;

pub const FORD: usize = 10;

pub const FPLAIN: usize = 11;

pub const ORDER: usize = 12;

pub const WIDTH: usize = 13;

// An X row.
pub type FactRow = [u64; WIDTH];

// Children are numbered from 1 to this.
const LAST_CHILD: u64 = 8;

const FORMS: u64 = 16;

// A place for each child and form, and one for rows of neither.
pub const PLACES: usize = 129;

// Where rows of no child or form go; they are written too, so this is no Option.
const NOWHERE: usize = PLACES - 1;

// A child of the worked node, by its number from 1, in a form.
#[derive(Clone, Copy)]
pub struct ChildForm {
    pub child: u64,
    pub form: u64,
    pub ghost within: { (1 ≤ child) × (child ≤ 8) × (form ≤ 15) },
}

// The X rows with their index: a place plus 1 for each child and form, 0 for none. C lends it as numbers.
#[derive(Clone, Copy)]
pub struct FactRows<'a> {
    pub index: &'a [u64],
    pub rows: &'a [FactRow],
    pub ghost indexed: { index.now ≡ index_of rows.now },
}

// The place of a row, or that it is missing; document 01 names it, so it is no Option.
#[derive(Clone, Copy)]
pub enum Fact {
    Row { place: usize },
    Missing,
}

// The index's place for a child and a form.
#[tactic(auto, unfolding(crate::specs::Found::slot))]
fn slot(child: u64, form: u64) -> usize
    ensures { result ≡ slot_at child form }
{
    if 1 <= child && child <= LAST_CHILD && form < FORMS {
        // No From goes from u64 to usize.
        return ((child - 1) * FORMS + form) as usize;
    }
    NOWHERE
}

// The index of the rows, filled from the last of them to the first, so that the first of a child and form counts.
// Its length is a clause, since it is lent as a slice.
pub fn index_rows(rows: &[FactRow], index: &mut [u64])
    requires { length index.old ≡ 129 }
    ensures { index.new ≡ index_of rows.now }
{
    index.fill(0);
    for (i, row) in rows.iter().enumerate().rev() {
        let at = slot(row[CHILD], row[FORM]);
        // No From goes from usize to u64.
        index[at] = i as u64 + 1;
    }
}

impl<'a> FactRows<'a> {
    // The first row that is of the child and the form.
    pub fn fact_row(self, at: ChildForm) -> Fact
        ensures { found_of result ≡ row_for self.entry.rows.now at.child at.form }
    {
        let mark = self.index[slot(at.child, at.form)];
        if mark == 0 {
            return Fact::Missing;
        }
        Fact::Row {
            // No From goes from u64 to usize.
            place: (mark - 1) as usize,
        }
    }
}
