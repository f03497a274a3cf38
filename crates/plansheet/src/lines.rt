// Reads the lines of a D sheet into the rooms lent: the D line and the tree, then B, F, X and Y.
ghost use Rattle.std.specs.Prelude.{◌≡◌, List, ◌+◌, ◌≤◌, length, drop};
ghost use Rattle.text.specs.declared.field.Field.{Field};
ghost use Rattle.text.specs.Text.{parts};
ghost use Rattle.sheet.specs.KeySheets.{sheet};
ghost use Rattle.plansheet.specs.PlanLines.{plan_line};
ghost use Rattle.plansheet.specs.PlanSheets.{FactLines, operator_rows, read_masks, read_children, read_facts};
ghost use Rattle.plansheet.specs.ReadRows.{rows_by, Left, run_from};
ghost use Rattle.plansheet.specs.LentRooms.{SameSizes};
ghost use Rattle.plansheet.specs.ReadPlans.{tree_run, TreeLeft, facts_by, whole_by, MasksHeld, ChildrenHeld, FactsHeld};

use crate::description::{LineShape, TreeShape};
use crate::facts::{read_children, read_facts};
use crate::line::{ANY, mask_line, node_line, settings_line};
use crate::place::Place;
use crate::rooms::SheetRooms;
use crate::tree::{RowsRead, read_tree};
use exchange::fact::FactRow;
use exchange::row::Row;
use exchange::status::ChildRow;
use linekinds::bounds::{LONG, MOST_CHILDREN, PLAIN};
use linekinds::line::Read;
use linekinds::pack::copy_numbers;
use refusals::{Refusal, Refused};

// The most T lines.
const MOST_LINES: usize = 256;

// The T lines from a place on.
fn read_plan_tree(
    place: Place,
    fields: &mut [[u64; 2]],
    rows: &mut [Row],
) -> Result<RowsRead, Refused>
    requires { 256 ≤ length fields.old }
    ensures answer { result ≡ rows_by (run_from plan_line 1 place.entry.s.now place.entry.line place.entry.at) }
    ensures left { Left (operator_rows 1) place.entry.s.now (run_from plan_line 1 place.entry.s.now place.entry.line place.entry.at) rows.old rows.new }
{
    let mut bounds = [[0, PLAIN]; TreeShape::WIDTH];
    bounds[TreeShape::LIMIT] = [1, LONG];
    let codes = [ANY, ANY, 1, ANY, ANY, 1, 2];
    let rules = [
        [0, MOST_CHILDREN],
        [1, 1],
        [1, 1],
        [1, 1],
        [1, 1],
        [2, 2],
        [2, 2],
        [1, 1],
        [1, 1],
        [0, MOST_CHILDREN],
        [1, 1],
        [1, 1],
    ];
    let shape = TreeShape {
        line: LineShape {
            letter: b'T',
            bounds: &bounds,
            sizes: &[],
            codes: &codes,
        },
        rules: &rules,
        most: MOST_LINES,
    };
    read_tree(place, shape, fields, rows)
}

// The D line, and the T lines after it.
pub(crate) fn read_tree_lines(
    s: &[u8],
    fields: &mut [[u64; 2]],
    head: &mut [u64],
    rows: &mut [Row],
) -> Result<RowsRead, Refused>
    requires { (256 ≤ length fields.old) × (9 ≤ length head.old) }
    ensures answer { result ≡ rows_by (tree_run s.now) }
    ensures left { TreeLeft s.now (tree_run s.now) head.old head.new rows.old rows.new }
{
    match settings_line(s, 0, &mut *fields) {
        Read::Line { count, next } => {
            copy_numbers(&fields[..count], &mut *head);
            let place = Place {
                s,
                at: next,
                line: 2,
            };
            read_plan_tree(place, fields, rows)
        }
        Read::Refused(refusal) => Err(refusal.on_line(1)),
    }
}

// The Y line at a place, and nothing after it.
fn read_masks(
    place: Place,
    children: usize,
    fields: &mut [[u64; 2]],
    masks: &mut [u64],
) -> Result<(), Refused>
    requires { (children ≤ 8) × (256 ≤ length fields.old) × (256 ≤ length masks.old) }
    ensures answer { (b : List Field) (fs xs : List (List Field)) → result ≡ whole_by (read_masks b fs xs children place.entry.line place.entry.at (parts 10 (drop place.entry.at place.entry.s.now))) }
    ensures held { (b : List Field) (fs xs : List (List Field)) (g : FactLines) → read_masks b fs xs children place.entry.line place.entry.at (parts 10 (drop place.entry.at place.entry.s.now)) ≡ sheet g → MasksHeld children g masks.old masks.new }
{
    match mask_line(place.s, place.at, children, &mut *fields) {
        Read::Line { count, next } => {
            copy_numbers(&fields[..count], masks);
            if next < place.s.len() {
                return Err(Refusal::WrongLine.on_line(place.line + 1));
            }
            Ok(())
        }
        Read::Refused(refusal) => Err(refusal.on_line(place.line)),
    }
}

// F lines and X rows from a place on, and what follows them.
fn read_child_lines(
    place: Place,
    children: usize,
    fields: &mut [[u64; 2]],
    facts: &mut [ChildRow],
    xs: &mut [FactRow],
    masks: &mut [u64],
) -> Result<usize, Refused>
    requires { (children ≤ 8) × (256 ≤ length fields.old) × (8 ≤ length facts.old) × (256 ≤ length masks.old) }
    ensures answer { (b : List Field) → result ≡ facts_by (read_children b children place.entry.line place.entry.at (parts 10 (drop place.entry.at place.entry.s.now))) }
    ensures held { (b : List Field) (g : FactLines) → read_children b children place.entry.line place.entry.at (parts 10 (drop place.entry.at place.entry.s.now)) ≡ sheet g → ChildrenHeld children g facts.old facts.new xs.old xs.new masks.old masks.new }
{
    let s = place.s;
    let f = read_children(place, children, &mut *fields, &mut *facts)?;
    let at_facts = Place {
        s,
        at: f.next,
        line: f.line,
    };
    let x = read_facts(at_facts, &mut *fields, &mut *xs)?;
    let at_masks = Place {
        s,
        at: x.next,
        line: x.line,
    };
    read_masks(at_masks, children, fields, masks)?;
    Ok(x.count)
}

// The B line at a place, and what follows it: F lines, X rows, the Y line, and nothing more.
pub(crate) fn read_fact_lines(
    place: Place,
    children: usize,
    lent: &mut SheetRooms,
) -> Result<usize, Refused>
    requires { children ≤ 8 }
    ensures answer { result ≡ facts_by (read_facts children place.entry.line place.entry.at (parts 10 (drop place.entry.at place.entry.s.now))) }
    ensures held { (g : FactLines) → read_facts children place.entry.line place.entry.at (parts 10 (drop place.entry.at place.entry.s.now)) ≡ sheet g → FactsHeld children g lent.old.node.now lent.new.node.now lent.old.facts.now lent.new.facts.now lent.old.xs.now lent.new.xs.now lent.old.masks.now lent.new.masks.now }
    ensures sizes { SameSizes lent.old lent.new }
    ensures kept { (lent.old.head.now ≡ lent.new.head.now) × (lent.old.rows.now ≡ lent.new.rows.now) × (lent.old.index.now ≡ lent.new.index.now) }
{
    match node_line(place.s, place.at, &mut *lent.fields) {
        Read::Line { count, next } => {
            copy_numbers(&lent.fields[..count], &mut *lent.node);
            let after = Place {
                s: place.s,
                at: next,
                line: place.line + 1,
            };
            read_child_lines(
                after,
                children,
                &mut *lent.fields,
                &mut *lent.facts,
                &mut *lent.xs,
                &mut *lent.masks,
            )
        }
        Read::Refused(refusal) => Err(refusal.on_line(place.line)),
    }
}
