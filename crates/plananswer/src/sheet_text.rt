// A D sheet written again from what is held of it: settings, tree, and the rows of the lines B, F, X and Y.
ghost use Rattle.std.specs.Prelude.{◌+◌, ◌≤◌, length};
ghost use Rattle.text.specs.Write.{Wrote};
ghost use Rattle.sheet.specs.KeyAnswers.{numbers_line};
ghost use Rattle.exchange.specs.FactRows.{node_facts};
ghost use Rattle.plananswer.specs.RowTexts.{lines_of};
ghost use Rattle.plansheet.specs.PlanTexts.{node_numbers};
ghost use Rattle.plananswer.specs.SheetTexts.{tree_row_line, child_row_line, fact_row_line, sheet_rows_text};

use crate::rows::put_rows;
use crate::sheet_line::{ChildLine, FactLine, TreeLine, put_settings};
use exchange::fact::FactRow;
use exchange::partitioning::NodeRow;
use exchange::row::Row;
use exchange::settings::Settings;
use exchange::status::ChildRow;
use lines::line::put_numbers;

// The B line.
fn put_node_facts(out: &mut [u8], at: usize, b: NodeRow) -> usize
    requires { at + length (numbers_line 66 (node_numbers (node_facts b))) ≤ length out.old }
    ensures { Wrote out.old at (numbers_line 66 (node_numbers (node_facts b))) out.new result }
{
    put_numbers(out, at, b'B', &b)
}

// The settings, the tree's rows, the B row, the F and X rows, and the masks of a sheet.
#[derive(Clone, Copy)]
pub struct SheetRows<'a> {
    pub settings: Settings,
    pub tree: &'a [Row],
    pub node: NodeRow,
    pub children: &'a [ChildRow],
    pub facts: &'a [FactRow],
    pub masks: &'a [u64],
}

// Writes the sheet's lines, and gives the place past them.
pub fn put_plan_sheet(out: &mut [u8], at: usize, sheet: SheetRows) -> usize
    requires { at + length (sheet_rows_text sheet.settings sheet.tree.now sheet.node sheet.children.now sheet.facts.now sheet.masks.now) ≤ length out.old }
    ensures { Wrote out.old at (sheet_rows_text sheet.entry.settings sheet.entry.tree.now sheet.entry.node sheet.entry.children.now sheet.entry.facts.now sheet.entry.masks.now) out.new result }
{
    let at_tree = put_settings(out, at, sheet.settings);
    let at_node = put_rows::<Row, TreeLine>(out, at_tree, sheet.tree);
    let at_children = put_node_facts(out, at_node, sheet.node);
    let at_facts = put_rows::<ChildRow, ChildLine>(out, at_children, sheet.children);
    let at_masks = put_rows::<FactRow, FactLine>(out, at_facts, sheet.facts);
    put_numbers(out, at_masks, b'Y', sheet.masks)
}
