// Reads a D sheet into lent rooms, or refuses it by a number from 1 to 8 and its line.
ghost use Rattle.std.specs.Prelude.{◌≡◌, List, ◌++◌, true, ℕ, ◌+◌, ◌≤◌, length, take, drop};
ghost use Rattle.text.specs.Text.{parts};
ghost use Rattle.exchange.specs.Trees.{Plan as PlanTree};
ghost use Rattle.exchange.specs.declared.settings.Settings.{Settings};
ghost use Rattle.exchange.specs.Settings.{checked};
ghost use Rattle.exchange.specs.Rows.{flatten};
ghost use Rattle.exchange.specs.Fit.{facts_fit};
ghost use Rattle.exchange.specs.Found.{index_of};
ghost use Rattle.sheet.specs.KeySheets.{sheet};
ghost use Rattle.plansheet.specs.PlanSheets.{PlanSheet, FactLines, settings_of, facts_of, plan_sheet, judged_plan, with_facts, child_count, read_facts, read_plan};
ghost use Rattle.plansheet.specs.PlanRooms.{PlanRooms, Filled, TreeStands, RoomFor, plan_by, PlanHeld};
ghost use Rattle.plansheet.specs.LentRooms.{SameSizes};

use crate::fit::facts_fit;
use crate::line::sets_of;
use crate::lines::{read_fact_lines, read_tree_lines};
use crate::place::Place;
use crate::rooms::{LinesRead, SheetRooms};
use exchange::fact::{FactRows, index_rows};
use exchange::row::children_at;
use exchange::settings::Settings;
use exchange::worked::remove_dist_changing_operators;
use refusals::{Refusal, Refused};

// A sheet that stands in the rooms lent: its settings, the tree's lines, the place of the worked node, its children and the X rows.
#[derive(Clone, Copy)]
pub struct Plan {
    pub settings: Settings,
    pub lines: usize,
    pub worked: usize,
    pub children: usize,
    pub rows: usize,
}

// The D line's numbers as settings, within their bounds.
fn checked_settings(head: &[u64]) -> Option<Settings>
    requires { 9 ≤ length head.now }
    ensures { result ≡ checked (settings_of head.now) }
{
    Settings::new(
        head[0], head[1], head[2], head[3], head[4], head[5], head[6], head[7], head[8],
    )
}

// Whether the X rows and masks that were read fit the tree; the index of the rows is made on the way.
fn plan_fits(target: u64, f: LinesRead, index: &mut [u64]) -> bool
    requires room { length index.old ≡ 129 }
    requires filled { Filled f.rows.now f.facts.now f.xs.now f.masks.now f.worked f.children f.count }
    ensures answer { (s : Settings) (t : PlanTree) (g : FactLines) → s.target ≡ target → PlanRooms t g f.entry.rows.now f.entry.facts.now f.entry.xs.now f.entry.masks.now f.entry.worked f.entry.children f.entry.count → result ≡ facts_fit s (facts_of g) t }
    ensures indexed { result ≡ true → (f.entry.count ≤ length f.entry.xs.now) × (index.new ≡ index_of (take f.entry.count f.entry.xs.now)) }
{
    if f.xs.len() < f.count {
        return false;
    }
    let there = &f.xs[..f.count];
    index_rows(there, &mut *index);
    let known = FactRows {
        index: &*index,
        rows: there,
    };
    let children = &f.facts[..f.children];
    let masks = &f.masks[..sets_of(f.children)];
    facts_fit(target, f.rows, f.worked, children, known, masks)
}

// The lines that were read, judged as a sheet: target and batch first, then X rows and masks.
fn judge_plan(head: &[u64], f: LinesRead, index: &mut [u64]) -> Result<Plan, Refused>
    requires room { (9 ≤ length head.now) × (length index.old ≡ 129) }
    requires filled { Filled f.rows.now f.facts.now f.xs.now f.masks.now f.worked f.children f.count }
    ensures answer { (t : PlanTree) (g : FactLines) → f.entry.lines ≡ length (flatten t) → PlanRooms t g f.entry.rows.now f.entry.facts.now f.entry.xs.now f.entry.masks.now f.entry.worked f.entry.children f.entry.count → result ≡ plan_by (judged_plan (plan_sheet (settings_of head.now) t g)) }
    ensures indexed { (x : PlanSheet) → result ≡ plan_by (sheet x) → (f.entry.count ≤ length f.entry.xs.now) × (index.new ≡ index_of (take f.entry.count f.entry.xs.now)) }
{
    let Some(settings) = checked_settings(head) else {
        return Err(Refusal::SettingsOutOfRange.on_line(0));
    };
    if !plan_fits(settings.target, f, index) {
        return Err(Refusal::UnfitFacts.on_line(0));
    }
    Ok(Plan {
        settings,
        lines: f.lines,
        worked: f.worked,
        children: f.children,
        rows: f.count,
    })
}

// What follows the tree, which stands in the rows and has so many lines: the facts, and the sheet judged.
fn read_after_tree(place: Place, lines: usize, lent: &mut SheetRooms) -> Result<Plan, Refused>
    requires room { RoomFor 128 28 (length place.s.now) (length lent.old.xs.now) }
    requires whole { (9 ≤ length lent.old.head.now) × (length lent.old.index.now ≡ 129) }
    requires tree_stands { TreeStands lent.old.rows.now }
    ensures answer { (t : PlanTree) (rest : List (List ℕ)) → lent.old.rows.now ≡ flatten t ++ rest → lines ≡ length (flatten t) → result ≡ plan_by (with_facts (settings_of lent.old.head.now) t (read_facts (child_count t) place.entry.line place.entry.at (parts 10 (drop place.entry.at place.entry.s.now)))) }
    ensures held { (t : PlanTree) (rest : List (List ℕ)) (x : PlanSheet) → lent.old.rows.now ≡ flatten t ++ rest → lines ≡ length (flatten t) → with_facts (settings_of lent.old.head.now) t (read_facts (child_count t) place.entry.line place.entry.at (parts 10 (drop place.entry.at place.entry.s.now))) ≡ sheet x → PlanHeld x lent.new.rows.now lent.new.node.now lent.new.facts.now lent.new.xs.now lent.new.masks.now lent.new.index.now }
    ensures sizes { SameSizes lent.old lent.new }
{
    // Read by `&mut` first: of a room behind `lent` that is read by `&`, the checker knows the length alone.
    let tree = &mut *lent.rows;
    let worked = remove_dist_changing_operators(&*tree, 0);
    // No From goes from u64 to usize.
    let children = children_at(&*tree, worked) as usize;
    let count = read_fact_lines(place, children, &mut *lent)?;
    let head = &mut *lent.head;
    let rows = &mut *lent.rows;
    let facts = &mut *lent.facts;
    let xs = &mut *lent.xs;
    let masks = &mut *lent.masks;
    let read = LinesRead {
        rows: &*rows,
        lines,
        worked,
        children,
        facts: &*facts,
        xs: &*xs,
        count,
        masks: &*masks,
    };
    judge_plan(&*head, read, &mut *lent.index)
}

// A D sheet, in the rooms lent.
pub fn read_plan(s: &[u8], lent: &mut SheetRooms) -> Result<Plan, Refused>
    requires tree_room { RoomFor 256 17 (length s.now) (length lent.old.rows.now) }
    requires room { RoomFor 128 28 (length s.now) (length lent.old.xs.now) }
    requires whole { (9 ≤ length lent.old.head.now) × (length lent.old.index.now ≡ 129) }
    ensures answer { result ≡ plan_by (read_plan s.now) }
    ensures held { (x : PlanSheet) → read_plan s.now ≡ sheet x → PlanHeld x lent.new.rows.now lent.new.node.now lent.new.facts.now lent.new.xs.now lent.new.masks.now lent.new.index.now }
    ensures sizes { SameSizes lent.old lent.new }
{
    let t = read_tree_lines(s, &mut *lent.fields, &mut *lent.head, &mut *lent.rows)?;
    let place = Place {
        s,
        at: t.next,
        line: t.line,
    };
    read_after_tree(place, t.count, lent)
}
