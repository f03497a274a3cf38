// The answer of a K sheet that was read.
ghost use Rattle.std.specs.Prelude.{◌≡◌, true, ◌≤◌, leb, length, get_or};
ghost use Rattle.std.proofs.Props.{props};
ghost use Rattle.keys.specs.Expressions.{same_expr};
ghost use Rattle.keys.specs.Adjust.{adjust_input_keys_ordering};
ghost use Rattle.keys.specs.Answers.{answer_of};
ghost use Rattle.sheet.specs.KeyAnswers.{wrote, key_answer_text, adjusted};
ghost use Rattle.sheet.specs.Outcomes.{within, FitsIn, Writes};
ghost use Rattle.sheet.specs.Held.{held_key_sheet, KeyHeld};
ghost use Rattle.answers.specs.AnswerLists.{whole_text, KeyFew, KeyPairs, KeyNames};

use keys::answer::{Adjusted, Outcome};
use lines::children::{Children, children_length, put_children};
use lines::key_text::{KeyLists, key_lists_length, put_key_lists};
use moves::chosen::{cleared_or, handed_list, moved_or, shifted_keys};
use moves::decide::adjust;
use moves::held_key::HeldKey;
use moves::moved::{MovedPairs, PairRooms, pairs_at};
use moves::projection::projected_by;
use refusals::{Refusal, Refused};
use sheet::held::Lists;
use sheet::key_lines;

// The lists of an answer, and what the sheet's children are handed.
#[derive(Clone, Copy)]
struct KeyAnswer<'a> {
    sheet: HeldKey<'a>,
    lists: KeyLists<'a>,
    children: Children<'a>,
    ghost few: { KeyFew lists children } by { Prim.hlevel props },
}

// How many children a K line has. No From goes from u64 to usize.
fn child_count(h: &[u64]) -> usize
    requires { 7 ≤ length h.now }
    ensures { result ≡ get_or h.now 6 0 }
{
    h[key_lines::CHILDREN] as usize
}

// Whether there is room for the lists and the children's lists; `roomy` says that there is for any answer, so that none is measured.
fn text_fits(roomy: bool, room: usize, a: &KeyAnswer<'_>) -> bool
    requires { roomy ≡ true → length (whole_text a.now.lists a.now.children a.now.sheet.held) ≤ room }
    ensures { result ≡ leb (length (whole_text a.now.lists a.now.children a.now.sheet.held)) room }
{
    let n = child_count(a.sheet.list(key_lines::HEAD));
    roomy || key_lists_length(&a.lists) + children_length(a.children, a.sheet.held, n) <= room
}

// The lists and the children's lists, where there is room for them; else refusal 12.
// Apart from `write_join`: it writes other lists, in another order.
fn write_key(roomy: bool, a: &KeyAnswer<'_>, out: &mut [u8]) -> Result<usize, Refused>
    requires { roomy ≡ true → length (whole_text a.now.lists a.now.children a.now.sheet.held) ≤ length out.old }
    ensures { Writes (within (length out.old) (wrote (whole_text a.now.lists a.now.children a.now.sheet.held))) result out.old out.new }
{
    if !text_fits(roomy, out.len(), a) {
        return Err(Refusal::OutputTooShort.on_line(0));
    }
    let n = child_count(a.sheet.list(key_lines::HEAD));
    let at = put_key_lists(&mut *out, &a.lists);
    Ok(put_children(out, at, a.children, a.sheet.held, n))
}

// The lists of an answer, of the pairs that moved and the numbers of J; R shifted goes into the room lent.
fn chosen<'a>(
    sheet: HeldKey<'a>,
    x: &Adjusted,
    moved: MovedPairs<'a>,
    projection: &'a [u64],
    shifts: &'a mut [u64; 32],
) -> KeyAnswer<'a>
    requires pairs { KeyPairs sheet.held x.now.outcome moved }
    requires names { KeyNames sheet.held x.now.outcome projection.now }
    ensures { whole_text result.lists result.children result.sheet.held ≡ key_answer_text (answer_of (held_key_sheet sheet.entry.held.lists.now sheet.entry.held.counts.now) x.now) }
{
    let o = &x.outcome;
    let required = sheet.list(key_lines::REQUIRED);
    let mapped = sheet.list(key_lines::MAPPED);
    let columns = sheet.list(key_lines::HEAD)[key_lines::COLUMNS];
    let n = shifted_keys(x.first, x.others, required, columns, &mut *shifts);
    let shifted = &shifts[..n];
    let lists = KeyLists {
        changed: o.changed(),
        report: o.report(),
        positions: moved.positions,
        required: cleared_or(x.cleared, required),
        left: moved_or(o, moved.left, sheet.list(key_lines::LEFT)),
        right: moved_or(o, moved.right, sheet.list(key_lines::RIGHT)),
        directions: moved_or(o, moved.directions, sheet.list(key_lines::DIRECTIONS)),
        projection,
    };
    let children = Children {
        first: handed_list(x.first, required, lists.left, shifted, mapped),
        others: handed_list(x.others, required, lists.right, shifted, mapped),
    };
    KeyAnswer {
        sheet,
        lists,
        children,
    }
}

// The answer of the pairs that moved; the room for J is cleared only where groups moved.
fn answer_pairs(
    roomy: bool,
    sheet: HeldKey<'_>,
    x: &Adjusted,
    moved: MovedPairs<'_>,
    out: &mut [u8],
) -> Result<usize, Refused>
    requires pairs { KeyPairs sheet.held x.now.outcome moved }
    requires fits { roomy ≡ true → length (key_answer_text (answer_of (held_key_sheet sheet.held.lists.now sheet.held.counts.now) x.now)) ≤ length out.old }
    ensures { Writes (within (length out.old) (wrote (key_answer_text (answer_of (held_key_sheet sheet.entry.held.lists.now sheet.entry.held.counts.now) x.now)))) result out.old out.new }
{
    let mut shifts = [0; 32];
    let Outcome::Regrouped { .. } = x.outcome else {
        let answer = chosen(sheet, x, moved, &[], &mut shifts);
        return write_key(roomy, &answer, out);
    };
    let mut names = [0; 128];
    let n = projected_by(
        &x.outcome,
        sheet.list(key_lines::GROUPS),
        sheet.list(key_lines::AGGREGATES),
        &mut names,
    );
    let answer = chosen(sheet, x, moved, &names[..n], &mut shifts);
    write_key(roomy, &answer, out)
}

// The answer of what was decided; rooms for pairs are cleared only where some moved.
fn answer_adjusted(
    roomy: bool,
    sheet: HeldKey<'_>,
    x: &Adjusted,
    out: &mut [u8],
) -> Result<usize, Refused>
    requires { roomy ≡ true → length (key_answer_text (answer_of (held_key_sheet sheet.held.lists.now sheet.held.counts.now) x.now)) ≤ length out.old }
    ensures { Writes (within (length out.old) (wrote (key_answer_text (answer_of (held_key_sheet sheet.entry.held.lists.now sheet.entry.held.counts.now) x.now)))) result out.old out.new }
{
    let at = x.outcome.positions();
    if at.list.is_empty() {
        return answer_pairs(roomy, sheet, x, MovedPairs::NONE, out);
    }
    let mut rooms = PairRooms::EMPTY;
    let moved = pairs_at(
        sheet.list(key_lines::LEFT),
        sheet.list(key_lines::RIGHT),
        sheet.list(key_lines::DIRECTIONS),
        at,
        &mut rooms,
    );
    answer_pairs(roomy, sheet, x, moved, out)
}

// The decision on a K sheet and its answer's bytes; `roomy` says that the answer fits.
pub fn answer_key_sheet(roomy: bool, held: Lists<'_, '_>, out: &mut [u8]) -> Result<usize, Refused>
    requires held { KeyHeld held.lists.now held.counts.now }
    requires fits { roomy ≡ true → FitsIn (length out.old) (adjusted (adjust_input_keys_ordering same_expr (held_key_sheet held.lists.now held.counts.now))) }
    ensures { Writes (within (length out.old) (adjusted (adjust_input_keys_ordering same_expr (held_key_sheet held.entry.lists.now held.entry.counts.now)))) result out.old out.new }
{
    let sheet = HeldKey { held };
    let Some(x) = adjust(sheet) else {
        return Err(Refusal::NameNotFound.on_line(0));
    };
    answer_adjusted(roomy, sheet, &x, out)
}
