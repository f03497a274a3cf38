// The answer of an I sheet that was read.
ghost use Rattle.std.specs.Prelude.{◌≡◌, true, ◌≤◌, leb, length};
ghost use Rattle.keys.specs.Expressions.{same_expr};
ghost use Rattle.keys.specs.Inputs.{reorder_join_keys_to_inputs};
ghost use Rattle.keys.specs.InputValues.{attempt_of};
ghost use Rattle.sheet.specs.KeyAnswers.{wrote, join_answer_text};
ghost use Rattle.sheet.specs.Outcomes.{within, Writes};
ghost use Rattle.sheet.specs.Held.{held_join_sheet, JoinHeld};
ghost use Rattle.lines.specs.Texts.{join_text_of};
ghost use Rattle.answers.specs.AnswerLists.{JoinFew, JoinPairs};

use keys::inputs::Attempt;
use lines::join_text::{JoinLists, join_lists_length, put_join_lists};
use moves::chosen::followed_or;
use moves::decide::follow;
use moves::held_join::HeldJoin;
use moves::moved::{MovedPairs, PairRooms, pairs_at};
use refusals::{Refusal, Refused};
use sheet::held::Lists;
use sheet::join_lines;

// Whether there is room for the lists; `roomy` says that there is for any answer, so that none is measured.
fn text_fits(roomy: bool, room: usize, x: &JoinLists<'_>) -> bool
    requires { JoinFew x.now × (roomy ≡ true → length (join_text_of x.now) ≤ room) }
    ensures { result ≡ leb (length (join_text_of x.now)) room }
{
    roomy || join_lists_length(x) <= room
}

// The lists, where there is room for them; else refusal 12.
fn write_join(roomy: bool, x: &JoinLists<'_>, out: &mut [u8]) -> Result<usize, Refused>
    requires { JoinFew x.now × (roomy ≡ true → length (join_text_of x.now) ≤ length out.old) }
    ensures { Writes (within (length out.old) (wrote (join_text_of x.now))) result out.old out.new }
{
    if !text_fits(roomy, out.len(), x) {
        return Err(Refusal::OutputTooShort.on_line(0));
    }
    Ok(put_join_lists(out, x))
}

// The lists of an answer, of the pairs that moved.
fn chosen<'a>(sheet: HeldJoin<'a>, o: &Attempt, moved: MovedPairs<'a>) -> JoinLists<'a>
    requires { JoinPairs sheet.held o.now moved }
    ensures few { JoinFew result }
    ensures text { join_text_of result ≡ join_answer_text (attempt_of (held_join_sheet sheet.entry.held.lists.now sheet.entry.held.counts.now) o.now) }
{
    JoinLists {
        report: o.report(),
        followed: o.followed(),
        positions: moved.positions,
        left: followed_or(o, moved.left, sheet.list(join_lines::LEFT)),
        right: followed_or(o, moved.right, sheet.list(join_lines::RIGHT)),
        directions: followed_or(o, moved.directions, sheet.list(join_lines::DIRECTIONS)),
    }
}

// The answer of what was tried; rooms for pairs are cleared only where some moved.
fn answer_attempt(
    roomy: bool,
    sheet: HeldJoin<'_>,
    o: &Attempt,
    out: &mut [u8],
) -> Result<usize, Refused>
    requires { roomy ≡ true → length (join_answer_text (attempt_of (held_join_sheet sheet.held.lists.now sheet.held.counts.now) o.now)) ≤ length out.old }
    ensures { Writes (within (length out.old) (wrote (join_answer_text (attempt_of (held_join_sheet sheet.entry.held.lists.now sheet.entry.held.counts.now) o.now)))) result out.old out.new }
{
    let at = o.positions();
    if at.list.is_empty() {
        let lists = chosen(sheet, o, MovedPairs::NONE);
        return write_join(roomy, &lists, out);
    }
    let mut rooms = PairRooms::EMPTY;
    let moved = pairs_at(
        sheet.list(join_lines::LEFT),
        sheet.list(join_lines::RIGHT),
        sheet.list(join_lines::DIRECTIONS),
        at,
        &mut rooms,
    );
    let lists = chosen(sheet, o, moved);
    write_join(roomy, &lists, out)
}

// The decision on an I sheet and its answer's bytes; `roomy` says that the answer fits.
pub fn answer_join_sheet(roomy: bool, held: Lists<'_, '_>, out: &mut [u8]) -> Result<usize, Refused>
    requires held { JoinHeld held.lists.now held.counts.now }
    requires fits { roomy ≡ true → length (join_answer_text (reorder_join_keys_to_inputs (held_join_sheet held.lists.now held.counts.now) same_expr)) ≤ length out.old }
    ensures { Writes (within (length out.old) (wrote (join_answer_text (reorder_join_keys_to_inputs (held_join_sheet held.entry.lists.now held.entry.counts.now) same_expr)))) result out.old out.new }
{
    let sheet = HeldJoin { held };
    let attempt = follow(sheet);
    answer_attempt(roomy, sheet, &attempt, out)
}
