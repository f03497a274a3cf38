// Which list goes on an answer.
ghost use Rattle.std.specs.Prelude.{◌≡◌, cond, [], ◌≤◌, length, take, option_copied};
ghost use Rattle.keys.specs.Expressions.{expressions};
ghost use Rattle.keys.specs.Answers.{moved_or};
ghost use Rattle.keys.specs.Values.{tried_or};
ghost use Rattle.moves.specs.Chosen.{followed_or, handed_list, shifted_for};

use adjust::adjust::shift_right_required;
use keys::answer::{Handed, Outcome};
use keys::inputs::Attempt;
use keys::reorder::Reordered;

// The keys that moved, or those that stood.
fn tried_or<'a>(tried: &Reordered, moved: &'a [u64], stood: &'a [u64]) -> &'a [u64]
    ensures { result.now ≡ tried_or tried.now moved.now stood.now }
{
    let Reordered::Moved(_) = tried else {
        return stood;
    };
    moved
}

pub fn moved_or<'a>(o: &Outcome, moved: &'a [u64], stood: &'a [u64]) -> &'a [u64]
    ensures { result.now ≡ moved_or o.now moved.now stood.now }
{
    match o {
        Outcome::Tried(tried) => tried_or(tried, moved, stood),
        Outcome::Unchanged | Outcome::Passed | Outcome::Regrouped { .. } => stood,
    }
}

pub fn followed_or<'a>(o: &Attempt, moved: &'a [u64], stood: &'a [u64]) -> &'a [u64]
    ensures { result.now ≡ followed_or o.now moved.now stood.now }
{
    match o {
        Attempt::Followed(_, tried) => tried_or(tried, moved, stood),
        Attempt::Untried | Attempt::Failed => stood,
    }
}

pub fn cleared_or<'a>(cleared: bool, r: &'a [u64]) -> &'a [u64]
    ensures { result.now ≡ cond cleared [] r.now }
{
    if cleared { &[] } else { r }
}

// The list that a child is handed; none where it keeps its own.
pub fn handed_list<'a>(
    h: Handed,
    required: &'a [u64],
    side: &'a [u64],
    shifted: &'a [u64],
    mapped: &'a [u64],
) -> Option<&'a [u64]>
    ensures { option_copied result ≡ handed_list h required.now side.now shifted.now mapped.now }
{
    match h {
        Handed::Kept => None,
        Handed::Cleared => Some(&[]),
        Handed::Required => Some(required),
        Handed::Keys => Some(side),
        Handed::Shifted => Some(shifted),
        Handed::Mapped => Some(mapped),
    }
}

// R shifted, where a child is handed it, in the front of the room lent, and how many keys; else none.
pub fn shifted_keys(
    first: Handed,
    others: Handed,
    required: &[u64],
    columns: u64,
    out: &mut [u64; 32],
) -> usize
    requires { length required.now ≤ 32 }
    ensures few { result ≤ 32 }
    ensures shifted { expressions (take result out.new) ≡ shifted_for first others columns (expressions required.now) }
{
    if first == Handed::Shifted || others == Handed::Shifted {
        return shift_right_required(required, columns, out);
    }
    0
}
