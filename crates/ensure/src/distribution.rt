// The decision on a tree in lent rows: a leaf's answer, or that of its worked node.
ghost use Rattle.std.specs.Prelude.{◌≡◌, List, ◌++◌, ℕ, ◌+◌, ◌*◌, ◌≤◌, length, Ok};
ghost use Rattle.exchange.specs.Trees.{Plan};
ghost use Rattle.exchange.specs.Facts.{Facts};
ghost use Rattle.exchange.specs.Rows.{flatten};
ghost use Rattle.exchange.specs.Runs.{Ready, Becomes};
ghost use Rattle.exchange.specs.Children.{update_children};
ghost use Rattle.exchange.specs.Ensure.{ensured, unchanged};
ghost use Rattle.ensure.specs.Outcomes.{facts_of, Ends};
ghost use Rattle.ensure.specs.Lent.{Sheet};

use crate::outcome::Answered;
use crate::update::update_children;
use crate::worked::ensure_worked;
use exchange::facts::PlanFacts;
use exchange::relationship::Unenforced;
use exchange::row::{self, Place, Row};
use exchange::settings::Settings;
use exchange::worked::remove_dist_changing_operators;

// A leaf's answer.
fn leave_unchanged(src: &[Row], dst: &mut [Row]) -> Answered
    requires { Ready (λ t. t) src.now 0 (length dst.old) 0 }
    ensures { (t : Plan) (rest : List (List ℕ)) → src.now ≡ flatten t ++ rest → (s : Settings) (f : Facts) → Ends (unchanged s f t) (Ok result) dst.old dst.new }
{
    let m = row::copy_tree(Place { rows: src, at: 0 }, dst, 0);
    Answered {
        changed: 0,
        window: 0,
        interleave: 0,
        tracked: 0,
        lines: m.to,
    }
}

// Decides on the tree at the front of `src`, by what the sheet says beside it. The marks of the tree's root and of its children are set anew
// in place; the answer's rows stand at the front of `dst`. Here and below the rooms stay apart, since they are lent by &mut.
pub fn ensure_distribution(
    s: Settings,
    f: PlanFacts,
    src: &mut [Row],
    mid: &mut [Row],
    dst: &mut [Row],
) -> Result<Answered, Unenforced>
    requires roomy { (length src.old + 2 ≤ length mid.old) × (2 * length src.old + 24 ≤ length dst.old) }
    requires sheet { Sheet src.old (length f.children.now) }
    ensures ends { (t : Plan) (rest : List (List ℕ)) → src.old ≡ flatten t ++ rest → Ends (ensured s (facts_of f.entry) t) result dst.old dst.new }
    ensures becomes { Becomes update_children src.old 0 src.new }
{
    update_children(&mut *src, 0);
    if row::children_at(&*src, 0) == 0 {
        return Ok(leave_unchanged(&*src, dst));
    }
    let at = remove_dist_changing_operators(&*src, 0);
    let worked = Place { rows: &*src, at };
    ensure_worked(s, f, worked, mid, dst)
}
