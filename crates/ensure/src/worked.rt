// ensure_distribution from the worked node on.
ghost use Rattle.std.specs.Prelude.{◌≡◌, List, ◌++◌, ℕ, ◌+◌, ◌≤◌, length, drop};
ghost use Rattle.exchange.specs.Trees.{Plan};
ghost use Rattle.exchange.specs.Rows.{flatten};
ghost use Rattle.exchange.specs.Ensure.{child_states, ensure_worked};
ghost use Rattle.exchange.specs.Turns.{answer, told};
ghost use Rattle.ensure.specs.Outcomes.{facts_of, Ends};
ghost use Rattle.ensure.specs.Lent.{Stood, Worked as WorkedAt};

use crate::finished::finish_worked;
use crate::outcome::Answered;
use exchange::facts::PlanFacts;
use exchange::lists::Asks;
use exchange::partitioning::Worked;
use exchange::places::asked_children;
use exchange::relationship::Unenforced;
use exchange::row::{self, Place, Row};
use exchange::settings::Settings;
use exchange::status::Asked;
use forms::decide::child_forms;

// The forms of the children of the worked node that stands there, a place for each in `forms`.
fn worked_forms(s: Settings, f: PlanFacts, src: Place, forms: &mut [u64]) -> Result<(), Unenforced>
    requires as_many { length forms.old ≡ length f.children.now }
    requires stood { Stood src.rows.now src.at (length f.children.now) }
    ensures { (t : Plan) (rest : List (List ℕ)) → drop src.entry.at src.entry.rows.now ≡ flatten t ++ rest → answer result forms.new ≡ told (child_states s (facts_of f.entry) t) }
{
    let w = Worked {
        kind: row::node_at(src.rows, src.at).kind,
        facts: f.node,
    };
    let mut room = [Asked::default(); 8];
    let asks = &mut room[..f.children.len()];
    asked_children(src.rows, src.at + 1, f.children, &mut *asks);
    child_forms(s, w, f.masks, Asks { list: &*asks }, f.xs, forms)
}

// Decides on the worked node that stands there, which has as many children as there are facts.
pub(crate) fn ensure_worked(
    s: Settings,
    f: PlanFacts,
    src: Place,
    mid: &mut [Row],
    dst: &mut [Row],
) -> Result<Answered, Unenforced>
    requires roomy { length src.rows.now + 2 ≤ length mid.old }
    requires worked_at { WorkedAt s (facts_of f) src.rows.now src.at (length f.children.now) (length dst.old) }
    ensures { (t : Plan) (rest : List (List ℕ)) → drop src.entry.at src.entry.rows.now ≡ flatten t ++ rest → Ends (ensure_worked s (facts_of f.entry) t) result dst.old dst.new }
{
    let mut room = [0u64; 8];
    let forms = &mut room[..f.children.len()];
    worked_forms(s, f, src, &mut *forms)?;
    Ok(finish_worked(s, f, &*forms, src, mid, dst))
}
