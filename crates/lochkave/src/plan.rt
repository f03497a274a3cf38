// A D sheet that was read: decided, and its answer written.
ghost use Rattle.std.specs.Prelude.{◌≡◌, Err, List, ◌++◌, ℕ, ◌+◌, ◌*◌, ◌≤◌, length, take};
ghost use Rattle.sheet.specs.SheetLines.{refused_on};
ghost use Rattle.sheet.specs.Outcomes.{within, Writes};
ghost use Rattle.exchange.specs.Trees.{Plan};
ghost use Rattle.exchange.specs.Rows.{flatten};
ghost use Rattle.exchange.specs.Ensure.{ensured};
ghost use Rattle.ensure.specs.Outcomes.{facts_of, refusal};
ghost use Rattle.ensure.specs.Lent.{Sheet};
ghost use Rattle.plansheet.specs.PlanLines.{two_to};
ghost use Rattle.plananswer.specs.PlanTexts.{distributed};
ghost use Rattle.lochkave.specs.PlanHeld.{FactsIn, four};

use ensure::distribution::ensure_distribution;
use exchange::fact::FactRows;
use exchange::facts::PlanFacts;
use exchange::relationship::Unenforced;
use exchange::row::Row;
use exchange::settings::Settings;
use plananswer::plan::{AnswerRows, Head, write_plan};
use plansheet::line::sets_of;
use plansheet::plan::Plan as SheetPlan;
use plansheet::rooms::SheetRooms;
use refusals::{Refusal, Refused};

// A sheet that was read: its tree, and what it says beside it.
#[derive(Drop)]
pub(crate) struct Held<'a> {
    pub tree: &'a mut [Row],
    pub facts: PlanFacts<'a>,
}

// What the rooms hold of a sheet.
pub(crate) fn held_sheet<'a>(p: SheetPlan, lent: SheetRooms<'a>) -> Held<'a>
    requires facts { FactsIn p.children p.rows lent.facts.now lent.xs.now lent.masks.now lent.index.now }
    requires lines { p.lines ≤ length lent.rows.now }
    ensures tree { result.tree.now ≡ take p.lines lent.entry.rows.now }
    ensures node { result.facts.node ≡ four lent.entry.node.now }
    ensures children { result.facts.children.now ≡ take p.children lent.entry.facts.now }
    ensures rows { result.facts.xs.rows.now ≡ take p.rows lent.entry.xs.now }
    ensures masks { result.facts.masks.now ≡ take (two_to p.children) lent.entry.masks.now }
{
    let SheetRooms {
        rows,
        node,
        facts,
        xs,
        masks,
        index,
        ..
    } = lent;
    Held {
        tree: &mut rows[..p.lines],
        facts: PlanFacts {
            node: [node[0], node[1], node[2], node[3]],
            children: &facts[..p.children],
            xs: FactRows {
                index,
                rows: &xs[..p.rows],
            },
            masks: &masks[..sets_of(p.children)],
        },
    }
}

// What is turned back where a distribution cannot be enforced. No From: both types are of other crates.
fn refused_by(why: Unenforced) -> Refused
    ensures { result ≡ refused_on (refusal (Err why)) 0 }
{
    match why {
        Unenforced::Missing => Refusal::MissingRow.on_line(0),
        Unenforced::Stuck => Refusal::Unenforceable.on_line(0),
    }
}

// Decides on the tree at the front of `src`, by what the sheet says beside it, and writes the answer.
pub(crate) fn answer_plan(
    s: Settings,
    f: PlanFacts,
    src: &mut [Row],
    mid: &mut [Row],
    dst: &mut [Row],
    out: &mut [u8],
) -> Result<usize, Refused>
    requires roomy { (length src.old + 2 ≤ length mid.old) × (2 * length src.old + 24 ≤ length dst.old) × (length dst.old ≤ 65536) }
    requires sheet { Sheet src.old (length f.children.now) }
    ensures { (t : Plan) (rest : List (List ℕ)) → src.old ≡ flatten t ++ rest → Writes (within (length out.old) (distributed (ensured s (facts_of f.entry) t))) result out.old out.new }
{
    let done = ensure_distribution(s, f, src, mid, &mut *dst).map_err(refused_by)?;
    let head = Head {
        changed: done.changed,
        window: done.window,
        interleave: done.interleave,
        tracked: done.tracked,
    };
    let rows = &dst[..done.lines];
    write_plan(head, AnswerRows { rows }, out)
}
