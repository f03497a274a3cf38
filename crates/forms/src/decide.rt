// The forms of the worked node's children: their steps, and then the relationship rounds.
ghost use Rattle.std.specs.Prelude.{◌≡◌, List, [], map, length};
ghost use Rattle.exchange.specs.Trees.{Operator};
ghost use Rattle.exchange.specs.Facts.{NodeFacts};
ghost use Rattle.exchange.specs.States.{Child};
ghost use Rattle.exchange.specs.Status.{get_repartition_requirement_status};
ghost use Rattle.exchange.specs.Step.{ensure_children};
ghost use Rattle.exchange.specs.Ensure.{relate};
ghost use Rattle.exchange.specs.FactRows.{fact_row};
ghost use Rattle.exchange.specs.Standings.{SameNode, SameChildren};
ghost use Rattle.exchange.specs.Turns.{answer, told};

use crate::relationship::enforce_distribution_relationships;
use crate::step::ensure_children;
use exchange::fact::FactRows;
use exchange::lists::Asks;
use exchange::partitioning::Worked;
use exchange::relationship::Unenforced;
use exchange::settings::Settings;

// The children's forms after their steps and the rounds. That there are as many as asks stays a clause, as `Asks` says.
pub fn child_forms(
    s: Settings,
    w: Worked,
    masks: &[u64],
    asks: Asks,
    xs: FactRows,
    forms: &mut [u64],
) -> Result<(), Unenforced>
    requires { length forms.old ≡ length asks.list.now }
    ensures { (o : Operator) (b : NodeFacts) (ks : List Child) → SameNode w o b → SameChildren 1 asks.entry.list.now ks → answer result forms.new ≡ told (relate s (record { node = b; children = []; rows = map fact_row xs.entry.rows.now; masks = masks.now }) (ensure_children s o b (map fact_row xs.entry.rows.now) (get_repartition_requirement_status s ks))) }
{
    ensure_children(s, w, asks, xs, &mut *forms).ok_or(Unenforced::Missing)?;
    enforce_distribution_relationships(masks, asks, forms, xs)
}
