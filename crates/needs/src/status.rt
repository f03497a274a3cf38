// What is known of each child before any of them is changed: whether dealing out its rows gains, and whether it must be hashed.
ghost use Rattle.std.specs.Prelude.{◌≡◌, ◌&&◌, ◌||◌, ltb, map};
ghost use Rattle.exchange.specs.Status.{rows_gain, asks_alignment, needs_alignment, status_of};
ghost use Rattle.exchange.specs.Operators.{is_keyed};
ghost use Rattle.exchange.specs.FactRows.{child_facts, child_for};
ghost use Rattle.exchange.specs.States.{Child, need_of, count_of};
ghost use Rattle.exchange.specs.Standings.{status_by};

use exchange::mark::is_set;
use exchange::need;
use exchange::settings::Settings;
use exchange::status::{
    Asked, GAINS, ROWKIND, ROWS, ROWS_ESTIMATED, ROWS_EXACT, RepartitionRequirementStatus,
};

// By the row count, dealing out the rows gains.
fn rows_gain(s: Settings, a: Asked) -> bool
    ensures { result ≡ rows_gain s (child_facts a.facts) }
{
    let kind = a.facts[ROWKIND];
    let more = s.batch < a.facts[ROWS];
    if kind == ROWS_EXACT {
        return more;
    }
    kind != ROWS_ESTIMATED || !is_set(s.estimates) || more
}

// A keyed child has more than one partition, or would gain by more.
fn asks_alignment(s: Settings, a: Asked) -> bool
    ensures { result ≡ asks_alignment s (child_for a) }
{
    a.need == need::KEYED && (1 < a.count || is_set(a.facts[GAINS]) && rows_gain(s, a))
}

// A keyed child is hashed for its own partitions, or since one of the keyed children asks.
fn hash_necessary(a: Asked, aligned: bool) -> bool
    ensures { result ≡ (is_keyed a.need && (ltb 1 a.count || aligned)) }
{
    a.need == need::KEYED && (1 < a.count || aligned)
}

// Of one child, given whether any of the children asks (`needs_alignment`).
pub fn get_repartition_requirement_status(
    s: Settings,
    aligned: bool,
    a: Asked,
) -> RepartitionRequirementStatus
    ensures { (k : Child) → need_of k ≡ a.need → count_of k ≡ a.count → k.facts ≡ child_facts a.facts → status_by k result ≡ status_of s aligned k }
{
    let gain = rows_gain(s, a);
    let necessary = hash_necessary(a, aligned);
    RepartitionRequirementStatus {
        roundrobin_beneficial: is_set(a.facts[GAINS]),
        roundrobin_beneficial_stats: gain,
        hash_necessary: necessary,
    }
}

// Whether any of the children asks.
pub fn needs_alignment(s: Settings, asks: &[Asked]) -> bool
    ensures { result ≡ needs_alignment s (map child_for asks.now) }
{
    asks.iter().any(|a| asks_alignment(s, *a))
}
