// The tests of a child's step: what its count, its facts and the row of its form say of its partitioning.
ghost use Rattle.std.specs.Prelude.{◌≡◌, ℕ, Bool, ◌&&◌, ◌||◌, leb, ltb};
ghost use Rattle.exchange.specs.Operators.{is_partitioned_join};
ghost use Rattle.exchange.specs.Status.{status_of};
ghost use Rattle.exchange.specs.Step.{preserve_file_partition_threshold_met, requires_grouping_id, allow_subset_satisfy_partitioning, partial_aggregate_output_satisfies_final_partitioning, preserve_partial_aggregate_partitioning, add_roundrobin, partitioning_satisfied, preserve_satisfying_file_partitioning, needs_hash_repartition};
ghost use Rattle.exchange.specs.FactRows.{child_at, child_for};
ghost use Rattle.exchange.specs.Standings.{worked_for, node_for, state_for, status_by};

use exchange::fact::{EXACT, SUBSET};
use exchange::mark::is_set;
use exchange::partitioning::{AGGEXACT, AGGSUBSET, Standing, Worked};
use exchange::settings::Settings;
use exchange::status::{Asked, GROUPING, RepartitionRequirementStatus};
use exchange::{kind, need};

// Enough partitions to keep those of the files.
fn preserve_file_partition_threshold_met(s: Settings, a: Asked) -> bool
    ensures { result ≡ preserve_file_partition_threshold_met s (child_for a) }
{
    0 < s.files && s.files <= a.count
}

// `grouping` counts for keyed needs.
fn requires_grouping_id(a: Asked) -> bool
    ensures { result ≡ requires_grouping_id (child_for a) }
{
    a.need == need::KEYED && is_set(a.facts[GROUPING])
}

// A hash join in partitioned mode, or a sort-merge join.
fn is_partitioned_join(w: Worked) -> bool
    ensures { result ≡ is_partitioned_join (worked_for w) }
{
    w.kind == kind::HASH_JOIN || w.kind == kind::SORT_MERGE_JOIN
}

// As many partitions as subsets ask, or enough for the files and fewer than the target.
fn count_allows_subset(s: Settings, a: Asked) -> bool
    ensures { result ≡ (leb s.subset a.count || (preserve_file_partition_threshold_met s (child_for a) && ltb a.count s.target)) }
{
    s.subset <= a.count || preserve_file_partition_threshold_met(s, a) && a.count < s.target
}

// A hash partitioning by some of the keys will do.
fn allow_subset_satisfy_partitioning(s: Settings, w: Worked, a: Asked) -> bool
    ensures { result ≡ allow_subset_satisfy_partitioning s (worked_for w) (child_for a) }
{
    count_allows_subset(s, a) && !is_partitioned_join(w) && !requires_grouping_id(a)
}

// Asked of a partial aggregate without or with subsets; false of any other operator.
fn partial_aggregate_output_satisfies_final_partitioning(w: Worked, subsets: bool) -> bool
    ensures { result ≡ partial_aggregate_output_satisfies_final_partitioning (worked_for w) (node_for w) subsets }
{
    let answer = if subsets {
        w.facts[AGGSUBSET]
    } else {
        w.facts[AGGEXACT]
    };
    w.kind == kind::PARTIAL_AGGREGATE && is_set(answer)
}

// A round robin below a partial aggregate would undo what the final one can use.
fn preserve_partial_aggregate_partitioning(s: Settings, w: Worked, a: Asked) -> bool
    ensures { result ≡ preserve_partial_aggregate_partitioning s (worked_for w) (node_for w) (child_for a) }
{
    preserve_file_partition_threshold_met(s, a)
        && partial_aggregate_output_satisfies_final_partitioning(
            w,
            allow_subset_satisfy_partitioning(s, w, a),
        )
}

// A round robin is wanted, unless the split makes it needless.
pub fn add_roundrobin(s: Settings, w: Worked, a: Asked, t: RepartitionRequirementStatus) -> bool
    ensures { (number : ℕ) → result ≡ add_roundrobin s (worked_for w) (node_for w) (status_by (child_at number a) t) }
{
    is_set(s.roundrobin)
        && t.roundrobin_beneficial
        && t.roundrobin_beneficial_stats
        && a.count < s.target
        && !preserve_partial_aggregate_partitioning(s, w, a)
}

// The row's answer to the keyed need, with subsets where they are allowed. Here and below four parameters stay: what is called takes fewer.
fn partitioning_satisfied(s: Settings, w: Worked, a: Asked, c: Standing) -> bool
    ensures { (number : ℕ) (aligned : Bool) → result ≡ partitioning_satisfied s (worked_for w) (status_of s aligned (child_at number a)) (state_for number a c) }
{
    if allow_subset_satisfy_partitioning(s, w, a) {
        return is_set(c.row[SUBSET]);
    }
    is_set(c.row[EXACT])
}

// What satisfies already stays as it is, since only the count would grow.
fn preserve_satisfying_file_partitioning(s: Settings, w: Worked, a: Asked, c: Standing) -> bool
    ensures { (number : ℕ) (aligned : Bool) → result ≡ preserve_satisfying_file_partitioning s (worked_for w) (status_of s aligned (child_at number a)) (state_for number a c) }
{
    let satisfied = partitioning_satisfied(s, w, a, c);
    preserve_file_partition_threshold_met(s, a)
        && !requires_grouping_id(a)
        && satisfied
        && c.count < s.target
}

// Unsatisfied; or, where subsets are not allowed, more partitions are to be had.
pub fn needs_hash_repartition(s: Settings, w: Worked, a: Asked, c: Standing) -> bool
    ensures { (number : ℕ) (aligned : Bool) → result ≡ needs_hash_repartition s (worked_for w) (status_of s aligned (child_at number a)) (state_for number a c) }
{
    let satisfied = partitioning_satisfied(s, w, a, c);
    let preserved = preserve_satisfying_file_partitioning(s, w, a, c);
    !satisfied || !allow_subset_satisfy_partitioning(s, w, a) && c.count < s.target && !preserved
}
