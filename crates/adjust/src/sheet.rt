// The numbers and lists of a K sheet that a decision reads.
ghost use Rattle.std.specs.Prelude.{◌≡◌, ◌≤◌, length};
ghost use Rattle.keys.specs.Arrange.{Below};
ghost use Rattle.adjust.specs.Bounds.{below_prop};

use keys::answer::Operator;

#[derive(Clone, Copy)]
pub struct Sheet<'a> {
    pub operator: Operator,
    pub required: &'a [u64],
    pub left: &'a [u64],
    pub right: &'a [u64],
    pub rewriting: &'a [[u64; 2]],
    pub groups: &'a [u64],
    pub aggregates: &'a [u64],
    pub mapped: &'a [u64],
    ghost few_required: { length required.now ≤ 32 },
    ghost few_pairs: { length left.now ≤ 32 },
    ghost even: { length right.now ≡ length left.now },
    ghost few_groups: { length groups.now ≤ 32 },
    ghost few_aggregates: { length aggregates.now ≤ 32 },
    ghost named: { Below 65536 groups.now } by { below_prop 65536 groups.now },
}

// Those that an aggregate's decision reads: whoever asks it has no pairs to lend.
// `Sheet` holds none of it: the rules of every operator read `operator` and `required`.
#[derive(Clone, Copy)]
pub struct AggregateSheet<'a> {
    pub operator: Operator,
    pub required: &'a [u64],
    pub groups: &'a [u64],
    pub aggregates: &'a [u64],
    ghost few_required: { length required.now ≤ 32 },
    ghost few_groups: { length groups.now ≤ 32 },
    ghost few_aggregates: { length aggregates.now ≤ 32 },
    ghost named: { Below 65536 groups.now } by { below_prop 65536 groups.now },
}
