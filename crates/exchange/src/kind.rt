// The kinds of operators, by document 01's numbers. They stay numbers: rules ask for one kind or for a run of them (`MERGE <= kind`).
ghost use Rattle.std.specs.Prelude.{◌≡◌};
ghost use Rattle.exchange.specs.ReplaceRows.{exchanges as exchange_kind};

pub const OTHER: u64 = 0;

pub const MERGE: u64 = 1;

pub const COALESCE: u64 = 2;

pub const REPARTITION: u64 = 3;

pub const REPARTITION_UNKNOWN: u64 = 4;

pub const HASH_JOIN: u64 = 5;

pub const SORT_MERGE_JOIN: u64 = 6;

pub const WINDOW: u64 = 7;

pub const PARTIAL_AGGREGATE: u64 = 8;

pub const UNION: u64 = 9;

pub const OUTPUT_REQUIREMENT: u64 = 10;

pub const SORT: u64 = 11;

pub const KEYED: u64 = 12;

pub const ROUND_ROBIN: u64 = 13;

pub const INTERLEAVE: u64 = 14;

// Whether the operator is an exchange, on the sheet or new.
pub fn exchanges(kind: u64) -> bool
    ensures { result ≡ exchange_kind kind }
{
    kind == REPARTITION || kind == REPARTITION_UNKNOWN || kind == KEYED || kind == ROUND_ROBIN
}
