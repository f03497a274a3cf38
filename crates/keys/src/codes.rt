// What the codes of a K line stand for.
ghost use Rattle.std.specs.Prelude.{◌≡◌};
ghost use Rattle.keys.specs.Codes.{op_of, hash_mode_of, aggregate_mode_of, join_of};

// The operators that the rules tell apart; op 5 is any that keeps no order of its input.
#[derive(Clone, Copy, PartialEq, Eq, Debug)]
pub enum Op {
    HashJoin,
    CrossJoin,
    SortMergeJoin,
    Aggregate,
    Projection,
    Clearing,
    Other,
}

impl Op {
    // How many codes there are, from 0 on.
    pub const CODES: u64 = 7;
}

impl From<u64> for Op {
    ghost from_gives = { λ code r. r ≡ op_of code };

    fn from(code: u64) -> Op {
        match code {
            0 => Op::HashJoin,
            1 => Op::CrossJoin,
            2 => Op::SortMergeJoin,
            3 => Op::Aggregate,
            4 => Op::Projection,
            5 => Op::Clearing,
            _ => Op::Other,
        }
    }
}

#[derive(Clone, Copy, PartialEq, Eq, Debug)]
pub enum HashMode {
    Partitioned,
    CollectLeft,
    Auto,
}

impl HashMode {
    // How many codes there are, from 0 on.
    pub const CODES: u64 = 3;
}

impl From<u64> for HashMode {
    ghost from_gives = { λ code r. r ≡ hash_mode_of code };

    fn from(code: u64) -> HashMode {
        match code {
            0 => HashMode::Partitioned,
            1 => HashMode::CollectLeft,
            _ => HashMode::Auto,
        }
    }
}

#[derive(Clone, Copy, PartialEq, Eq, Debug)]
pub enum AggregateMode {
    FinalPartitioned,
    Other,
}

impl AggregateMode {
    // How many codes there are, from 0 on.
    pub const CODES: u64 = 2;
}

impl From<u64> for AggregateMode {
    ghost from_gives = { λ code r. r ≡ aggregate_mode_of code };

    fn from(code: u64) -> AggregateMode {
        match code {
            0 => AggregateMode::FinalPartitioned,
            _ => AggregateMode::Other,
        }
    }
}

// The joins whose right side keeps what it is asked: its columns stand behind the left ones, or it has them alone.
#[derive(Clone, Copy, PartialEq, Eq, Debug)]
pub enum Join {
    Inner,
    Right,
    RightSemi,
    RightAnti,
    RightMark,
    Other,
}

impl Join {
    // How many codes there are, from 0 on.
    pub const CODES: u64 = 10;
}

impl From<u64> for Join {
    ghost from_gives = { λ code r. r ≡ join_of code };

    fn from(code: u64) -> Join {
        match code {
            0 => Join::Inner,
            2 => Join::Right,
            5 => Join::RightSemi,
            7 => Join::RightAnti,
            9 => Join::RightMark,
            _ => Join::Other,
        }
    }
}
