// Expressions: kind, name and index packed in one number, so that two are equal exactly where their numbers are.
ghost use Rattle.std.specs.Prelude.{◌≡◌, ◌<◌};
ghost use Rattle.keys.specs.Expressions.{packed, expression};

// The kinds, numbers since expressions are lent packed.
pub const COLUMN: u64 = 0;

pub const OTHER: u64 = 1;

pub const PLACEHOLDER: u64 = 2;

// The placeholder with nothing behind it, packed.
pub const GONE: u64 = 8589934592;

#[derive(Clone, Copy, PartialEq, Eq, Debug)]
pub struct Expr {
    pub number: u64,
}

impl Expr {
    pub fn pack(kind: u64, name: u64, index: u64) -> Expr
        requires { (kind < 65536) × (name < 65536) × (index < 65536) }
        ensures { result.number ≡ packed kind name index }
    {
        Expr {
            number: kind * 4294967296 + (name * 65536 + index),
        }
    }

    pub fn kind(self) -> u64
        ensures { result ≡ (expression self.number).kind }
    {
        self.number / 4294967296
    }

    pub fn name(self) -> u64
        ensures { result ≡ (expression self.number).name }
    {
        self.number / 65536 % 65536
    }

    pub fn index(self) -> u64
        ensures { result ≡ (expression self.number).index }
    {
        self.number % 65536
    }
}
