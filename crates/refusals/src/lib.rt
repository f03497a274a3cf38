// Why a sheet is turned back, and on which line.
#![tactic(auto)]

ghost use Rattle.std.specs.Prelude.{◌≡◌, ◌+◌, ◌*◌, ◌^◌, ◌<◌, IfErr};
ghost use Rattle.refusals.specs.Refusals.{refusal_number, refused_word, written_word};

// The refusals, by their numbers 1 to 12.
#[derive(Clone, Copy, Debug, PartialEq, Eq)]
pub enum Refusal {
    WrongLine,
    MalformedField,
    BeyondSize,
    UndefinedCode,
    UnfitLists,
    UnfitChildren,
    SettingsOutOfRange,
    UnfitFacts,
    MissingRow,
    NameNotFound,
    Unenforceable,
    OutputTooShort,
}

impl From<Refusal> for u64 {
    ghost from_gives = { λ refusal number. number ≡ refusal_number refusal };

    fn from(refusal: Refusal) -> u64 {
        match refusal {
            Refusal::WrongLine => 1,
            Refusal::MalformedField => 2,
            Refusal::BeyondSize => 3,
            Refusal::UndefinedCode => 4,
            Refusal::UnfitLists => 5,
            Refusal::UnfitChildren => 6,
            Refusal::SettingsOutOfRange => 7,
            Refusal::UnfitFacts => 8,
            Refusal::MissingRow => 9,
            Refusal::NameNotFound => 10,
            Refusal::Unenforceable => 11,
            Refusal::OutputTooShort => 12,
        }
    }
}

impl Refusal {
    // The refusal on a line; on line 0 where it is of the whole sheet.
    pub fn on_line(self, line: u64) -> Refused
        ensures { result ≡ record { refusal = self; line = line } }
    {
        Refused {
            refusal: self,
            line,
        }
    }
}

// A refusal, and the line that it is of.
#[derive(Clone, Copy, Debug, PartialEq, Eq)]
pub struct Refused {
    pub refusal: Refusal,
    pub line: u64,
}

impl Refused {
    // The word that an entry point answers: the refusal's number × 2^32 + the line.
    pub fn word(self) -> u64
        requires { self.line < 2 ^ 32 }
        ensures { result ≡ refused_word self }
    {
        u64::from(self.refusal) * 0x1_0000_0000 + self.line
    }
}

// What an entry point answers: how many bytes were written, or the refusal's word.
pub fn word(written: Result<usize, Refused>) -> u64
    requires { IfErr written (λ refused. refused.line < 2 ^ 32) }
    ensures { result ≡ written_word written }
{
    match written {
        // No From goes from usize to u64.
        Ok(bytes) => bytes as u64,
        Err(refused) => refused.word(),
    }
}
