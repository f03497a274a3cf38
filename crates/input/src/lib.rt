// What the programs share: how they read their input, the rooms that they lend, and what an entry point's answer says.
#![tactic(auto)]

ghost use Rattle.std.specs.Prelude.{◌≡◌, ◌≤◌, ◌<◌, ◌/◌, ◌%◌, IfOk, length, replicate, take};
ghost use Rattle.std.specs.Io.KnownBytes.{Consumes, IsAtEnd};

use std::io::Read;
use std::{fmt, io};

// A room of zeros.
pub fn buffer<const N: usize>() -> [u8; N]
    ensures { result ≡ replicate N 0 }
{
    [0; N]
}

// Reads until the room is full or the input ends: how many bytes stand at the room's front.
pub fn read_full<R: Read>(input: &mut R, room: &mut [u8]) -> io::Result<usize>
    ensures within { IfOk result (λ n. n ≤ length room.new) }
    ensures bytes { IfOk result (λ n. Consumes (R.remaining input.old) (R.remaining input.new) (take n room.new)) }
    ensures whole { IfOk result (λ n. n < length room.new → IsAtEnd (R.remaining input.new)) }
{
    let mut done: usize = 0;
    // A read takes as many bytes as it gets.
    while done < room.len() {
        let n = input.read(&mut room[done..])?;
        if n == 0 {
            return Ok(done);
        }
        done += n;
    }
    Ok(done)
}

// A refusal by its number, and its line: a word that C could have handed over holds any number, and this crate sees no other.
#[derive(Clone, Copy, Debug, PartialEq, Eq)]
pub struct Refused {
    pub number: u64,
    pub line: u64,
}

impl fmt::Display for Refused {
    fn fmt<W: fmt::Write>(&self, f: &mut fmt::Formatter<W>) -> fmt::Result {
        write!(f, "e,{},{}", self.number, self.line)
    }
}

// What the word says that an entry point answers: how many bytes were written, or the refusal.
pub fn answered(word: u64) -> Result<usize, Refused>
    ensures written { word < 4294967296 → result ≡ Ok word }
    ensures refused { 4294967296 ≤ word → result ≡ Err (record { number = word / 4294967296; line = word % 4294967296 }) }
{
    if word < 0x1_0000_0000 {
        // No From goes between u64 and usize.
        Ok(word as usize)
    } else {
        Err(Refused {
            number: word / 0x1_0000_0000,
            line: word % 0x1_0000_0000,
        })
    }
}

// The first n bytes of a room, or all of it where it has fewer.
pub fn front(room: &[u8], n: usize) -> &[u8]
    ensures { result.now ≡ take n room.now }
{
    if n < room.len() { &room[..n] } else { room }
}
