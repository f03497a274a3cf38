// Replays the cases on standard input: for each its name, and the answer or `e,number,line`.
// A case is a line with its name, a line `entry,room,length` and a sheet of that many bytes. Where none follows, it writes `?` and ends.
#![tactic(auto)]

ghost use Rattle.std.specs.Prelude.{◌+◌, ◌<◌, ◌≤◌, IfSome, length};

use input::{answered, buffer, front, read_full};
use lochkave::rooms::{DST, FIELDS, INDEX, LISTS, MASKS, MID, ROWS, XS};
use std::io;

// What the room is filled with before a call; no answer has it.
const FILLED: u8 = 126;

// A case's number may have one digit more than this.
const LARGE: usize = 1048576;

// How many bytes the first line has, with its LF.
fn line_length(text: &[u8]) -> usize
    ensures { result ≤ length text.now }
{
    match text.iter().position(|b| *b == b'\n') {
        Some(n) => n + 1,
        None => text.len(),
    }
}

// The number at the front, and what follows the byte that ends it; nothing where it is too large.
fn number(text: &[u8]) -> Option<(usize, &[u8])>
    ensures { IfSome result (λ found. length found.1.now ≤ length text.now) }
{
    let mut value: usize = 0;
    for (i, b) in text.iter().enumerate() {
        if !b.is_ascii_digit() {
            return Some((value, &text[i + 1..]));
        }
        if value > LARGE {
            return None;
        }
        value = value * 10 + usize::from(*b - b'0');
    }
    Some((value, &text[text.len()..]))
}

// A sheet for an entry, and how many bytes of room there are for the answer.
#[derive(Clone, Copy)]
struct Case<'a> {
    entry: u8,
    room: usize,
    sheet: &'a [u8],
}

// The case whose line `entry,room,length` is at the front, and what follows it.
fn case_of(text: &[u8]) -> Option<(Case<'_>, &[u8])>
    ensures { IfSome result (λ found. length found.1.now < length text.now) }
{
    let (entry, after_entry) = text.split_first()?;
    let (room, after_room) = number(after_entry.get(1..)?)?;
    let (length, after_length) = number(after_room)?;
    let (sheet, rest) = after_length.split_at_checked(length)?;
    Some((
        Case {
            entry: *entry,
            room,
            sheet,
        },
        rest,
    ))
}

fn ask(case: Case<'_>, room: &mut [u8]) -> u64 {
    match case.entry {
        b'k' => lochkave::lochkave_adjust_input_keys_ordering(case.sheet, room),
        b'i' => lochkave::lochkave_reorder_join_keys_to_inputs(case.sheet, room),
        b'x' => lochkave::lochkave_ensure_distribution(case.sheet, room),
        b'w' => lochkave::lochkave_rewrite(case.sheet, room),
        _ => lochkave::lochkave_decide(case.sheet, room),
    }
}

// Decides in lent rooms, which hold sevens.
fn decide_lent(sheet: &[u8], out: &mut [u8]) -> u64 {
    let mut fields = [[7u64; 2]; FIELDS];
    let mut lists = [[7u64; 64]; LISTS];
    let mut rows = [[7u64; 11]; ROWS];
    let mut xs = [[7u64; 13]; XS];
    let mut mid = [[7u64; 11]; MID];
    let mut dst = [[7u64; 11]; DST];
    let mut masks = [7u64; MASKS];
    let mut index = [7u64; INDEX];
    lochkave::lochkave_decide_in(
        sheet,
        &mut fields,
        &mut lists,
        &mut rows,
        &mut xs,
        &mut mid,
        &mut dst,
        &mut masks,
        &mut index,
        out,
    )
}

// Whether a decision in lent rooms has the result, and leaves the same in its room.
fn lent_alike(sheet: &[u8], room: &[u8], word: u64) -> bool {
    let mut out = buffer::<65536>();
    let Some(other) = out.get_mut(..room.len()) else {
        return false;
    };
    other.fill(FILLED);
    decide_lent(sheet, &mut *other) == word && *room == *other
}

// The answer; `touched` where a byte of the room beyond it was changed, and `lent` where it is another in lent rooms, which are not clear.
fn replay(rt: &impl Print, case: Case<'_>, room: &mut [u8]) -> io::Result<()> {
    room.fill(FILLED);
    let word = ask(case, room);
    let answer = answered(word);
    match answer {
        Ok(n) => rt.write_all(front(room, n))?,
        Err(refused) => println!(rt; "{refused}")?,
    }
    let mut beyond = room.iter().skip(answer.unwrap_or(0));
    if !beyond.all(|b| *b == FILLED) {
        println!(rt; "touched")?;
    }
    if case.entry == b'd' && !lent_alike(case.sheet, room, word) {
        println!(rt; "lent")?;
    }
    Ok(())
}

// Every case of the text.
fn run(rt: &impl Print, text: &[u8], room: &mut [u8]) -> io::Result<()> {
    let mut rest = text;
    // A case takes as many bytes as it says.
    while !rest.is_empty() {
        let (head, after_head) = rest.split_at(line_length(rest));
        rt.write_all(head)?;
        let Some((case, after_case)) = case_of(after_head) else {
            return println!(rt; "?");
        };
        let Some(lent) = room.get_mut(..case.room) else {
            return println!(rt; "?");
        };
        replay(rt, case, lent)?;
        rest = after_case;
    }
    Ok(())
}

fn main(rt: HostRuntime) -> io::Result<()> {
    let mut input = buffer::<1048576>();
    let mut room = buffer::<65536>();
    let n = read_full(&mut rt.stdin(), &mut input)?;
    run(&rt, &input[..n], &mut room)
}
