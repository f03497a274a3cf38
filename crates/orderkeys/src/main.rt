// Decides the sheet on standard input: the answer goes to standard output, or `e,number,line`. It reads at most 1 MiB.
#![tactic(auto)]

use input::{answered, buffer, front, read_full};
use std::io;

fn main(rt: HostRuntime) -> io::Result<()> {
    let mut input = buffer::<1048576>();
    let mut output = buffer::<65536>();
    let n = read_full(&mut rt.stdin(), &mut input)?;
    let word = lochkave::lochkave_decide(&input[..n], &mut output);
    match answered(word) {
        Ok(n) => rt.write_all(front(&output, n)),
        Err(refused) => println!(rt; "{refused}"),
    }
}
