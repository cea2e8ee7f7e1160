// The bench program run on many inputs: standard input is cases one after the other, each a word, low byte first, with the number of
// bytes that follow, and these bytes. Prints the text of each.
#![tactic(auto)]

use run::TEXT_SIZE;
use std::io;
use std::io::{ErrorKind, Read};

// The longest input that can be accepted: one byte less than the bench program keeps.
const MOST: usize = run::FRONT_SIZE - 1;

// Prints the text for this input.
fn print(rt: &impl Print, input: &[u8]) -> io::Result<()> {
    let mut text = [0u8; TEXT_SIZE];
    let size = run::run(input, &mut text);
    rt.write_all(&text[..size])
}

// Fills the bytes; answers whether all of them were there.
fn fill(input: &mut impl Read, bytes: &mut [u8]) -> io::Result<bool> {
    match input.read_exact(bytes) {
        Ok(()) => Ok(true),
        Err(e) if e.kind() == ErrorKind::UnexpectedEof => Ok(false),
        Err(e) => Err(e),
    }
}

// Fills a case and prints its text; answers whether all its bytes were there.
fn read_case(rt: &impl Print, input: &mut impl Read, case: &mut [u8]) -> io::Result<bool> {
    if !fill(input, case)? {
        return Ok(false);
    }
    print(rt, case)?;
    Ok(true)
}

// Reads a case and prints its text; answers whether there may be another. A longer case than any that can be accepted ends the run.
fn next_case(rt: &impl Print, input: &mut impl Read) -> io::Result<bool> {
    let mut head = [0u8; 4];
    if !fill(input, &mut head)? {
        return Ok(false);
    }
    let size = words::word_number(&head, 0) as usize;
    if size > MOST {
        return Ok(false);
    }
    let mut case = [0u8; MOST];
    read_case(rt, input, &mut case[..size])
}

// A proved loop has to end, and nothing says that an input does: the turns are bounded by a number that no run uses up.
fn main(rt: HostRuntime) -> io::Result<()> {
    let mut input = rt.stdin();
    for _ in 0..u64::MAX {
        if !next_case(&rt, &mut input)? {
            break;
        }
    }
    Ok(())
}
