// *Tree in force* on many pairs of plans: standard input is pairs one after the other, each two words, low byte first, with the
// numbers of bytes of the old and of the new plan, and these bytes. Prints a line for each: `stretch`, and the helpands of the
// stretch that it hands back.
#![tactic(auto)]

use std::io;
use std::io::{ErrorKind, Read};
use text::put::{BLANK, Writer};

// The bytes of the longest plan.
const MOST: usize = 524;

// Prints a blank and a helpand.
fn print_helpand(rt: &impl Print, helpand: u32) -> io::Result<()> {
    let mut text = [0u8; 16];
    let mut w = Writer::new(&mut text);
    w.byte(BLANK);
    w.number(helpand);
    rt.write_all(w.written())
}

// Prints the line of a stretch of helpands.
fn print_stretch(rt: &impl Print, stretch: &[u8]) -> io::Result<()> {
    rt.write_all(b"stretch")?;
    for k in 0..stretch.len() / 4 {
        print_helpand(rt, words::word_number(stretch, k))?;
    }
    rt.write_all(b"\n")
}

// Prints the line of two plans. The stretch is a part of one of them, so that both are lent for as long.
fn print_pair<'a>(rt: &impl Print, old: &'a [u8], new: &'a [u8]) -> io::Result<()> {
    let stretch = in_force::tree_in_force(old, new);
    print_stretch(rt, stretch)
}

// Fills the bytes; answers whether all of them were there.
fn fill(input: &mut impl Read, bytes: &mut [u8]) -> io::Result<bool> {
    match input.read_exact(bytes) {
        Ok(()) => Ok(true),
        Err(e) if e.kind() == ErrorKind::UnexpectedEof => Ok(false),
        Err(e) => Err(e),
    }
}

// Fills the two plans and prints their line; answers whether all their bytes were there.
fn read_pair(
    rt: &impl Print,
    input: &mut impl Read,
    old: &mut [u8],
    new: &mut [u8],
) -> io::Result<bool> {
    if !fill(input, old)? {
        return Ok(false);
    }
    if !fill(input, new)? {
        return Ok(false);
    }
    print_pair(rt, old, new)?;
    Ok(true)
}

// Reads a pair and prints its line; answers whether there may be another. A longer plan than any that can be accepted ends the run.
fn next_pair(rt: &impl Print, input: &mut impl Read) -> io::Result<bool> {
    let mut head = [0u8; 8];
    if !fill(input, &mut head)? {
        return Ok(false);
    }
    let old_size = words::word_number(&head, 0) as usize;
    let new_size = words::word_number(&head, 1) as usize;
    if old_size > MOST {
        return Ok(false);
    }
    if new_size > MOST {
        return Ok(false);
    }
    let mut old = [0u8; MOST];
    let mut new = [0u8; MOST];
    read_pair(rt, input, &mut old[..old_size], &mut new[..new_size])
}

// A proved loop has to end, and nothing says that an input does: the turns are bounded by a number that no run uses up.
fn main(rt: HostRuntime) -> io::Result<()> {
    let mut input = rt.stdin();
    for _ in 0..u64::MAX {
        if !next_pair(&rt, &mut input)? {
            break;
        }
    }
    Ok(())
}
