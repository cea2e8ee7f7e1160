// The bench program, document 01: reads a sheet and an old plan or nothing from standard input, and prints the step.
#![tactic(auto)]

ghost use Rattle.std.specs.Prelude.{◌≤◌, IfOk, length};

use run::{FRONT_SIZE, TEXT_SIZE};
use std::io;
use std::io::Read;

// Prints the text for this input.
fn print(rt: &impl Print, input: &[u8]) -> io::Result<()> {
    let mut text = [0u8; TEXT_SIZE];
    let size = run::run(input, &mut text);
    rt.write_all(&text[..size])
}

// Reads until the bytes are full or the input ends, and answers how many of them were there.
fn read_full(input: &mut impl Read, bytes: &mut [u8]) -> io::Result<usize>
    ensures { IfOk result (λ n. n ≤ length bytes.new) }
{
    let mut done = 0;
    while done < bytes.len() {
        let n = input.read(&mut bytes[done..])?;
        if n == 0 {
            break;
        }
        done += n;
    }
    Ok(done)
}

// Reads some bytes and forgets them; answers whether there may be more.
fn skip_some(input: &mut impl Read) -> io::Result<bool> {
    let mut bytes = [0u8; 4096];
    Ok(input.read(&mut bytes)? > 0)
}

// Reads to the end of the input. A proved loop has to end, and nothing says that an input does: the turns are bounded by a number
// that no run uses up.
fn skip_all(input: &mut impl Read) -> io::Result<()> {
    for _ in 0..u64::MAX {
        if !skip_some(input)? {
            break;
        }
    }
    Ok(())
}

fn main(rt: HostRuntime) -> io::Result<()> {
    let mut stdin = rt.stdin();
    let mut input = run::input_front();
    let n = read_full(&mut stdin, &mut input)?;
    if n == FRONT_SIZE {
        skip_all(&mut stdin)?;
    }
    print(&rt, &input[..n])
}
