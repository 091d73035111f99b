// The shape printer: reads an image from standard input and prints a header and, for each block, its position, its height and the
// number of entries in the path to it.
#![tactic(auto)]

ghost use Rattle.std.specs.Prelude.{◌≤◌, IfOk, length};

use refusals::Refusal;
use std::io::{self, ErrorKind, Read};

const MOST_INPUT: usize = 65536;
// One byte more than the most is read, so that longer input is seen.
const SPACE: usize = 65537;
// More blocks than an image of 65,536 bytes can have, which is 1,985.
const MOST_BLOCKS: usize = 2048;

fn refused(rt: &impl Print, r: Refusal) -> io::Result<()> {
    println!(rt; "refused {}", u8::from(r))
}

fn print_shape(rt: &impl Print, image: &[u8], entries: &[u64], blocks: u64) -> io::Result<()> {
    println!(rt; "blocks {blocks}")?;
    for (position, n) in (1..=blocks).zip(entries) {
        println!(rt; "{position} {} {n}", shapes::height(image, position))?;
    }
    Ok(())
}

fn show(rt: &impl Print, image: &[u8]) -> io::Result<()> {
    let mut entries = [0u64; MOST_BLOCKS];
    let s = shapes::shape(image, &mut entries);
    match s.verdict {
        Ok(()) => print_shape(rt, image, &entries, s.blocks),
        Err(r) => refused(rt, r),
    }
}

// Fills the buffer, or stops where the input ends: how many bytes came. A read that a signal broke off is tried again.
// Read straight into the buffer: `io::copy` reads into one of its own, 8,192 bytes at a time.
fn fill<R: Read>(reader: &mut R, buffer: &mut [u8]) -> io::Result<usize>
    ensures { IfOk result (λ n. n ≤ length buffer.new) }
{
    let mut at = 0;
    for _ in 0..u64::MAX {
        if at >= buffer.len() {
            break;
        }
        match reader.read(&mut buffer[at..]) {
            Ok(0) => break,
            Ok(n) => at += n,
            Err(e) => {
                if e.kind() != ErrorKind::Interrupted {
                    return Err(e);
                }
            }
        }
    }
    Ok(at)
}

fn main(rt: HostRuntime) -> io::Result<()> {
    let mut input = [0; SPACE];
    let n = fill(&mut rt.reader(), &mut input)?;
    if MOST_INPUT < n {
        return refused(&rt, Refusal::NoRoom);
    }
    show(&rt, &input[..n])
}
