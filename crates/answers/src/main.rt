// Calls in frames on standard input, answers in frames on standard output, so that any program can be compared with this one call
// by call. docs/TESTING.md has the frames. A bad frame ends the run with a line that says so; input that ends between frames ends
// it silently.
#![tactic(auto)]

ghost use Rattle.std.specs.Prelude.{◌≤◌, IfOk, length};

use crate::calls::answer;
use crate::request::Fault;
use std::io::{self, ErrorKind, Read};

mod calls;
mod fields;
mod filing;
mod joint;
mod request;

const MOST_FRAME: usize = 200000;

// Fills the buffer, or stops where the input ends: how many bytes came. A read that a signal broke off is tried again.
// Read straight into the buffer: `io::copy` reads into one of its own, 8,192 bytes at a time.
fn fill<R: Read>(reader: &mut R, buffer: &mut [u8]) -> io::Result<usize>
    ensures { IfOk result (λ n. n ≤ length buffer.new) }
{
    let mut at = 0;
    for _ in 0..u64::MAX {
        if at >= buffer.len() {
            break;
        }
        match reader.read(&mut buffer[at..]) {
            Ok(0) => break,
            Ok(n) => at += n,
            Err(e) => {
                if e.kind() != ErrorKind::Interrupted {
                    return Err(e);
                }
            }
        }
    }
    Ok(at)
}

// Reads one frame and answers it; false where the run is over.
fn turn<R: Read>(rt: &impl Print, reader: &mut R, space: &mut [u8]) -> Result<bool, Fault> {
    let mut size = [0; 4];
    match fill(reader, &mut size)? {
        0 => return Ok(false),
        4 => {}
        _ => return Err(Fault::BadFrame),
    }
    let size = u32::from_be_bytes(size) as usize;
    let Some(frame) = space.get_mut(..size) else {
        return Err(Fault::BadFrame);
    };
    if fill(reader, frame)? < size {
        return Err(Fault::BadFrame);
    }
    answer(rt, frame)?;
    Ok(true)
}

// A proved loop has to end, and nothing says that the input does: so the loop counts its turns, to a number that no run
// uses up.
fn turns<R: Read>(rt: &impl Print, reader: &mut R, space: &mut [u8]) -> Result<(), Fault> {
    for _ in 0..u64::MAX {
        if !turn(rt, reader, space)? {
            break;
        }
    }
    Ok(())
}

fn main(rt: HostRuntime) -> io::Result<()> {
    let mut space = [0; MOST_FRAME];
    match turns(&rt, &mut rt.reader(), &mut space) {
        Ok(()) => Ok(()),
        Err(Fault::BadFrame) => rt.write_all(b"bad frame\n"),
        Err(Fault::Io(e)) => Err(e),
    }
}
