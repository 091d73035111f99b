// The calls that file a block by its time.
use crate::calls::send_answer;
use crate::fields::{Fields, blank, send};
use crate::request::{Fault, Request};
use filer::Filing;

// As many times as a frame can hold.
const MOST_TIMES: usize = 50000;

// Place and height, the three blocks, the first proof with its length, the second proof.
pub fn call_file(rt: &impl Print, mut r: Request) -> Result<(), Fault> {
    let held = r.metadata()?;
    let position = r.number()?;
    let height = r.byte()?;
    let (time, new) = r.block()?;
    let (left_time, left) = r.block()?;
    let (right_time, right) = r.block()?;
    let first = r.with_length()?;
    let f = Filing {
        position,
        height,
        time,
        left: left_time,
        right: right_time,
    };
    send_answer(rt, filer::file(held, f, new, left, right, first, r.rest()))
}

// The place for the new time among the times before it.
pub fn call_place(rt: &impl Print, mut r: Request) -> Result<(), Fault> {
    let mut room = [0u32; MOST_TIMES];
    let times = r.times(&mut room)?;
    let new = r.time()?;
    let f = Fields {
        count: times::place(times, new),
        ..blank(Ok(()))
    };
    send(rt, f, b"")
}
