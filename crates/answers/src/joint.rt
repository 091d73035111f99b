// The calls with one joint proof of several positions.
use crate::calls::UNTOUCHED;
use crate::fields::{Fields, blank, send};
use crate::request::{Fault, MOST_POSITIONS, Request};

const MOST_JOINT_BUFFER: usize = 262144;

// A joint proof in a buffer, and all of the buffer after it.
pub fn call_prove_joint(rt: &impl Print, mut r: Request) -> Result<(), Fault> {
    let mut told = [0u64; MOST_POSITIONS];
    let ps = r.positions(&mut told)?;
    let place = r.number()?;
    let mut room = [UNTOUCHED; MOST_JOINT_BUFFER];
    let buffer = r.part_of(&mut room)?;
    let p = jointstore::prove(r.rest(), ps, buffer, place);
    let f = Fields {
        length: p.length,
        entries: p.entries,
        ..blank(p.verdict)
    };
    send(rt, f, buffer)
}

// The tags that a joint proof gave, 32 bytes each.
pub fn call_gateway_joint(rt: &impl Print, mut r: Request) -> Result<(), Fault> {
    let held = r.metadata()?;
    let mut told = [0u64; MOST_POSITIONS];
    let ps = r.positions(&mut told)?;
    let a = jointgateway::check(held, ps, r.rest());
    let f = Fields {
        metadata: a.metadata,
        ..blank(a.verdict)
    };
    let number = a.number.min(32) as usize;
    send(rt, f, &a.tags[..32 * number])
}
