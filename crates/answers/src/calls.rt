// The calls with one digest, one image or one command, and which call a frame asks for.
use crate::fields::{Fields, blank, send};
use crate::filing::{call_file, call_place};
use crate::joint::{call_gateway_joint, call_prove_joint};
use crate::request::{Fault, Request};

const MOST_BUFFER: usize = 16384;

pub const UNTOUCHED: u8 = 0xA5;

// Each call fills the fields that it speaks of. Calls that look alike differ in the call and in its answer's type.

fn call_digest(rt: &impl Print, r: Request) -> Result<(), Fault> {
    let d = sha256::digest(r.rest());
    // Named first: a literal takes no array straight from another value's field.
    let tag = d.bytes;
    let f = Fields {
        tag,
        ..blank(d.verdict)
    };
    send(rt, f, b"")
}

fn call_match(rt: &impl Print, mut r: Request) -> Result<(), Fault> {
    let tag = r.digest()?;
    let time = r.time()?;
    let m = labels::matches(tag, time, r.rest());
    let f = Fields {
        yes: m.yes,
        ..blank(m.verdict)
    };
    send(rt, f, b"")
}

fn call_tag(rt: &impl Print, mut r: Request) -> Result<(), Fault> {
    let time = r.time()?;
    let t = labels::tag(time, r.rest());
    // Named first: a literal takes no array straight from another value's field.
    let tag = t.tag;
    let f = Fields {
        tag,
        ..blank(t.verdict)
    };
    send(rt, f, b"")
}

fn call_height(rt: &impl Print, mut r: Request) -> Result<(), Fault> {
    let f = Fields {
        count: labels::height(r.word()?) as u64,
        ..blank(Ok(()))
    };
    send(rt, f, b"")
}

fn call_save(rt: &impl Print, mut r: Request) -> Result<(), Fault> {
    let metadata = r.metadata()?;
    let s = gateway::saved::save(metadata);
    let f = Fields {
        metadata,
        ..blank(s.verdict)
    };
    send(rt, f, &s.bytes)
}

fn call_load(rt: &impl Print, r: Request) -> Result<(), Fault> {
    let l = gateway::saved::load(r.rest());
    let f = Fields {
        metadata: l.metadata,
        ..blank(l.verdict)
    };
    send(rt, f, b"")
}

fn call_check(rt: &impl Print, r: Request) -> Result<(), Fault> {
    let c = store::check(r.rest());
    let f = Fields {
        metadata: c.metadata,
        ..blank(c.verdict)
    };
    send(rt, f, b"")
}

// A proof in a buffer, and all of the buffer after it.
fn call_prove(rt: &impl Print, mut r: Request) -> Result<(), Fault> {
    let position = r.number()?;
    let place = r.number()?;
    let mut room = [UNTOUCHED; MOST_BUFFER];
    let buffer = r.part_of(&mut room)?;
    let p = store::prove(r.rest(), position, buffer, place);
    let f = Fields {
        length: p.length,
        entries: p.entries,
        ..blank(p.verdict)
    };
    send(rt, f, buffer)
}

// The image is edited in place, so the command in front of it is read by itself.
fn call_apply(rt: &impl Print, fields: &mut [u8]) -> Result<(), Fault> {
    let Some((head, image)) = fields.split_first_chunk_mut::<38>() else {
        return Err(Fault::BadFrame);
    };
    let k = Request::new(head).command()?;
    let a = store::apply(image, k);
    let f = Fields {
        count: a.count,
        ..blank(a.verdict)
    };
    send(rt, f, image)
}

// The gateway's answer to a command or a filing.
pub fn send_answer(rt: &impl Print, a: gateway::Answer) -> Result<(), Fault> {
    // Named first: a literal takes no array straight from another value's field.
    let tag = a.tag;
    let f = Fields {
        tag,
        metadata: a.metadata,
        ..blank(a.verdict)
    };
    send(rt, f, b"")
}

fn call_gateway(rt: &impl Print, mut r: Request) -> Result<(), Fault> {
    let held = r.metadata()?;
    let k = r.command()?;
    let first = r.with_length()?;
    send_answer(rt, gateway::check(held, k, first, r.rest()))
}

// The call that a frame asks for, made and answered.
pub fn answer(rt: &impl Print, frame: &mut [u8]) -> Result<(), Fault> {
    let Some((call, fields)) = frame.split_first_mut() else {
        return Err(Fault::BadFrame);
    };
    // The byte is looked at here alone, so an enum of the calls would only name each a second time.
    match *call {
        1 => call_digest(rt, Request::new(fields)),
        2 => call_match(rt, Request::new(fields)),
        3 => call_height(rt, Request::new(fields)),
        4 => call_save(rt, Request::new(fields)),
        5 => call_load(rt, Request::new(fields)),
        6 => call_check(rt, Request::new(fields)),
        7 => call_prove(rt, Request::new(fields)),
        8 => call_apply(rt, fields),
        9 => call_gateway(rt, Request::new(fields)),
        10 => call_tag(rt, Request::new(fields)),
        11 => call_prove_joint(rt, Request::new(fields)),
        12 => call_gateway_joint(rt, Request::new(fields)),
        13 => call_file(rt, Request::new(fields)),
        14 => call_place(rt, Request::new(fields)),
        _ => Err(Fault::BadFrame),
    }
}
