// An answer's fields, and the answer sent: 87 bytes, then the lent bytes.
use crate::request::Fault;
use commands::Metadata;
use refusals::Verdict;

// A frame has every field, whatever the verdict; those that a call does not speak of are zero.
#[derive(Clone, Copy)]
pub struct Fields {
    pub verdict: Verdict,
    pub tag: [u8; 32],
    pub metadata: Metadata,
    pub length: u64,
    pub entries: u64,
    pub count: u64,
    pub yes: bool,
}

pub fn blank(verdict: Verdict) -> Fields {
    Fields {
        verdict,
        tag: [0u8; 32],
        metadata: Metadata {
            count: 0,
            label: [0u8; 32],
        },
        length: 0,
        entries: 0,
        count: 0,
        yes: false,
    }
}

// The answer's bytes in front of the lent bytes; the first four tell the length of the rest.
fn front(f: Fields, lent: usize) -> [u8; 87] {
    let mut d = [0u8; 87];
    octets::put_number::<4>(&mut d, 0, 83u64.wrapping_add(lent as u64));
    octets::put_number::<1>(&mut d, 4, refusals::verdict_number(f.verdict) as u64);
    let proof = f.verdict.err().map_or(0, refusals::proof);
    octets::put_number::<1>(&mut d, 5, proof as u64);
    octets::copy(&mut d, 6, &f.tag);
    octets::put_number::<4>(&mut d, 38, f.metadata.count);
    octets::copy(&mut d, 42, &f.metadata.label);
    octets::put_number::<4>(&mut d, 74, f.length);
    octets::put_number::<4>(&mut d, 78, f.entries);
    octets::put_number::<4>(&mut d, 82, f.count);
    octets::put_number::<1>(&mut d, 86, f.yes as u64);
    d
}

pub fn send(rt: &impl Print, f: Fields, lent: &[u8]) -> Result<(), Fault> {
    rt.write_all(&front(f, lent.len()))?;
    rt.write_all(lent)?;
    Ok(())
}
