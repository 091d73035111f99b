// The morning check: three more blocks on time, and all eight positions in one reply.
use crate::asking::{HOUR, MIDNIGHT, PROOF, front, insert, proved};
use crate::lies::flip;
use crate::night::{filed, late_block};
use crate::words::say_verdict;
use commands::Metadata;
use refusals::Verdict;
use std::io;

const JOINT: usize = 2048;

const POSITIONS: [u64; 8] = [1, 2, 3, 4, 5, 6, 7, 8];

fn on_time(rt: &impl Print, m: Metadata, image: &mut [u8]) -> io::Result<Metadata> {
    let hour = MIDNIGHT + 5 * HOUR;
    let third = HOUR / 3;
    let mut next = filed(rt, m, image, "05:00", insert(5, 0, hour, b"level 4.51 m"))?;
    next = filed(
        rt,
        next,
        image,
        "05:20",
        insert(6, 1, hour + third, b"level 4.53 m"),
    )?;
    filed(
        rt,
        next,
        image,
        "05:40",
        insert(7, 0, hour + 2 * third, b"level 4.56 m"),
    )
}

// The bytes of a proof for each position.
fn singles(image: &[u8], positions: &[u64]) -> u64 {
    let mut sum = 0u64;
    for p in positions {
        let mut proof = [0u8; PROOF];
        sum = sum.wrapping_add(proved(image, *p, &mut proof).len() as u64);
    }
    sum
}

// The store's proof of all positions at once, in the front of `room`.
// As `proved`, by another call and for a list of positions.
fn proved_jointly<'a>(image: &[u8], positions: &[u64], room: &'a mut [u8]) -> &'a [u8] {
    let p = jointstore::prove(image, positions, room, 0);
    front(room, p.length as usize)
}

fn reads_all(rt: &impl Print, m: Metadata, proof: &[u8]) -> io::Result<()> {
    let a = jointgateway::check(m, &POSITIONS, proof);
    println!(rt; "  The gateway checks the joint proof:")?;
    say_verdict(rt, a.verdict)?;
    print!(rt; ", {} tags", a.number)?;
    let late = late_block(2, 1);
    if octets::bytes_at(&a.tags, 64) == late.tag {
        print!(rt; ", the third that of the late block")?;
    }
    println!(rt)
}

// The place of the proof that a joint proof is refused for.
// A function and no Display: a verdict is another crate's.
fn say_place(rt: &impl Print, v: Verdict) -> io::Result<()> {
    match v {
        Ok(()) => Ok(()),
        Err(r) => print!(rt; " at place {}", refusals::proof(r)),
    }
}

// One bit of the tag at position 5, turned in the joint proof of all eight. The proof of the first five ends with that tag's stop, which
// tells where it is.
fn changes_a_byte(rt: &impl Print, m: Metadata, image: &[u8]) -> io::Result<()> {
    let mut room = [0u8; JOINT];
    let end = proved_jointly(image, &POSITIONS[0..5], &mut room).len();
    if end < 74 {
        return Ok(());
    }
    let n = proved_jointly(image, &POSITIONS, &mut room).len();
    flip(&mut room, end - 60);
    let a = jointgateway::check(m, &POSITIONS, front(&room, n));
    println!(rt; "  The store changes one byte of it, in the tag at position 5:")?;
    say_verdict(rt, a.verdict)?;
    say_place(rt, a.verdict)?;
    println!(rt; ": the four before it are good, and no tag is reported.")
}

pub fn told(rt: &impl Print, m: Metadata, image: &mut [u8]) -> io::Result<()> {
    println!(rt;
        "\nThe morning check. Three more blocks come in on time, and at six the gateway reads all eight positions."
    )?;
    let held = on_time(rt, m, image)?;
    let mut room = [0u8; JOINT];
    let proof = proved_jointly(image, &POSITIONS, &mut room);
    let bytes = singles(image, &POSITIONS);
    println!(rt;
        "  a proof for each position: {bytes} bytes; one joint proof: {} bytes",
        proof.len()
    )?;
    reads_all(rt, held, proof)?;
    changes_a_byte(rt, held, image)
}
