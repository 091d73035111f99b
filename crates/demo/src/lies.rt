// Five stores that lie about the night's archive.
use crate::asking::{IMAGE, PROOF, asked, delete, front, judged, proved, read};
use crate::night::late_block;
use crate::words::lie;
use commands::Metadata;
use std::io;

// Each lie is one call of `lie`: its words, and what is asked.

// It files the late block at the end, under its time of arrival.
fn files_at_the_end(rt: &impl Print, m: Metadata, before: &[u8; IMAGE]) -> io::Result<()> {
    let mut image = *before;
    store::apply(&mut image, late_block(4, 1));
    lie(
        rt,
        "It files the late block at the end. The gateway reads position 3",
        asked(m, read(3), &image, 3),
        "that archive is not the one whose label the gateway holds",
    )
}

fn answers_for_another(rt: &impl Print, m: Metadata, image: &[u8]) -> io::Result<()> {
    lie(
        rt,
        "Asked for position 3, it proves position 2",
        asked(m, read(3), image, 2),
        "a good proof, of another place",
    )
}

fn hands_back_an_old_proof(rt: &impl Print, m: Metadata, before: &[u8]) -> io::Result<()> {
    lie(
        rt,
        "It hands back the proof of position 3 from before the late block",
        asked(m, read(3), before, 3),
        "it counts four blocks, and the gateway five",
    )
}

// Turns one bit of the byte at a place.
pub fn flip(proof: &mut [u8], at: usize) {
    if let Some(b) = proof.get_mut(at) {
        *b ^= 1;
    }
}

fn flips_a_bit(rt: &impl Print, m: Metadata, image: &[u8]) -> io::Result<()> {
    let mut proof = [0u8; PROOF];
    let n = proved(image, 3, &mut proof).len();
    if n < 77 {
        return Ok(());
    }
    flip(&mut proof, n - 60);
    lie(
        rt,
        "It flips one bit of the tag in its proof of position 3",
        judged(m, read(3), front(&proof, n)),
        "the label worked out from the proof is not the one held",
    )
}

// What the gateway holds after Delete 2.
// The call refuses nothing here, so its metadata is the new one.
fn deletion(m: Metadata, image: &[u8]) -> Metadata {
    let mut first = [0u8; PROOF];
    let mut second = [0u8; PROOF];
    let left = proved(image, 1, &mut first);
    let own = proved(image, 2, &mut second);
    gateway::check(m, delete(2), left, own).metadata
}

fn deletes_the_wrong_block(rt: &impl Print, m: Metadata, honest: &[u8; IMAGE]) -> io::Result<()> {
    let next = deletion(m, honest);
    let mut image = *honest;
    store::apply(&mut image, delete(3));
    lie(
        rt,
        "Told to delete the block at position 2, it deletes the one at position 3. The gateway reads position 2",
        asked(next, read(2), &image, 2),
        "the gateway worked out the label after the deletion by itself",
    )
}

pub fn told(
    rt: &impl Print,
    m: Metadata,
    image: &[u8; IMAGE],
    before: &[u8; IMAGE],
) -> io::Result<()> {
    println!(rt; "\nStores that lie:")?;
    files_at_the_end(rt, m, before)?;
    answers_for_another(rt, m, image)?;
    hands_back_an_old_proof(rt, m, before)?;
    flips_a_bit(rt, m, image)?;
    deletes_the_wrong_block(rt, m, image)
}
