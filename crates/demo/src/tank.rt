// A tank's archive as its two sides keep it, and a block filed there by its time.
use crate::asking::{IMAGE, PROOF, empty_archive, held, insert, proved};
use commands::Metadata;
use filer::Filing;
use gateway::Answer;
use std::mem;

// Blocks that the store has room for, and bytes of a block's readings.
const ROOM: usize = 16;

pub const READINGS: usize = 12;

// What the gateway holds; the store's image and, in the same order, every block's time and readings. The times stand by themselves, since
// a place is looked for in times alone.
#[derive(Clone, Copy)]
pub struct Tank {
    pub held: Metadata,
    pub image: [u8; IMAGE],
    pub when: [u32; ROOM],
    pub kept: [[u8; READINGS]; ROOM],
}

pub fn after(p: u64) -> u64 {
    p.wrapping_add(1)
}

// What stands at a position, from 1 on.
fn at<T>(all: &[T], p: u64) -> Option<&T> {
    all.get((p as usize).checked_sub(1)?)
}

// Put in so that p stand before it; those after it move on by one, and the last falls out.
fn put_after<T: Drop>(all: &mut [T], p: u64, new: T) {
    let mut moved = new;
    for place in all.iter_mut().skip(p as usize) {
        mem::swap(place, &mut moved);
    }
}

impl Tank {
    pub fn new() -> Tank {
        let image = empty_archive();
        Tank {
            held: held(&image),
            image,
            when: [0u32; ROOM],
            kept: [[0u8; READINGS]; ROOM],
        }
    }

    // The store's time of the block at a position; 0 where there is none.
    pub fn time_at(&self, p: u64) -> u32 {
        at(&self.when, p).copied().unwrap_or(0)
    }

    // The readings of that block; none where there is no such position.
    pub fn block_at(&self, p: u64) -> &[u8] {
        match at(&self.kept, p) {
            Some(readings) => readings,
            None => b"",
        }
    }

    // The store finds the place for a time in its own times, as many as it has blocks.
    fn place(&self, time: u32) -> u64 {
        let own = held(&self.image);
        self.when
            .get(..own.count as usize)
            .map_or(0, |ts| times::place(ts, time))
    }

    // A block's filing after p. The height is drawn on the gateway's side; the times beside the place are the store's.
    pub fn proposed(&self, p: u64, time: u32, coin: u16) -> Filing {
        Filing {
            position: p,
            height: labels::height(coin),
            time,
            left: self.time_at(p),
            right: self.time_at(after(p)),
        }
    }

    // What the store proposes for a block of this time.
    pub fn found(&self, time: u32, coin: u16) -> Filing {
        self.proposed(self.place(time), time, coin)
    }

    // The filer's answer, with the blocks that the store shows for p and p + 1 and its proofs of both positions.
    pub fn decided(&self, f: Filing, readings: &[u8], left: &[u8], right: &[u8]) -> Answer {
        let mut first = [0u8; PROOF];
        let mut second = [0u8; PROOF];
        let before = proved(&self.image, f.position, &mut first);
        let behind = proved(&self.image, after(f.position), &mut second);
        filer::file(self.held, f, readings, left, right, before, behind)
    }

    // The same with the blocks that do stand there.
    pub fn decided_honestly(&self, f: Filing, readings: &[u8]) -> Answer {
        let left = self.block_at(f.position);
        let right = self.block_at(after(f.position));
        self.decided(f, readings, left, right)
    }

    // The filer has accepted: the gateway holds what was predicted, and the store applies.
    pub fn apply(&mut self, f: Filing, readings: [u8; READINGS], next: Metadata) {
        let k = insert(f.position, f.height, f.time, &readings);
        store::apply(&mut self.image, k);
        put_after(&mut self.when, f.position, f.time);
        put_after(&mut self.kept, f.position, readings);
        self.held = next;
    }
}
