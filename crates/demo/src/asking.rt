// What all parts of the story ask of store and gateway.
use commands::{Command, Metadata, Operation};
use gateway::Answer;

pub const IMAGE: usize = 512;

pub const PROOF: usize = 1024;

// Sample times, in seconds: the night's midnight and an hour.
pub const MIDNIGHT: u32 = 1_794_700_800;

pub const HOUR: u32 = 3_600;

// The calls here refuse nothing in this story; a refusal would give zeros.

pub fn tag_of(time: u32, readings: &[u8]) -> [u8; 32] {
    labels::tag(time, readings).tag
}

pub fn read(position: u64) -> Command {
    Command {
        operation: Operation::Read,
        position,
        height: 0,
        tag: [0u8; 32],
    }
}

pub fn delete(position: u64) -> Command {
    Command {
        operation: Operation::Delete,
        ..read(position)
    }
}

// The block of a time and its readings, filed after a position.
pub fn insert(position: u64, height: u8, time: u32, readings: &[u8]) -> Command {
    let tag = tag_of(time, readings);
    Command {
        operation: Operation::Insert,
        position,
        height,
        tag,
    }
}

// The first n bytes of a buffer, as the store wrote them; empty where it is shorter.
pub fn front(buffer: &[u8], n: usize) -> &[u8] {
    buffer.get(..n).unwrap_or(b"")
}

// The gateway's answer to a command with one proof.
pub fn judged(m: Metadata, k: Command, proof: &[u8]) -> Answer {
    gateway::check(m, k, proof, b"")
}

// The store's proof of position `shown`, in the front of `room`.
pub fn proved<'a>(image: &[u8], shown: u64, room: &'a mut [u8]) -> &'a [u8] {
    let p = store::prove(image, shown, room, 0);
    front(room, p.length as usize)
}

// The gateway's answer to a command with the store's proof of position `shown`.
pub fn asked(m: Metadata, k: Command, image: &[u8], shown: u64) -> Answer {
    let mut room = [0u8; PROOF];
    judged(m, k, proved(image, shown, &mut room))
}

// An archive of no block, at the start of a buffer.
pub fn empty_archive() -> [u8; IMAGE] {
    let mut image = [0u8; IMAGE];
    image[0] = 1;
    image[4] = 2;
    image
}

pub fn held(image: &[u8]) -> Metadata {
    store::check(image).metadata
}
