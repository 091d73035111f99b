// The store's joint proof: one reply for a set of positions. Every refusal is settled before a byte is written.
#![tactic(auto)]

ghost use Rattle.jointstore.specs.Pledges.{Proves};

use archive::Image;
use store::Proved;

mod path;
mod plan;

// The joint proof of the positions, from a place of the buffer on: its length, or 1, 13, 2, 6, 5.
pub fn prove(image: &[u8], positions: &[u64], buffer: &mut [u8], place: u64) -> Proved
    ensures { Proves image.now positions.now buffer.old place result
        buffer.new }
{
    let t = plan::joint(image, positions, buffer.len() as u64, place);
    if t.verdict.is_ok() {
        path::put_joint(
            Image::known(image),
            positions,
            buffer,
            place as usize,
            t.length,
        );
    }
    t
}
