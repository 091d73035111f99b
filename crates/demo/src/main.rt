// A told story, all of it through the public calls: the archive of a night, a late block filed in its middle and sent a second time,
// five stores that lie, two nights with the same readings, the morning check in one reply, and a whole outage filed by its times. The
// gateway keeps only `Metadata`; image and proofs are in the store's hands.
#![tactic(auto)]

use crate::asking::empty_archive;
use crate::words::say_metadata;
use std::io;

mod asking;
mod idle;
mod lies;
mod morning;
mod night;
mod outage;
mod tank;
mod words;

fn main(rt: HostRuntime) -> io::Result<()> {
    let mut image = empty_archive();
    let before_late = night::told(&rt, &mut image)?;
    let before = image;
    let m = night::late(&rt, before_late, &mut image)?;
    night::sent_again(&rt, m, &mut image)?;
    lies::told(&rt, m, &image, &before)?;
    print!(rt; "\nEach was refused, and the gateway still holds ")?;
    say_metadata(&rt, m)?;
    println!(rt)?;
    idle::told(&rt)?;
    morning::told(&rt, m, &mut image)?;
    outage::told(&rt)
}
