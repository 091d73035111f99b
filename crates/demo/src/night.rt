// The night: its blocks, the late one, and the same one sent a second time.
use crate::asking::{HOUR, MIDNIGHT, PROOF, asked, held, insert};
use crate::words::{say_agrees, say_metadata, say_verdict};
use commands::{Command, Metadata};
use refusals::Verdict;
use std::io;

// One honest filing: the store proves the place, the gateway checks and predicts, the store applies. Answers what the gateway then
// holds. The metadata is the gateway's and the image the store's, so no value holds both.
pub fn filed(
    rt: &impl Print,
    m: Metadata,
    image: &mut [u8],
    name: &str,
    k: Command,
) -> io::Result<Metadata> {
    let a = asked(m, k, image, k.position);
    let v = a.verdict;
    if !v.is_ok() {
        say_verdict(rt, v)?;
        println!(rt)?;
        return Ok(m);
    }
    store::apply(image, k);
    let next = a.metadata;
    print!(rt; "  {name} filed after position {}: ", k.position)?;
    say_metadata(rt, next)?;
    println!(rt)?;
    Ok(next)
}

// The night so far: the radio was out at 02:00.
pub fn told(rt: &impl Print, image: &mut [u8]) -> io::Result<Metadata> {
    println!(rt; "The store keeps the blocks, the gateway a count and one root label.")?;
    let mut m = held(image);
    print!(rt; "  an empty archive: ")?;
    say_metadata(rt, m)?;
    println!(rt)?;
    let one = MIDNIGHT + HOUR;
    let three = MIDNIGHT + 3 * HOUR;
    let four = MIDNIGHT + 4 * HOUR;
    m = filed(
        rt,
        m,
        image,
        "00:00",
        insert(0, 0, MIDNIGHT, b"level 4.12 m"),
    )?;
    m = filed(rt, m, image, "01:00", insert(1, 2, one, b"level 4.15 m"))?;
    m = filed(rt, m, image, "03:00", insert(2, 0, three, b"level 4.31 m"))?;
    filed(rt, m, image, "04:00", insert(3, 1, four, b"level 4.42 m"))
}

fn say_proof(rt: &impl Print, image: &[u8], p: u64) -> io::Result<()> {
    let mut proof = [0u8; PROOF];
    let x = store::prove(image, p, &mut proof, 0);
    println!(rt;
        "  the store proves position {p}: {} entries, {} bytes",
        x.entries, x.length
    )
}

// The block that comes late, filed after a position.
pub fn late_block(position: u64, height: u8) -> Command {
    insert(position, height, MIDNIGHT + 2 * HOUR, b"level 4.22 m")
}

// The late block, filed in the middle.
pub fn late(rt: &impl Print, m: Metadata, image: &mut [u8]) -> io::Result<Metadata> {
    println!(rt;
        "\nThe radio was out at 02:00. At 05:00 the outstation dials in with that block; it belongs after position 2."
    )?;
    say_proof(rt, image, 2)?;
    let next = filed(rt, m, image, "02:00", late_block(2, 1))?;
    print!(rt; "  the store's image, checked afresh: ")?;
    say_agrees(rt, held(image), next, "the gateway predicted")?;
    Ok(next)
}

// A verdict, and what is held or found after it.
fn say_after(
    rt: &impl Print,
    v: Verdict,
    what: &str,
    seen: Metadata,
    before: Metadata,
) -> io::Result<()> {
    say_verdict(rt, v)?;
    print!(rt; "\n  {what}: ")?;
    say_agrees(rt, seen, before, "before")
}

// The late block comes a second time, and neither the gateway nor the store files it after its first copy.
pub fn sent_again(rt: &impl Print, m: Metadata, image: &mut [u8]) -> io::Result<()> {
    println!(rt;
        "\nThe acknowledgement of that block was lost, and it is sent again; it belongs right after its first copy, which stands at position 3."
    )?;
    let k = late_block(3, 0);
    let a = asked(m, k, image, 3);
    println!(rt; "  The gateway is asked to file it after position 3:")?;
    say_after(rt, a.verdict, "the gateway holds", a.metadata, m)?;
    let told = store::apply(image, k);
    println!(rt; "  The store is told to file it there all the same:")?;
    say_after(
        rt,
        told.verdict,
        "the store's image, checked afresh",
        held(image),
        m,
    )
}
