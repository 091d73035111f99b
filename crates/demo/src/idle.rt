// Two nights in which nothing happened. A tag of readings alone would be the same for both.
use crate::asking::{MIDNIGHT, asked, empty_archive, held, insert, read};
use crate::night::filed;
use crate::words::say_verdict;
use std::io;

// A day, in seconds.
const DAY: u32 = 86_400;

const IDLE: &[u8] = b"level 4.12 m";

// The store shows an idle night's block for the tag that was proved.
// The readings are short, so the match itself is never refused.
fn shown(rt: &impl Print, tag: [u8; 32], name: &str, time: u32) -> io::Result<()> {
    let m = labels::matches(tag, time, IDLE);
    print!(rt; "  the store shows {name}")?;
    if m.yes {
        println!(rt; ": it matches the tag that was proved")
    } else {
        println!(rt; " in its place: no match. The readings are the same, the time is not")
    }
}

pub fn told(rt: &impl Print) -> io::Result<()> {
    let mut image = empty_archive();
    let mut m = held(&image);
    println!(rt; "\nTwo idle nights at one tank, both with the reading level 4.12 m:")?;
    let second = MIDNIGHT + DAY;
    m = filed(
        rt,
        m,
        &mut image,
        "the first night",
        insert(0, 0, MIDNIGHT, IDLE),
    )?;
    m = filed(
        rt,
        m,
        &mut image,
        "the second night",
        insert(1, 1, second, IDLE),
    )?;
    let a = asked(m, read(1), &image, 1);
    println!(rt; "  The gateway reads position 1, the first night:")?;
    say_verdict(rt, a.verdict)?;
    println!(rt)?;
    shown(rt, a.tag, "the first night", MIDNIGHT)?;
    shown(rt, a.tag, "the second night", second)
}
