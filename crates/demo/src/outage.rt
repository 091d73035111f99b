// A whole outage, told through the public calls. Its blocks come in the order of the radio, and each is filed by its time: the store finds
// the place in its own times, shows the blocks on both sides and proves them, and the gateway's filer decides. Nobody chooses a place.
ghost use Rattle.std.specs.Prelude.{◌<◌};

use crate::asking::{HOUR, MIDNIGHT, asked, held, read};
use crate::tank::{READINGS, Tank};
use crate::words::{lie, say_agrees, say_metadata, say_verdict};
use filer::Filing;
use std::{fmt, io};

// The sample time of the block that comes last, 07:15, and its readings.
const LATEST: u32 = MIDNIGHT + 7 * HOUR + 900;

const LAST: &[u8; READINGS] = b"level 3.22 m";

// A time as the clock at the tank shows it.
#[derive(Clone, Copy)]
struct Clock(u32);

impl fmt::Display for Clock {
    fn fmt<W: fmt::Write>(&self, f: &mut fmt::Formatter<W>) -> fmt::Result {
        let s = self.0.wrapping_sub(MIDNIGHT);
        write!(f, "{:02}:{:02}", s / 3_600 % 24, s / 60 % 60)
    }
}

// The sample time at an hour and a minute.
fn clock_time(hour: u32, minute: u32) -> u32
    requires { (hour < 24) × (minute < 60) }
{
    MIDNIGHT + HOUR * hour + 60 * minute
}

// The place, and what stands beside it among n blocks.
// A function and no Display: what is said depends on how many blocks there are.
fn say_place(rt: &impl Print, f: Filing, n: u64) -> io::Result<()> {
    let left = Clock(f.left);
    print!(rt; "after position {}", f.position)?;
    if f.position < 1 {
        return Ok(());
    }
    if f.position < n {
        print!(rt; ", between {left} and {}", Clock(f.right))
    } else {
        print!(rt; ", after {left}")
    }
}

// A block that comes in. The gateway hands on its time; the store answers with a place, two blocks and two proofs; the filer decides; the
// store applies.
fn comes(
    rt: &impl Print,
    t: &mut Tank,
    time: u32,
    coin: u16,
    readings: &[u8; READINGS],
) -> io::Result<()> {
    let n = t.held.count;
    let f = t.found(time, coin);
    let a = t.decided_honestly(f, readings);
    let v = a.verdict;
    print!(rt; "  {}", Clock(time))?;
    if !v.is_ok() {
        print!(rt; " not filed ")?;
        say_place(rt, f, n)?;
        println!(rt; ":")?;
        say_verdict(rt, v)?;
        return println!(rt);
    }
    print!(rt; " filed ")?;
    say_place(rt, f, n)?;
    print!(rt; ": ")?;
    say_metadata(rt, a.metadata)?;
    t.apply(f, *readings, a.metadata);
    println!(rt)
}

// Before the outage.
fn on_time(rt: &impl Print, t: &mut Tank) -> io::Result<()> {
    println!(rt;
        "\nAn outage at a second tank. Every block is filed by its time: the store finds the place, the gateway decides, no operator chooses."
    )?;
    comes(rt, t, clock_time(5, 30), 6, b"level 3.07 m")?;
    comes(rt, t, clock_time(6, 0), 5, b"level 3.11 m")
}

// The outage's blocks, a line for each, in the order in which they come: the first four,
fn first_half(rt: &impl Print, t: &mut Tank) -> io::Result<()> {
    println!(rt;
        "\nThe modem falls silent. At 10:00 it tells four hours at once, and the radio has shuffled them:"
    )?;
    comes(rt, t, clock_time(8, 30), 3, b"level 3.40 m")?;
    comes(rt, t, clock_time(6, 30), 8, b"level 3.14 m")?;
    comes(rt, t, clock_time(10, 0), 9, b"level 3.52 m")?;
    comes(rt, t, clock_time(7, 30), 2, b"level 3.26 m")
}

// and the others.
fn second_half(rt: &impl Print, t: &mut Tank) -> io::Result<()> {
    comes(rt, t, clock_time(9, 30), 7, b"level 3.49 m")?;
    comes(rt, t, clock_time(7, 0), 1, b"level 3.19 m")?;
    comes(rt, t, clock_time(9, 0), 4, b"level 3.45 m")?;
    comes(rt, t, clock_time(8, 0), 11, b"level 3.33 m")
}

// The gateway reads a position, and the store shows the block that it has there.
// The readings are short, so the match itself is never refused.
fn reads(rt: &impl Print, t: &Tank, p: u64) -> io::Result<()> {
    let a = asked(t.held, read(p), &t.image, p);
    let time = t.time_at(p);
    let x = labels::matches(a.tag, time, t.block_at(p));
    print!(rt; " {}", Clock(time))?;
    if !x.yes {
        print!(rt; " (NO MATCH)")?;
    }
    Ok(())
}

// The archive in its order, every block matched against the tag that the gateway was proved.
fn in_order(rt: &impl Print, t: &Tank) -> io::Result<()> {
    print!(rt;
        "  the gateway reads every position, and matches the block that the store shows there:\n   "
    )?;
    for p in 1..=t.held.count {
        reads(rt, t, p)?;
    }
    print!(rt; "\n  the store's image, checked afresh: ")?;
    say_agrees(rt, held(&t.image), t.held, "the gateway predicted")
}

// One of the blocks comes a second time; its time leads to the place right after its first copy.
fn sent_again(rt: &impl Print, before: &Tank) -> io::Result<()> {
    println!(rt; "\nAn acknowledgement was lost, and the block of 08:00 is sent again:")?;
    let mut t = *before;
    comes(rt, &mut t, clock_time(8, 0), 6, b"level 3.33 m")?;
    print!(rt; "  the gateway holds: ")?;
    say_agrees(rt, t.held, before.held, "before")
}

// The end of the list, proposed for the block that comes last.
fn the_end(t: &Tank) -> Filing {
    t.proposed(t.held.count, LATEST, 10)
}

// The same, with the time of the block at position 4 for that of the last one.
fn the_end_at_seven(t: &Tank) -> Filing {
    Filing {
        left: t.time_at(4),
        ..the_end(t)
    }
}

// Each lie is one call of `lie`: its words, and what is asked.

fn proposes_the_end(rt: &impl Print, t: &Tank) -> io::Result<()> {
    lie(
        rt,
        "It proposes the end of the list, under the time of arrival",
        t.decided_honestly(the_end(t), LAST),
        "the last block is from 10:00",
    )
}

fn shows_another_block(rt: &impl Print, t: &Tank) -> io::Result<()> {
    lie(
        rt,
        "It proposes the end, and shows the block of 07:00 for the last one",
        t.decided(the_end_at_seven(t), LAST, t.block_at(4), b""),
        "that is not the block whose tag was proved",
    )
}

fn shows_another_time(rt: &impl Print, t: &Tank) -> io::Result<()> {
    lie(
        rt,
        "It proposes the end, and says that the last block is from 07:00",
        t.decided_honestly(the_end_at_seven(t), LAST),
        "the time is under the tag too",
    )
}

// The last of the outage's blocks, and stores that lie about its place.
fn last(rt: &impl Print, t: &mut Tank) -> io::Result<()> {
    println!(rt; "\nOne block of the outage is left, from 07:15. A store that misfiles it:")?;
    proposes_the_end(rt, t)?;
    shows_another_block(rt, t)?;
    shows_another_time(rt, t)?;
    println!(rt; "An honest store finds the place:")?;
    comes(rt, t, LATEST, 10, LAST)
}

pub fn told(rt: &impl Print) -> io::Result<()> {
    let mut t = Tank::new();
    on_time(rt, &mut t)?;
    first_half(rt, &mut t)?;
    second_half(rt, &mut t)?;
    in_order(rt, &t)?;
    sent_again(rt, &t)?;
    last(rt, &mut t)?;
    in_order(rt, &t)
}
