// The words that all parts of the story use: what is said of metadata, verdicts and lies.
// Functions and no Display: both types are other crates', and only this story cuts a label short.
use commands::Metadata;
use gateway::Answer;
use refusals::Verdict;
use std::io;

// Of the label the first four bytes, enough to tell the labels of this story apart.
pub fn say_metadata(rt: &impl Print, m: Metadata) -> io::Result<()> {
    print!(rt;
        "count {}, label {:08x}..",
        m.count,
        octets::number_at::<4>(&m.label, 0)
    )
}

pub fn say_verdict(rt: &impl Print, v: Verdict) -> io::Result<()> {
    match v {
        Ok(()) => print!(rt; "    accepted"),
        Err(r) => print!(rt; "    refused {} {r}", u8::from(r)),
    }
}

// What is held or found, and whether it is what it is said to be.
pub fn say_agrees(rt: &impl Print, seen: Metadata, wanted: Metadata, what: &str) -> io::Result<()> {
    say_metadata(rt, seen)?;
    if wanted == seen {
        println!(rt; ", as {what}")
    } else {
        println!(rt; ", NOT as {what}")
    }
}

// One lie: what the store does, and what the gateway says.
pub fn lie(rt: &impl Print, what: &str, a: Answer, why: &str) -> io::Result<()> {
    println!(rt; "  {what}:")?;
    say_verdict(rt, a.verdict)?;
    println!(rt; ": {why}.")
}
