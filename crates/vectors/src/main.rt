// The digests of FIPS 180-4's published messages, and of the first n bytes of a pattern for lengths on both sides of where
// another block begins and of the limit. A line each: which message, and its digest or the refusal.
#![tactic(auto)]

use std::fmt::{self, Display};
use std::io;

// A digest in hexadecimal digits. It is printed at once, and not byte by byte.
#[derive(Clone, Copy)]
struct Hex([u8; 32]);

impl fmt::Display for Hex {
    fn fmt<W: fmt::Write>(&self, f: &mut fmt::Formatter<W>) -> fmt::Result {
        for b in self.0 {
            write!(f, "{b:02x}")?;
        }
        Ok(())
    }
}

fn show(rt: &impl Print, name: impl Display + Drop, m: &[u8]) -> io::Result<()> {
    print!(rt; "{name}: ")?;
    let d = sha256::digest(m);
    match d.verdict {
        Ok(()) => println!(rt; "{}", Hex(d.bytes)),
        Err(r) => println!(rt; "refused {:02}", u8::from(r)),
    }
}

fn published(rt: &impl Print) -> io::Result<()> {
    show(rt, "abc", b"abc")?;
    show(rt, "empty", b"")?;
    show(
        rt,
        "448 bits",
        b"abcdbcdecdefdefgefghfghighijhijkijkljklmklmnlmnomnopnopq",
    )?;
    show(
        rt,
        "896 bits",
        b"abcdefghbcdefghicdefghijdefghijkefghijklfghijklmghijklmnhijklmnoijklmnopjklmnopqklmnopqrlmnopqrsmnopqrstnopqrstu",
    )
}

// Byte i is i modulo 251, so that no two blocks are alike.
fn fill(m: &mut [u8]) {
    for (i, b) in m.iter_mut().enumerate() {
        *b = (i % 251) as u8;
    }
}

fn lengths(rt: &impl Print, m: &[u8]) -> io::Result<()> {
    for n in [0, 55, 56, 63, 64, 119, 120, 4095, 4096, 4097] {
        if let Some(first) = m.get(..n) {
            show(rt, format_args!("{n} bytes"), first)?;
        }
    }
    Ok(())
}

fn main(rt: HostRuntime) -> io::Result<()> {
    published(&rt)?;
    let mut m = [0u8; 4097];
    fill(&mut m);
    lengths(&rt, &m)
}
