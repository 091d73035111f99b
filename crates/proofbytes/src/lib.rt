// The proof's bytes (document 01, "Paths and proof bytes"): the numbers of their form; `write` writes them from the sides of a path,
// `read` reads them and judges their form.
#![tactic(auto)]

pub mod read;
pub mod write;

pub const VERSION: u8 = 1;

pub const MOST_ENTRIES: usize = 200;

pub const HEADER: usize = 3;

pub const ENTRY: usize = 38;

pub const STOP: usize = 74;

pub const LEAST_PROOF: usize = 77;

// The kinds, as bytes and no enum: an entry is read from any bytes before it is judged.
pub const DOWN: u8 = 0;

pub const RIGHT: u8 = 1;

pub const STOP_KIND: u8 = 2;
