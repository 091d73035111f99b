// The joint proof's bytes (document 02, ask 3): the positions it is asked for, its form, and the pieces it is spelled out from.
#![tactic(auto)]

pub mod positions;
pub mod read;
pub mod write;

pub const VERSION: u8 = 1;

pub const MOST_POSITIONS: usize = 32;

pub const HEADER: usize = 6;

pub const SHARED: usize = 2;
