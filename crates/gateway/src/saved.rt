// Metadata as 39 bytes: version, length 36, count, label.
ghost use Rattle.std.specs.Prelude.{◌≡◌, length};
ghost use Rattle.gateway.specs.Saving.{saved_bytes, saved_size, as_stated, Saves, Loads};

use commands::{MOST_BLOCKS, Metadata};
use refusals::{Refusal, Verdict};

const SAVED_VERSION: u64 = 1;

const SAVED_REST: u64 = 36;

const SAVED_SIZE: usize = 39;

const REST_PLACE: usize = 1;

const COUNT_PLACE: usize = 3;

const LABEL_PLACE: usize = 7;

// Structs and no Results: the pledges say what stands in each field after a refusal too.
#[derive(Clone, Copy)]
pub struct Saved {
    pub verdict: Verdict,
    pub bytes: [u8; 39],
}

#[derive(Clone, Copy)]
pub struct Loaded {
    pub verdict: Verdict,
    pub metadata: Metadata,
}

// All 39 bytes, over all of d.
fn put_saved(d: &mut [u8], m: Metadata)
    requires { (length d.old ≡ saved_size) × (length m.label ≡ 32) }
    ensures { d.new ≡ saved_bytes m }
{
    octets::put_number::<1>(d, 0, SAVED_VERSION);
    octets::put_number::<2>(d, REST_PLACE, SAVED_REST);
    octets::put_number::<4>(d, COUNT_PLACE, m.count);
    octets::copy(d, LABEL_PLACE, &m.label);
}

// Metadata saved; 12 and 39 zero bytes for a count over 4,096.
#[tactic(auto, unfolding(crate::specs::Saving::save_of))]
pub fn save(m: Metadata) -> Saved
    ensures { Saves m result }
{
    let mut bytes = [0u8; 39];
    if MOST_BLOCKS < m.count {
        return Saved {
            verdict: Err(Refusal::BadMetadata),
            bytes,
        };
    }
    put_saved(&mut bytes, m);
    Saved {
        verdict: Ok(()),
        bytes,
    }
}

// Exactly 39 bytes of the stated form, with a count of at most 4,096.
#[tactic(auto, unfolding(crate::specs::Saving::as_stated))]
fn as_stated(s: &[u8]) -> bool
    ensures { result ≡ as_stated s.now }
{
    s.len() == SAVED_SIZE
        && octets::number_at::<1>(s, 0) == SAVED_VERSION
        && octets::number_at::<2>(s, REST_PLACE) == SAVED_REST
        && octets::number_at::<4>(s, COUNT_PLACE) <= MOST_BLOCKS
}

// Metadata from saved bytes; 12, count 0 and a zero label for any others.
pub fn load(s: &[u8]) -> Loaded
    ensures { Loads s.now result }
{
    if as_stated(s) {
        let count = octets::number_at::<4>(s, COUNT_PLACE);
        let label = octets::bytes_at(s, LABEL_PLACE);
        Loaded {
            verdict: Ok(()),
            metadata: Metadata { count, label },
        }
    } else {
        Loaded {
            verdict: Err(Refusal::BadMetadata),
            metadata: Metadata {
                count: 0,
                label: [0u8; 32],
            },
        }
    }
}
