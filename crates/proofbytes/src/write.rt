// The writers of a proof's header, entries and stop. Each is lent its own part of the buffer and fills it; none can
// fail.
ghost use Rattle.std.specs.Prelude.{◌≡◌, ◌≤◌, length};
ghost use Rattle.proofbytes.specs.Layout.{header_size, entry_size, stop_size, most_entries};
ghost use Rattle.proofbytes.specs.Writing.{header_bytes, field_bytes, stop_fields};

use crate::{ENTRY, STOP, STOP_KIND, VERSION};

// The header of a proof with k entries.
pub fn header(d: &mut [u8], k: u64)
    requires { (length d.old ≡ header_size) × (k ≤ most_entries) }
    ensures { d.new ≡ header_bytes k }
{
    octets::put_number::<1>(d, 0, VERSION as u64);
    octets::put_number::<2>(d, 1, (ENTRY as u64) * k + (STOP as u64));
}

// "kind byte, level byte, four-byte rank, 32 bytes"
pub fn entry(d: &mut [u8], kind: u8, level: u8, rank: u64, bytes: [u8; 32])
    requires { length d.old ≡ entry_size }
    ensures { d.new ≡ field_bytes kind level rank bytes }
{
    octets::put_number::<1>(d, 0, kind as u64);
    octets::put_number::<1>(d, 1, level as u64);
    octets::put_number::<4>(d, 2, rank);
    octets::copy(d, 6, &bytes);
}

// "Stop: kind 2, level 0, own and tag as above, then right rank and label"
// own is a number: it goes into the bytes as it is.
pub fn stop(d: &mut [u8], own: u64, tag: [u8; 32], rank: u64, label: [u8; 32])
    requires { length d.old ≡ stop_size }
    ensures { d.new ≡ stop_fields own tag rank label }
{
    entry(&mut d[0..ENTRY], STOP_KIND, 0, own, tag);
    octets::put_number::<4>(d, ENTRY, rank);
    octets::copy(d, 42, &label);
}
