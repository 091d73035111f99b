// The writer of a joint proof's header, lent its own part of the buffer.
ghost use Rattle.std.specs.Prelude.{◌≡◌, ◌<◌, length};
ghost use Rattle.jointbytes.specs.Layout.{joint_header};
ghost use Rattle.jointbytes.specs.Spelling.{joint_head};

use crate::VERSION;

// The header of a joint proof of m positions, `rest` bytes after the length.
pub fn header(d: &mut [u8], m: u64, rest: u64)
    requires { (length d.old ≡ joint_header) × (m < 256) }
    ensures { d.new ≡ joint_head m rest }
{
    octets::put_number::<1>(d, 0, VERSION as u64);
    octets::put_number::<4>(d, 1, rest);
    octets::put_number::<1>(d, 5, m);
}
