// The digest of a rack.
ghost use Rattle.std.specs.Prelude.{◌≡◌, take};
ghost use Rattle.rack.specs.Racks.{most, rack_bytes, rack_digest};

use crate::keys::{KEY_BYTES, MOST};
use octets::copy_at;

// The byte that stands before a rack where it is digested.
const RACK_MARK: u8 = 0x03;

// The bytes of the longest rack.
const LONGEST: usize = 1 + KEY_BYTES * MOST;

// The digest of a rack; of a string longer than any rack, that of as many of its bytes as the longest rack has.
pub fn rack_digest(s: &[u8]) -> [u8; 32]
    ensures { result ≡ rack_digest (take (rack_bytes most) s.now) }
{
    let n = s.len().min(LONGEST);
    let mut message = [0u8; 1 + LONGEST];
    message[0] = RACK_MARK;
    copy_at(&mut message, 1, &s[..n]);
    hash::digest(&message[..1 + n])
}
