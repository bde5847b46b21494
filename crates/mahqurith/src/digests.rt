// SHA-256, the digest of a rack, and the tail after an entry.
ghost use Rattle.std.specs.Prelude.{◌≡◌};
ghost use Rattle.hash.specs.Promise.{hashing};
ghost use Rattle.rows.specs.Digests.{appended};
ghost use Rattle.interface.specs.Calls.{digesting_rack};

use refusals::Written;
use rows::{DIGEST, TAIL};

// SHA-256 of the message is stored in the digest area, or the message is too long and nothing changes.
#[unsafe(no_mangle)]
pub extern "C" fn mahqurith_sha256(message: &[u8], digest: &mut [u8; 32]) -> u32
    ensures { record { answer = result; area = digest.new } ≡ hashing message.now digest.old }
{
    interface::mahqurith_sha256(message, digest)
}

// Writes the digest of a rack as the first bytes of an area.
#[unsafe(no_mangle)]
pub extern "C" fn mahqurith_rack_digest(rack: &[u8], area: &mut [u8]) -> Written
    ensures { record { answer = result.number; count = result.written; area = area.new } ≡ digesting_rack rack.now area.old }
{
    interface::mahqurith_rack_digest(rack, area)
}

// A tail becomes the one after an entry, which is given by its digest.
#[unsafe(no_mangle)]
pub extern "C" fn mahqurith_tail_after(tail: &mut [u8; TAIL], entry: &[u8; DIGEST])
    ensures { tail.new ≡ appended tail.old entry.now }
{
    interface::mahqurith_tail_after(tail, entry);
}
