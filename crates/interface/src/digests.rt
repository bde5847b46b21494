// The digest of a rack, and the tail after an entry.
ghost use Rattle.std.specs.Prelude.{◌≡◌};
ghost use Rattle.std.specs.Result.{result_unwrap_or};
ghost use Rattle.refusals.specs.Refused.{answer_of};
ghost use Rattle.rows.specs.Digests.{appended};
ghost use Rattle.interface.specs.Calls.{digesting_rack};

use octets::copy_at;
use refusals::{Refusal, Written};
use rows::{DIGEST, TAIL};

// Puts the digest of a rack at the front of an area.
#[tactic(auto, using(rack::proofs::RackTrips::rack_whole), unfolding(crate::specs::Calls::digesting_rack, octets::specs::Layouts::unwritten))]
fn put_digest(rack: &[u8], area: &mut [u8]) -> Result<usize, Refusal>
    ensures { record { answer = answer_of result; count = result_unwrap_or result 0; area = area.new } ≡ digesting_rack rack.now area.old }
{
    if !rack::is_rack(rack) {
        return Err(Refusal::RackBroken);
    }
    if area.len() < DIGEST {
        return Err(Refusal::AreaTooShort);
    }
    copy_at(area, 0, &rack::rack_digest(rack));
    Ok(DIGEST)
}

// Writes the digest of a rack as the first bytes of an area.
#[unsafe(no_mangle)]
pub extern "C" fn mahqurith_rack_digest(rack: &[u8], area: &mut [u8]) -> Written
    ensures { record { answer = result.number; count = result.written; area = area.new } ≡ digesting_rack rack.now area.old }
{
    Written::from(put_digest(rack, area))
}

// A tail becomes the one after an entry, which is given by its digest.
#[unsafe(no_mangle)]
pub extern "C" fn mahqurith_tail_after(tail: &mut [u8; TAIL], entry: &[u8; DIGEST])
    ensures { tail.new ≡ appended tail.old entry.now }
{
    *tail = rows::appended(*tail, *entry);
}
