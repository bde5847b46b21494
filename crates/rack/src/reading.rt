// Reading a rack.
ghost use Rattle.std.specs.Prelude.{◌≡◌, ◌++◌, ◌+◌, ◌-◌, ◌*◌, ◌≤◌, length, take, drop, replicate};
ghost use Rattle.std.specs.Result.{result_unwrap_or};
ghost use Rattle.refusals.specs.Refused.{answer_of};
ghost use Rattle.octets.specs.Strings.{pieces};
ghost use Rattle.octets.specs.Layouts.{holds};
ghost use Rattle.rack.specs.Racks.{most, key_bytes, rack_bytes, rack_layout};
ghost use Rattle.rack.specs.Tests.{rack_long};
ghost use Rattle.rack.specs.Promise.{reading};

use crate::keys::{KEY_BYTES, Keys, MOST, is_rising};
use refusals::Refusal;

// Whether a string has the length that its first byte says, for a count of 1 to 15.
#[tactic(auto, using(crate::proofs::Walks::first_none), unfolding(crate::specs::Tests::rack_long))]
fn has_rack_length(s: &[u8]) -> bool
    ensures { result ≡ rack_long s.now }
{
    let Some(first) = s.first() else {
        return false;
    };
    let n = usize::from(*first);
    1 <= n && n <= MOST && s.len() == 1 + KEY_BYTES * n
}

// The keys of a string that is as long as a rack of n.
fn keys_in(s: &[u8], n: usize) -> &[[u8; KEY_BYTES]]
    requires { length s.now ≡ rack_bytes n }
    ensures { result.now ≡ pieces key_bytes n (drop 1 s.now) }
{
    s[1..].as_chunks().0
}

// The keys of a string that is as long as a rack of n, each in its place, and zeros in the others.
fn taken_apart(s: &[u8], n: usize) -> Keys
    requires { (n ≤ most) × (length s.now ≡ rack_bytes n) }
    ensures { result ≡ pieces key_bytes n (drop 1 s.now) ++ replicate (most - n) (replicate key_bytes 0) }
{
    let mut keys = [[0u8; KEY_BYTES]; MOST];
    keys[..n].copy_from_slice(keys_in(s, n));
    keys
}

// Whether a string is a rack.
#[tactic(auto, using(crate::proofs::Racks::holds_by, crate::proofs::Racks::long_few, crate::proofs::Racks::long_length, crate::proofs::Racks::cut_keys))]
pub fn is_rack(s: &[u8]) -> bool
    ensures { result ≡ holds rack_layout s.now }
{
    if !has_rack_length(s) {
        return false;
    }
    let n = usize::from(s[0]);
    is_rising(taken_apart(s, n), n)
}

// Takes a rack apart into the fifteen places, or the layout is broken and nothing changes.
#[tactic(auto, using(crate::proofs::RackTrips::of_reading), unfolding(crate::specs::Racks::rack_cut))]
pub fn read_rack(s: &[u8], keys: &mut Keys) -> Result<u8, Refusal>
    ensures { record { answer = answer_of result; count = result_unwrap_or result 0; keys = keys.new } ≡ reading s.now keys.old }
{
    if !is_rack(s) {
        return Err(Refusal::RackBroken);
    }
    let count = s[0];
    *keys = taken_apart(s, usize::from(count));
    Ok(count)
}
