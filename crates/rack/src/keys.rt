// The keys of a rack that is taken apart: their order, and which are among them.
ghost use Rattle.std.specs.Prelude.{◌≡◌, take};
ghost use Rattle.octets.specs.Strings.{rising};
ghost use Rattle.rack.specs.Racks.{is_among};

use octets::is_before;

// The keys of the largest rack, and the bytes of a key.
pub const MOST: usize = 15;

pub const KEY_BYTES: usize = 32;

// A rack taken apart: fifteen places, `[[u8; 32]; 15]`, with a count beside them.
pub type Keys = [[u8; KEY_BYTES]; MOST];

// Whether the first keys rise strictly; a count over 15 means all of them.
pub fn is_rising(keys: Keys, count: usize) -> bool
    ensures { result ≡ rising (take count keys) }
{
    keys[..count.min(MOST)].is_sorted_by(|a, b| is_before(a, b))
}

// Whether a key is among the first keys; a count over 15 means all of them.
pub fn is_member(keys: Keys, count: usize, key: [u8; KEY_BYTES]) -> bool
    ensures { result ≡ is_among key (take count keys) }
{
    keys[..count.min(MOST)].contains(&key)
}
