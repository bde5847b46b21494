// The digest of a roll, of its rows as they stand in its blocks.
ghost use Rattle.std.specs.Prelude.{◌≡◌};
ghost use Rattle.rows.specs.Digests.{roll_digest};
ghost use Rattle.roll.specs.Roll.{roll_layout};
ghost use Rattle.roll.specs.Places.{Spread};

use crate::block::{HEAD, PLACES_BYTES};
use crate::place::{blocks_in, count_in, said_count};
use checks::BLOCK;
use rows::{DIGEST, ROW, TABLE};

const ROLL_MARK: u8 = 2;

// The digest of the roll that stands in a string: the places are gathered behind the mark and the count, in no other table.
pub fn digest_in(s: &[u8]) -> [u8; DIGEST]
    requires { Spread s.now }
    ensures { result ≡ roll_digest (roll_layout.cut s.now).count (roll_layout.cut s.now).rows }
{
    let mut message = [0u8; 2 + TABLE];
    message[0] = ROLL_MARK;
    message[1] = said_count(s);
    for b in 0..blocks_in(s) {
        let from = BLOCK * b + HEAD;
        octets::copy_at(
            &mut message,
            2 + PLACES_BYTES * b,
            &s[from..from + PLACES_BYTES],
        );
    }
    let size = 2 + ROW * count_in(s);
    hash::digest(&message[..size])
}
