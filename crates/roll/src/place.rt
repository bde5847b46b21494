// The rows of a roll, read where they stand in its blocks.
// `Spread` and `holds roll_layout` stay facts in clauses, for a type in their place would say `self.now.bytes.now` in each, or tell callers nothing.
ghost use Rattle.std.specs.Prelude.{◌≡◌, ◌*◌, ◌<◌};
ghost use Rattle.rows.specs.Sizes.{most_rows};
ghost use Rattle.rows.specs.Row.{label_of, tail_of, height_of};
ghost use Rattle.roll.specs.Blocks.{places, blocks};
ghost use Rattle.roll.specs.Roll.{said_count, roll_layout};
ghost use Rattle.roll.specs.Places.{Spread, row_at};

use crate::block::{COUNT_PLACE, HEAD, PLACES, PLACES_BYTES, blocks};
use checks::BLOCK;
use octets::{array_at, number_at};
use rows::{LABEL, ROW, TAIL};

// Where row i stands.
pub fn row_at(i: usize) -> usize
    requires { i < most_rows }
    ensures { result ≡ row_at i }
{
    ROW * i + (HEAD + (BLOCK - PLACES_BYTES) * (i / PLACES))
}

// The row count of the whole roll, as its first block says it.
#[tactic(auto, using(crate::proofs::Blocks::blocks_hold), unfolding(crate::specs::Roll::said_count))]
pub fn said_count(s: &[u8]) -> u8
    requires { Spread s.now }
    ensures { result ≡ said_count s.now }
{
    s[COUNT_PLACE]
}

// How many blocks a roll has.
pub fn blocks_in(s: &[u8]) -> usize
    requires { Spread s.now }
    ensures { result ≡ blocks (said_count s.now) }
{
    blocks(said_count(s))
}

// How many rows a roll has.
#[tactic(auto, unfolding(crate::specs::Roll::roll_layout))]
pub fn count_in(s: &[u8]) -> usize
    requires { Spread s.now }
    ensures { result ≡ (roll_layout.cut s.now).count }
{
    usize::from(said_count(s))
}

#[tactic(auto, using(crate::proofs::Spreads::row_places, crate::proofs::Spreads::label_cut), unfolding(crate::specs::Roll::roll_layout))]
pub fn label_in(s: &[u8], i: usize) -> [u8; LABEL]
    requires { Spread s.now × (i < places * blocks (said_count s.now)) }
    ensures { result ≡ label_of (roll_layout.cut s.now).rows i }
{
    array_at(s, row_at(i))
}

#[tactic(auto, using(crate::proofs::Spreads::row_places, crate::proofs::Spreads::tail_cut), unfolding(crate::specs::Roll::roll_layout))]
pub fn tail_in(s: &[u8], i: usize) -> [u8; TAIL]
    requires { Spread s.now × (i < places * blocks (said_count s.now)) }
    ensures { result ≡ tail_of (roll_layout.cut s.now).rows i }
{
    array_at(s, row_at(i) + LABEL)
}

#[tactic(auto, using(crate::proofs::Spreads::row_places, crate::proofs::Spreads::height_stands), unfolding(crate::specs::Roll::roll_layout))]
pub fn height_in(s: &[u8], i: usize) -> u64
    requires { Spread s.now × (i < places * blocks (said_count s.now)) }
    ensures { result ≡ height_of (roll_layout.cut s.now).rows i }
{
    number_at(s, row_at(i) + LABEL + TAIL)
}
