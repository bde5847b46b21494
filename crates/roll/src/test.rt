// Whether a string is a roll: each block is read once, where it stands.
ghost use Rattle.std.specs.Prelude.{◌≡◌, ◌&&◌, ◌*◌, ◌≤◌, ◌<◌, length, take, drop};
ghost use Rattle.octets.specs.Strings.{same};
ghost use Rattle.octets.specs.Layouts.{holds};
ghost use Rattle.checks.specs.Check.{check};
ghost use Rattle.rows.specs.Sizes.{most_rows};
ghost use Rattle.roll.specs.Blocks.{block_bytes, checked_bytes, head_bytes, head, blocks, block, first_blocks};
ghost use Rattle.roll.specs.Roll.{said_count, roll_layout};
ghost use Rattle.roll.specs.Places.{Spread};

use crate::block::{COUNT_PLACE, HEAD, blocks, head_of};
use crate::place::{blocks_in, said_count};
use crate::standing::rows_stand;
use checks::{BLOCK, CHECKED, check_of};
use octets::is_same;
use rows::MOST;

// Whether a block has the head and the check of block b of a roll of so many rows.
fn is_whole(block: &[u8], count: u8, b: usize) -> bool
    requires { (length block.now ≡ block_bytes) × (count ≤ most_rows) × (b < blocks count) }
    ensures { result ≡ (same (head count b) (take head_bytes block.now) && same (check (take checked_bytes block.now)) (drop checked_bytes block.now)) }
{
    is_same(&head_of(count, b), &block[..HEAD]) && checks::is_checked(block)
}

// Whether block b of the roll that stands in a string is what stands at its place.
fn is_block(s: &[u8], b: usize) -> bool
    requires { Spread s.now × (b < blocks (said_count s.now)) }
    ensures { result ≡ same (block (said_count s.now) (roll_layout.cut s.now).rows b) (take block_bytes (drop (block_bytes * b) s.now)) }
{
    let from = BLOCK * b;
    is_whole(&s[from..from + BLOCK], said_count(s), b)
}

// Whether a string is the blocks of the roll that stands in it.
fn are_blocks(s: &[u8]) -> bool
    requires { Spread s.now }
    ensures { result ≡ same (first_blocks (said_count s.now) (roll_layout.cut s.now).rows (blocks (said_count s.now))) s.now }
{
    (0..blocks_in(s)).all(|b| is_block(s, b))
}

// Whether a string is a roll: it has the blocks that its count asks, its rows fit, and each block is the one that they make.
pub fn is_roll(s: &[u8]) -> bool
    ensures { result ≡ holds roll_layout s.now }
{
    if s.len() < BLOCK {
        return false;
    }
    let count = s[COUNT_PLACE];
    if MOST < usize::from(count) {
        return false;
    }
    if s.len() != BLOCK * blocks(count) {
        return false;
    }
    rows_stand(s) && are_blocks(s)
}
