// The blocks of a roll: how many, and one block made.
ghost use Rattle.std.specs.Prelude.{◌≡◌, ◌≤◌, ◌<◌, length};
ghost use Rattle.rows.specs.Sizes.{most_rows, table_bytes};
ghost use Rattle.roll.specs.Blocks.{blocks, head, block};

use checks::{BLOCK, CHECKED};
use rows::ROW;

// The row places of a block, its head and its places; the check comes behind them.
pub const PLACES: usize = 9;

pub const HEAD: usize = 4;

pub const PLACES_BYTES: usize = PLACES * ROW;

// Where a block says the row count of the whole roll, and the byte behind it.
pub const COUNT_PLACE: usize = 2;

const LAYOUT: u8 = 0;

// The number of blocks of a roll.
pub fn blocks(count: u8) -> usize
    ensures { result ≡ blocks count }
{
    usize::from(count).div_ceil(PLACES).max(1)
}

// The head of block b.
pub fn head_of(count: u8, b: usize) -> [u8; HEAD]
    requires { (count ≤ most_rows) × (b < blocks count) }
    ensures { result ≡ head count b }
{
    [b as u8, blocks(count) as u8, count, LAYOUT]
}

// Block b of a roll.
pub fn made_block(count: u8, rows: &[u8], b: usize) -> [u8; BLOCK]
    requires { (count ≤ most_rows) × (length rows.now ≡ table_bytes) × (b < blocks count) }
    ensures { result ≡ block count rows.now b }
{
    let from = PLACES_BYTES * b;
    let mut block = [0u8; BLOCK];
    octets::copy_at(&mut block, 0, &head_of(count, b));
    octets::copy_at(&mut block, HEAD, &rows[from..from + PLACES_BYTES]);
    let check = checks::check_of(&block[..CHECKED]);
    octets::copy_at(&mut block, CHECKED, &check);
    block
}
