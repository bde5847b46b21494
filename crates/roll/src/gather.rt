// The rows of a roll, taken out of its blocks.
ghost use Rattle.std.specs.Prelude.{◌≡◌, true, ◌*◌, ◌≤◌, length};
ghost use Rattle.octets.specs.Layouts.{holds};
ghost use Rattle.rows.specs.Sizes.{table_bytes};
ghost use Rattle.roll.specs.Blocks.{places_bytes, block_bytes, gathered};
ghost use Rattle.roll.specs.Roll.{filled, roll_layout};

use crate::block::{COUNT_PLACE, HEAD, PLACES_BYTES, blocks};
use checks::BLOCK;

// Puts the places of the first n blocks into a table, and zeros after them.
pub fn gather(s: &[u8], n: usize, table: &mut [u8])
    requires { (block_bytes * n ≤ length s.now) × (places_bytes * n ≤ table_bytes) × (length table.old ≡ table_bytes) }
    ensures { table.new ≡ filled table_bytes (gathered s.now n) }
{
    table.fill(0);
    for b in 0..n {
        let from = BLOCK * b + HEAD;
        octets::copy_at(table, PLACES_BYTES * b, &s[from..from + PLACES_BYTES]);
    }
}

// Puts the rows of a roll into a table, and zeros after them; gives how many. What is known to be a roll is not tested again.
pub fn take_rows(s: &[u8], table: &mut [u8]) -> u8
    requires { (holds roll_layout s.now ≡ true) × (length table.old ≡ table_bytes) }
    ensures { (result ≡ (roll_layout.cut s.now).count) × (table.new ≡ (roll_layout.cut s.now).rows) }
{
    let count = s[COUNT_PLACE];
    gather(s, blocks(count), table);
    count
}
