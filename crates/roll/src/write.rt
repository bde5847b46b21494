// Writing a roll.
ghost use Rattle.std.specs.Prelude.{◌≡◌, ◌*◌, ◌≤◌, length};
ghost use Rattle.std.specs.Result.{result_unwrap_or};
ghost use Rattle.refusals.specs.Refused.{answer_of};
ghost use Rattle.octets.specs.Strings.{put};
ghost use Rattle.rows.specs.Sizes.{most_rows, table_bytes};
ghost use Rattle.roll.specs.Blocks.{block_bytes, blocks, first_blocks};
ghost use Rattle.roll.specs.Roll.{writing_roll};

use crate::block::{blocks, made_block};
use checks::BLOCK;
use refusals::Refusal;

// Puts the first n blocks of a roll at the front of an area.
fn put_blocks(count: u8, rows: &[u8], n: usize, area: &mut [u8])
    requires { (count ≤ most_rows) × (length rows.now ≡ table_bytes) × (n ≤ blocks count) × (block_bytes * n ≤ length area.old) }
    ensures { area.new ≡ put area.old 0 (first_blocks count rows.now n) }
{
    for b in 0..n {
        octets::copy_at(area, BLOCK * b, &made_block(count, rows, b));
    }
}

// How many bytes a roll is written in.
pub fn roll_bytes(count: u8) -> usize
    requires { count ≤ most_rows }
    ensures { result ≡ block_bytes * blocks count }
{
    BLOCK * blocks(count)
}

// Puts a roll at the front of an area. Rows that are known to make a roll are not tested again.
pub fn put_roll(count: u8, rows: &[u8], area: &mut [u8])
    requires { (count ≤ most_rows) × (length rows.now ≡ table_bytes) × (block_bytes * blocks count ≤ length area.old) }
    ensures { area.new ≡ put area.old 0 (first_blocks count rows.now (blocks count)) }
{
    put_blocks(count, rows, blocks(count), area);
}

// Writes the blocks of a roll at the front of the area, or refuses and changes nothing.
pub fn write_roll(count: u8, rows: &[u8], area: &mut [u8]) -> Result<usize, Refusal>
    ensures { record { answer = answer_of result; count = result_unwrap_or result 0; area = area.new } ≡ writing_roll count rows.now area.old }
{
    if !rows::rows_fit(rows, count as usize) {
        return Err(Refusal::RollBroken);
    }
    let n = blocks(count);
    let size = BLOCK * n;
    if area.len() < size {
        return Err(Refusal::AreaTooShort);
    }
    put_blocks(count, rows, n, area);
    Ok(size)
}
