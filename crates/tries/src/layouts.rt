// Majorities, the blocks of rolls, and the sizes of racks.
use crate::keepers::{founded, full, with_ledgers};
use crate::people::{KEY, SIXTEEN, rack_of_one, sixteen_keys};
use crate::say;
use rack::MOST;
use rows::TABLE;
use std::io::Result;

// The bytes of a block, and of the longest roll.
pub const BLOCK: usize = 512;

const ROLL: usize = 7 * BLOCK;

// The bytes of a rack of fifteen.
const FIFTEEN: usize = 1 + MOST * KEY;

pub fn majorities(rt: &impl Print) -> Result<()> {
    for n in [1, 2, 3, 4, 15] {
        println!(rt; "majority of {n}: {}", rack::majority(n))?;
    }
    Ok(())
}

pub fn blocks(rt: &impl Print) -> Result<()> {
    blocks_of(rt, 0)?;
    blocks_of(rt, 9)?;
    blocks_of(rt, 10)?;
    let mut table = [0u8; TABLE];
    let head = full(&mut table);
    blocks_for(rt, head.count, &table)
}

// The keeper of key 1 has made so many ledgers.
fn blocks_of(rt: &impl Print, count: u8) -> Result<()> {
    let mut table = [0u8; TABLE];
    let head = with_ledgers(founded(&mut table, &rack_of_one(1)), &mut table, 0, count);
    blocks_for(rt, head.count, &table)
}

fn blocks_for(rt: &impl Print, count: u8, table: &[u8; TABLE]) -> Result<()> {
    let mut area = [0u8; ROLL];
    let bytes = roll::write_roll(count, table, &mut area).unwrap_or(0);
    println!(rt; "blocks for {count} rows: {}", bytes / BLOCK)
}

pub fn racks(rt: &impl Print) -> Result<()> {
    read(rt, "a rack with n = 0", &[0u8; 1])?;
    let mut rack = [0u8; SIXTEEN];
    sixteen_keys(&mut rack, 16);
    read(rt, "a rack with n = 16", &rack)?;
    sixteen_keys(&mut rack, 15);
    println!(rt; "a rack of 15: {} bytes", bytes_of_fifteen(rack))
}

// Says what reading a rack answers.
fn read(rt: &impl Print, case: &str, rack: &[u8]) -> Result<()> {
    let mut keys = [[0u8; KEY]; MOST];
    say::answered(rt, case, rack::read_rack(rack, &mut keys).err())
}

// How many bytes are written where all keys but the last are read and written again.
fn bytes_of_fifteen(rack: [u8; SIXTEEN]) -> usize {
    let mut keys = [[0u8; KEY]; MOST];
    let count = rack::read_rack(&rack[..FIFTEEN], &mut keys).unwrap_or(0);
    let mut area = [0u8; FIFTEEN];
    rack::write_rack(count, keys, &mut area).unwrap_or(0)
}
