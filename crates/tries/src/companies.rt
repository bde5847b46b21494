// Two companies in one building: the rows that each may get.
use crate::keepers::{founded, full, make, with_ledgers};
use crate::people::rack_of_one;
use crate::say;
use rows::TABLE;
use rules::Head;
use std::io::Result;

fn newly(rt: &impl Print, case: &str, head: Head, table: &mut [u8; TABLE], n: u8) -> Result<()> {
    say::answered(rt, case, make(head, table, n).err())
}

// The first company has made 31 ledgers.
pub fn limits(rt: &impl Print) -> Result<()> {
    let mut table = [0u8; TABLE];
    let head = with_ledgers(founded(&mut table, &rack_of_one(1)), &mut table, 0, 31);
    newly(rt, "a company's 32nd ledger", head, &mut table, 32)?;
    newly(rt, "the same, first byte 127", head, &mut table, 127)?;
    newly(
        rt,
        "the other company's first, first byte 128",
        head,
        &mut table,
        128,
    )
}

pub fn full_table(rt: &impl Print) -> Result<()> {
    let mut table = [0u8; TABLE];
    let head = full(&mut table);
    newly(
        rt,
        "63 rows, of which its company has 33",
        head,
        &mut table,
        161,
    )?;
    newly(
        rt,
        "63 rows, of which its company has 30",
        head,
        &mut table,
        31,
    )
}
