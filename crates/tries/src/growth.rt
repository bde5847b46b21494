// Making ledgers and appending to them.
use crate::keepers::{enter, founded, full, make, with_ledgers, woken};
use crate::people::rack_of_one;
use crate::say;
use refusals::Refusal;
use rows::{LABEL, TABLE, TAIL, TOP};
use rules::Head;
use statement::RECEIPT_SIZE;
use std::io::Result;

// Where the first row has its height.
const HEIGHT_PLACE: usize = LABEL + TAIL;

fn append(head: Head, table: &mut [u8; TABLE], expected: u64) -> Option<Refusal> {
    let mut receipt = [0u8; RECEIPT_SIZE];
    enter(head, table, expected, &mut receipt)
}

pub fn on_blank(rt: &impl Print) -> Result<()> {
    let mut table = [0u8; TABLE];
    let head = woken(&mut table, 1);
    say::answered(rt, "append on a blank keeper", append(head, &mut table, 1))
}

pub fn made_again(rt: &impl Print) -> Result<()> {
    let mut table = [0u8; TABLE];
    let one = lent(&mut table, 0);
    let again = make(one, &mut table, 1);
    say::answered(rt, "new of an existing label", again.err())?;
    let all = full(&mut table);
    let among = make(all, &mut table, 1);
    print!(rt; "new of an existing label, with ")?;
    print!(rt; "{}", all.count)?;
    say::answered(rt, " rows", among.err())
}

// The keeper of key 1 with ledger 1, which a lent table has at a height.
fn lent(table: &mut [u8; TABLE], height: u64) -> Head {
    let head = with_ledgers(founded(table, &rack_of_one(1)), table, 0, 1);
    octets::put_number(table, HEIGHT_PLACE, height);
    head
}

fn height_of(table: &[u8; TABLE]) -> u64 {
    octets::number_at(table, HEIGHT_PLACE)
}

pub fn heights(rt: &impl Print) -> Result<()> {
    expecting(rt, 0, 2)?;
    expecting_next(rt)?;
    expecting(rt, TOP, 4294967296)?;
    expecting(rt, TOP, 5)
}

fn expecting(rt: &impl Print, height: u64, expected: u64) -> Result<()> {
    let mut table = [0u8; TABLE];
    let head = lent(&mut table, height);
    print!(rt; "height {}, expected {expected}", height_of(&table))?;
    say::answered(rt, "", append(head, &mut table, expected))
}

fn expecting_next(rt: &impl Print) -> Result<()> {
    let mut table = [0u8; TABLE];
    let head = lent(&mut table, 0);
    print!(rt; "height {}, expected 1", height_of(&table))?;
    let number = match append(head, &mut table, 1) {
        None => refusals::ACCEPTED,
        Some(refusal) => refusal.number(),
    };
    println!(rt; ": {number}, and the row is at {}", height_of(&table))
}
