// Taking over a roll.

use crate::finals::{AREA, finalise};
use crate::keepers::{after, founded, with_ledgers, woken};
use crate::layouts::BLOCK;
use crate::people::{rack_of_one, rack_of_three};
use crate::say;
use refusals::Refusal;
use rows::TABLE;
use rules::{Done, Head};
use statement::HANDOVER_SIZE;
use std::io;

// What stands before an old entry's block: how many old entries, a position, marks and how many blocks.
const OLD_HEAD: usize = 4;

// The bytes of a bundle with one old and one new entry, without lists; and of the list of no digests.
const BUNDLE: usize = OLD_HEAD + BLOCK + 3;

const LIST: usize = 2;

// The bytes of a bundle with a second old entry, and a list of no digests for each.
const BOTH: usize = BUNDLE + 3 + BLOCK + 2 * LIST;

// The roll of a table of so many rows, at most nine.
fn rolled(count: u8, table: &[u8; TABLE]) -> [u8; BLOCK] {
    let mut roll = [0u8; BLOCK];
    let _written = roll::write_roll(count, table, &mut roll);
    roll
}

// The keeper of key 2, woken, is to take over a roll from a rack.
fn prepare(
    head: Head,
    table: &mut [u8; TABLE],
    identity: [u8; 32],
    roll: &[u8; BLOCK],
    previous: &[u8],
) -> Result<Done, Refusal> {
    let mut area = [0u8; HANDOVER_SIZE];
    entering::initialise(
        head,
        table,
        identity,
        roll,
        previous,
        &rack_of_one(2),
        &mut area,
    )
}

// What the founded keeper of key 1 leaves to the rack of key 2: its identity, and its roll of no rows.
#[derive(Clone, Copy)]
struct Legacy {
    identity: [u8; 32],
    roll: [u8; BLOCK],
}

fn left() -> Legacy {
    let mut table = [0u8; TABLE];
    let keeper = founded(&mut table, &rack_of_one(1));
    let mut words = [0u8; AREA];
    let head = after(keeper, finalise(keeper, &table, 2, &mut words));
    let identity = head.identity;
    let roll = octets::array_at(&words, HANDOVER_SIZE);
    Legacy { identity, roll }
}

pub fn roll_alone(rt: &impl Print) -> io::Result<()> {
    let legacy = left();
    let mut table = [0u8; TABLE];
    let head = woken(&mut table, 2);
    let told = prepare(head, &mut table, legacy.identity, &legacy.roll, b"");
    say::answered(rt, "roll without previous rack", told.err())
}

// The bundle of an old entry with a roll of one block and of a new entry, both attested and with valid signatures.
fn bundled(roll: &[u8; BLOCK]) -> [u8; BUNDLE] {
    let mut bundle = [0u8; BUNDLE];
    octets::copy_at(&mut bundle, 0, &[1, 0, 3, 1]);
    octets::copy_at(&mut bundle, OLD_HEAD, roll);
    octets::copy_at(&mut bundle, OLD_HEAD + BLOCK, &[1, 0, 3]);
    bundle
}

// The same with a list of no digests for one row.
fn listed(roll: &[u8; BLOCK]) -> [u8; BUNDLE + LIST] {
    let mut bundle = [0u8; BUNDLE + LIST];
    octets::copy_at(&mut bundle, 0, &bundled(roll));
    bundle
}

// The bundle of two old entries with rolls of one block, and a list of no digests for one row of each.
fn both(first: &[u8; BLOCK], second: &[u8; BLOCK]) -> [u8; BOTH] {
    let mut bundle = [0u8; BOTH];
    octets::copy_at(&mut bundle, 0, &[2, 0, 3, 1]);
    octets::copy_at(&mut bundle, OLD_HEAD, first);
    octets::copy_at(&mut bundle, OLD_HEAD + BLOCK, &[1, 3, 1]);
    octets::copy_at(&mut bundle, OLD_HEAD + BLOCK + 3, second);
    octets::copy_at(&mut bundle, OLD_HEAD + 2 * BLOCK + 3, &[1, 0, 3]);
    bundle
}

// The keeper of key 2 is to take over a roll from a rack, and is shown a bundle.
fn activated(
    identity: [u8; 32],
    roll: &[u8; BLOCK],
    previous: &[u8],
    bundle: &[u8],
) -> Option<Refusal> {
    let mut table = [0u8; TABLE];
    let blank = woken(&mut table, 2);
    let head = after(blank, prepare(blank, &mut table, identity, roll, previous));
    handover::activate(head, &table, previous, &rack_of_one(2), bundle).err()
}

// A roll of one row is to come from a roll of none, beside one that has the row and alone.
pub fn lacking(rt: &impl Print) -> io::Result<()> {
    let legacy = left();
    let mut rows = [0u8; TABLE];
    let keeper = with_ledgers(founded(&mut rows, &rack_of_one(1)), &mut rows, 0, 1);
    let roll = rolled(keeper.count, &rows);
    let beside = activated(
        legacy.identity,
        &roll,
        &rack_of_three(),
        &both(&legacy.roll, &roll),
    );
    say::answered(
        rt,
        "an old roll lacking one of our ledgers, which another has",
        beside,
    )?;
    let alone = activated(
        legacy.identity,
        &roll,
        &rack_of_one(1),
        &listed(&legacy.roll),
    );
    say::answered(
        rt,
        "an old roll lacking one of our ledgers, which no other has",
        alone,
    )
}

pub fn empty(rt: &impl Print) -> io::Result<()> {
    let legacy = left();
    let roll = legacy.roll;
    let answer = activated(legacy.identity, &roll, &rack_of_one(1), &bundled(&roll));
    say::answered(rt, "an empty roll hands over to an empty roll", answer)
}
