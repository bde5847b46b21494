// A second finalise.
use crate::keepers::{after, founded};
use crate::people::rack_of_one;
use refusals::Refusal;
use rows::TABLE;
use rules::{Done, Head};
use std::io;

// The bytes of a finalise statement and of the longest roll.
pub const AREA: usize = 3713;

// A finalise that names the rack of key n.
pub fn finalise(
    head: Head,
    table: &[u8; TABLE],
    n: u8,
    area: &mut [u8; AREA],
) -> Result<Done, Refusal> {
    leaving::finalise(head, table, &rack_of_one(n), area)
}

pub fn twice(rt: &impl Print) -> io::Result<()> {
    let mut table = [0u8; TABLE];
    let head = founded(&mut table, &rack_of_one(1));
    let mut first = [0u8; AREA];
    let once = after(head, finalise(head, &table, 2, &mut first));
    let mut second = [0u8; AREA];
    let (number, repeat) = match finalise(once, &table, 3, &mut second) {
        Ok(done) => (refusals::ACCEPTED, done.repeat),
        Err(refusal) => (refusal.number(), false),
    };
    let repeated = if repeat { "a repeat" } else { "no repeat" };
    let bytes = if first == second {
        "the same bytes"
    } else {
        "other bytes"
    };
    println!(rt; "second finalise naming another rack: {number}, {repeated}, {bytes}")
}
