// Racks of two, which no keeper enters and none hands over to.
use crate::finals::AREA;
use crate::keepers::{found, founded, woken};
use crate::people::{rack_of_one, rack_of_two};
use crate::say;
use rows::TABLE;
use std::io::Result;

pub fn refused(rt: &impl Print) -> Result<()> {
    let mut table = [0u8; TABLE];
    let blank = woken(&mut table, 1);
    let told = found(blank, &mut table, &rack_of_two());
    say::answered(rt, "a rack of two founded", told.err())?;
    let head = founded(&mut table, &rack_of_one(1));
    let mut area = [0u8; AREA];
    let left = leaving::finalise(head, &table, &rack_of_two(), &mut area);
    say::answered(rt, "a next rack of two", left.err())
}
