// A night's blocks counted for the morning report of document 02, M-103: at most 63 lines, the nearest rack and the totals, from one block to the next.
#![tactic(auto)]

mod lines;
mod passing;
mod racks;
mod stepping;

use checks::DIGEST;
use rack::{KEY_BYTES, MOST};
use rows::LABEL;

// The labels that have a line, at most.
pub const MOST_LABELS: usize = 63;

// The bytes of the longest rack.
pub const LONGEST_RACK: usize = 1 + KEY_BYTES * MOST;

// The line of a label: how many of its receipts were accepted and refused, and the highest accepted height, 0 where none was accepted.
#[derive(Clone, Copy)]
pub struct Line {
    pub label: [u8; LABEL],
    pub accepted: u64,
    pub refused: u64,
    pub top: u64,
}

// How many blocks there were, and what those were that have no line.
#[derive(Clone, Copy)]
pub struct Totals {
    pub blocks: u64,
    pub racks: u64,
    pub over: u64,
    pub damaged: u64,
}

// The nearest undamaged rack before, by its size and its digest; the size is 0 where there is none. The buffer and its size stay two fields, and size 0
// no Option: `nearest_rack` and `start` of specs/ speak of them.
#[derive(Clone, Copy)]
pub struct Nearest {
    pub rack: [u8; LONGEST_RACK],
    pub size: usize,
    pub digest: [u8; DIGEST],
}

// A night as far as its blocks are counted: the first so many lines are those of the known labels. The count and the lines stay two fields:
// `Kept` and `printed` of specs/ speak of them.
#[derive(Clone, Copy)]
pub struct Night {
    pub totals: Totals,
    pub known: usize,
    pub lines: [Line; MOST_LABELS],
    pub nearest: Nearest,
}
