// The record that a caller lends: the ledger table as rows, read once into the core's flat bytes; what a call leaves, written back where it changed.
#![tactic(auto)]

mod flattening;
mod leaving;
mod lent;
mod other;

pub use flattening::{flat, rows_of};
pub use leaving::{leave, leave_moved, leave_named};
pub use lent::{flat_in, rows_clear, rows_out, rows_typed};
pub use other::other_length;
use rows::{LABEL, TAIL};
use rules::{Answer, Head};

// A ledger's row.
#[repr(C)]
#[derive(Clone, Copy)]
pub struct Row {
    pub label: [u8; LABEL],
    pub tail: [u8; TAIL],
    pub height: u64,
}

// From which place to before which one. It stands in for a `Range`, which is not `Copy`.
#[derive(Clone, Copy)]
pub struct Places {
    pub start: usize,
    pub end: usize,
}

// What a call leaves beside the table's bytes: its answer, the head where that is another one, and the rows that are others.
#[derive(Clone, Copy)]
pub struct Left {
    pub answer: Answer,
    pub head: Option<Head>,
    pub rows: Places,
}

// What a keeper is asked, at fixed sizes; each call reads what it needs.
#[repr(C)]
#[derive(Clone, Copy)]
pub struct Asked {
    pub key: [u8; 32],
    pub identity: [u8; 32],
    pub label: [u8; LABEL],
    pub entry: [u8; TAIL],
    pub nonce: [u8; LABEL],
    pub expected: u64,
    pub number: u64,
    pub list: u8,
}
