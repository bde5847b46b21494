// Blocks of the morning report of document 02, M-103: racks and receipts, which are damaged, and what the desk finds of a receipt.
#![tactic(auto)]

mod block;
mod judging;

pub use block::sort_of;
use checks::{CHECKED, DIGEST};
pub use judging::judged;
use rows::LABEL;
use statement::READING_SIZE;

// What a block is.
#[derive(Clone, Copy)]
pub enum Sort {
    Damaged,
    Rack,
    Receipt,
}

// The first byte of a rack's block, and of a receipt's: they stay numbers, which are bytes of the layout.
pub const RACK: u8 = 1;

pub const RECEIPT: u8 = 2;

// Where the rack stands in its block.
pub const RACK_PLACE: usize = 1;

// Where each part of a receipt stands in its block.
const ASKED_PLACE: usize = 1;

pub const LABEL_PLACE: usize = ASKED_PLACE + 1;

pub const NONCE_PLACE: usize = LABEL_PLACE + LABEL;

pub const IDENTITY_PLACE: usize = NONCE_PLACE + LABEL;

pub const LENGTH_PLACE: usize = IDENTITY_PLACE + DIGEST;

const STATEMENT_PLACE: usize = LENGTH_PLACE + 1;

pub const COUNT_PLACE: usize = STATEMENT_PLACE + READING_SIZE;

const PAIRS_PLACE: usize = COUNT_PLACE + 1;
