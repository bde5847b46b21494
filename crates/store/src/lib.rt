// The cabinet store of document 02, M-104: texts in blocks of 512 bytes in a lent area, appended and read back.
#![tactic(auto)]

mod answers;
mod appending;
mod reading;
mod scan;
mod standing;

pub use appending::mahqurith_store_append;
pub use reading::mahqurith_store_read;
use rows::{LABEL, TAIL};
pub use scan::{first_answer, is_area};

// The blocks of an area, at most.
pub const MOST_BLOCKS: usize = 128;

// Height and tail of a label's first block of greatest height; zeros for a label that the store has not.
#[derive(Clone, Copy)]
pub struct Newest {
    pub height: u64,
    pub tail: [u8; TAIL],
}

// What is asked: a label, and the height to append at or to read.
#[repr(C)]
#[derive(Clone, Copy)]
pub struct Place {
    pub label: [u8; LABEL],
    pub height: u64,
}

// What a call answers. Fields that an answer does not name are zero.
#[repr(C)]
#[derive(Clone, Copy)]
pub struct Answer {
    pub number: u32,
    pub written: usize,
    pub height: u64,
}
