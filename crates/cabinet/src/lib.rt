// A block of the cabinet store of document 02, M-104: whether it is damaged, and one made.
#![tactic(auto)]

mod block;

pub use block::{is_damaged, is_sound, made_block};
use checks::{CHECKED, DIGEST};
use rows::{HEIGHT, LABEL, TAIL};

// Where each part of a block stands.
pub const HEIGHT_PLACE: usize = LABEL;

pub const DIGEST_PLACE: usize = HEIGHT_PLACE + HEIGHT;

pub const TAIL_PLACE: usize = DIGEST_PLACE + DIGEST;

pub const LENGTH_PLACE: usize = TAIL_PLACE + TAIL;

const TEXT_PLACE: usize = LENGTH_PLACE + 2;

// The bytes of a text, at most.
pub const MOST_TEXT: usize = CHECKED - TEXT_PLACE;
