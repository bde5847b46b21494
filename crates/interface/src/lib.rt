// The calls for C: the hash, the digests, the layouts and the verdict, as `include/mahqurith.h` declares them.
#![tactic(auto)]

mod digests;
mod hashing;
mod judging;
mod kinds;
mod racks;
mod reading;
mod rolls;
mod statements;

use desk::NONCE;
pub use digests::{mahqurith_rack_digest, mahqurith_tail_after};
pub use hashing::mahqurith_sha256;
pub use judging::mahqurith_verdict;
use rack::KEY_BYTES;
pub use racks::{mahqurith_read_rack, mahqurith_write_rack};
pub use rolls::{mahqurith_read_roll, mahqurith_write_roll};
use statement::{DIGEST, LABEL};
pub use statements::{mahqurith_read_statement, mahqurith_write_statement};
use table::Row;

#[repr(C)]
#[derive(Clone, Copy)]
pub struct Key {
    pub bytes: [u8; KEY_BYTES],
}

// A rack taken apart: how many keys, and the fifteen places, of which the first so many are keys.
#[repr(C)]
#[derive(Clone, Copy)]
pub struct Rack {
    pub count: u8,
    pub keys: [Key; rack::MOST],
}

// A roll taken apart: how many rows, and the 63 places, of which the first so many are rows.
#[repr(C)]
#[derive(Clone, Copy)]
pub struct Roll {
    pub count: u8,
    pub rows: [Row; rows::MOST],
}

// A statement; the fields that its kind has not are zero.
#[repr(C)]
#[derive(Clone, Copy)]
pub struct Plain {
    pub kind: u8,
    pub identity: [u8; DIGEST],
    pub own: [u8; DIGEST],
    pub other: [u8; DIGEST],
    pub roll: [u8; DIGEST],
    pub label: [u8; LABEL],
    pub tail: [u8; DIGEST],
    pub nonce: [u8; NONCE],
    pub height: u64,
}

// The answer of a reading, and the contents: zeros where the answer is a refusal.
#[repr(C)]
#[derive(Clone, Copy)]
pub struct RackRead {
    pub number: u32,
    pub rack: Rack,
}

#[repr(C)]
#[derive(Clone, Copy)]
pub struct RollRead {
    pub number: u32,
    pub roll: Roll,
}

#[repr(C)]
#[derive(Clone, Copy)]
pub struct StatementRead {
    pub number: u32,
    pub statement: Plain,
}
