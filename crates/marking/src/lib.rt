// The entry of a bundle that a chip is asked about, for C: its position in the rack, and its marks set.
#![tactic(auto)]

mod calls;
mod entry;

pub use calls::{mahqurith_bundle_mark, mahqurith_bundle_position};

// An answer, and the position of an entry: zero where the answer is a refusal.
#[repr(C)]
#[derive(Clone, Copy)]
pub struct Position {
    pub number: u32,
    pub position: u8,
}
