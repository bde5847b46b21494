// Racks: read, written, digested, and what their keys are asked for.
#![tactic(auto)]

mod digest;
mod keys;
mod numbers;
mod reading;
mod writing;

pub use digest::rack_digest;
pub use keys::{KEY_BYTES, Keys, MOST, is_member, is_rising};
pub use numbers::{is_of_two, majority};
pub use reading::{is_rack, read_rack};
pub use writing::write_rack;
