// A roll as it travels, in blocks of 512 bytes: read, written, and refused where the layout is broken.
#![tactic(auto)]

mod block;
mod digest;
mod gather;
mod place;
mod read;
mod standing;
mod test;
mod write;

pub use digest::digest_in;
pub use gather::take_rows;
pub use place::{count_in, height_in, label_in, row_at, tail_in};
pub use read::read_roll;
pub use test::is_roll;
pub use write::{put_roll, roll_bytes, write_roll};
