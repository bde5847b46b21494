// Read, and Append and read, over a head by value and a table as flat bytes.
#![tactic(auto)]

mod reading;

pub use reading::{BOTH, append_and_read, read};
