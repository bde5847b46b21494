// Append, over a head by value and a table as flat bytes; its parts serve Append and read and Append many too.
#![tactic(auto)]

mod appending;
mod table;

pub use appending::{append, check_append, enter};
pub use table::{Shown, move_row};
