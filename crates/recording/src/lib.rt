// Append many, over a head by value and a table as flat bytes.
#![tactic(auto)]

mod recording;
mod tests;

pub use recording::append_many;

// The most entries of a list.
pub const MOST_ENTRIES: usize = 32;
