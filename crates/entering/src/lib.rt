// Initialise: a keeper founds a rack, or prepares to take over a roll.
#![tactic(auto)]

mod asked;
mod entry;
mod heads;

pub use entry::initialise;
