// What Activate and the maker both ask of a bundle's entries: that they have rolls, that they are enough, and their marks.
#![tactic(auto)]

mod asking;
mod rolls;

pub use asking::check_attended;
pub use rolls::rolls_hold;
