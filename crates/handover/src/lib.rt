// Taking over from an earlier rack: Activate, and the bytes that the marks of its bundle speak of.
#![tactic(auto)]

mod activating;
mod asking;
mod checking;
mod descent;
mod keeping;
mod racks;

pub use activating::activate;
pub use checking::bytes_to_check;
