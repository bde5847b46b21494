// The calls by which one rack follows another, on a head and rows that the caller lends: what a box's firmware links.
#![tactic(auto)]

mod activating;
mod finalising;
mod messages;
mod passing;
mod status;

pub use activating::mahqurith_activate;
pub use finalising::mahqurith_finalise;
pub use passing::{mahqurith_bytes_to_check, mahqurith_initialise};
