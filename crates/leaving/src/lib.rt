// Finalise: a keeper's last call, over its head by value and its table as flat bytes.
#![tactic(auto)]

mod finalising;
mod words;

pub use finalising::{FINALISE_SIZE, finalise};
