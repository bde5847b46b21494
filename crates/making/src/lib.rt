// New, over a head by value and a table as flat bytes.
#![tactic(auto)]

mod companies;
mod making;
mod table;

pub use making::new;
