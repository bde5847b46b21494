// What the store answers, and whether it leads from each old row to the highest of its label.
#![tactic(auto)]

mod answers;
mod early;
mod leading;
mod once;

pub use answers::digest_for;
pub use leading::all_led;
