// The labels of the old rolls in order, the search for one, and the highest old row of each.
#![tactic(auto)]

mod labels;
mod old;
mod search;

pub use labels::next_label;
pub use old::{highest, old_row, roll_at};
pub use search::find_in;
