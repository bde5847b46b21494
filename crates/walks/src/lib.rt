// The calls on a head and rows that a caller lends, whatever their rule: one body for those that change rows, one for those that change the head alone, and one
// for those that change nothing.
#![tactic(auto)]

mod changing;
mod looking;
mod turning;

// Three traits and three functions stay, since C lends the rows, and the head, either to be written or not. That they begin alike stays too: tried, a function
// that gives the table's bytes copies them, at 370 instructions and 3,300 bytes of stack a call.
pub use changing::{ChangesRows, change_rows};
pub use looking::{Looks, look};
pub use turning::{ChangesHead, change_head};
