// Strings of bytes: the one way to put one into another, to compare them, to cut them and to read and write numbers in them.
#![tactic(auto)]

mod compare;
mod copy;
mod number;

pub use compare::{is_before, is_same, is_zero};
pub use copy::{array_at, copy_at};
pub use number::{number_at, put_number, put_word, word_at};
