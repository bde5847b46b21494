// The morning report of document 02, M-103, printed into a lent area.
#![tactic(auto)]

// The texts are put by hand, which stays: a `Display` promises nothing where a buffer is full, and `print` promises the whole text on every call.

mod digits;
mod page;
mod printing;

pub use printing::print;
