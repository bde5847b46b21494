// A keeper's record: whether it is sound, what a call asks of it first, and Wake.
#![tactic(auto)]

mod giving;
mod ready;
mod soundness;
mod waking;

pub use giving::give;
pub use ready::{check_lent, check_ready, unready};
pub use soundness::{ACTIVE, BLANK, FINALISED, PREPARED, is_sound};
pub use waking::{wake, woken};
