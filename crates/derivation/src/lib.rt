// Whether one old roll and the digests listed for it lead to this keeper's roll.
#![tactic(auto)]

mod growth;
mod old;

pub use growth::grown;
pub use old::{is_led_to, is_through, old_row};
