// The keeper's calls on ledgers, and Wake, on a head and rows that the caller lends: what a box's firmware links.
#![tactic(auto)]

mod ledger;
mod many;
mod thin;
mod waking;

pub use many::mahqurith_append_many;
pub use thin::{mahqurith_append, mahqurith_append_and_read, mahqurith_new, mahqurith_read};
pub use waking::mahqurith_wake;
