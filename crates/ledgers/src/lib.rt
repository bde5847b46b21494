// What the calls on a keeper's ledgers share: the search for a ledger's row, and receipts.
#![tactic(auto)]

mod receipts;
mod search;

pub use receipts::receipt;
pub use search::seek;
