// The blocks that a desk writes for the morning report of document 02, M-103, for C: a rack's, and a receipt's from what the desk has at hand.
#![tactic(auto)]

mod racks;
mod receipts_filed;
mod writing;

pub use racks::mahqurith_write_rack_block;
pub use receipts_filed::mahqurith_write_receipt;
