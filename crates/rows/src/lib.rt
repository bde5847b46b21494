// A ledger's row, the table of rows, the search in it, and the digests of both. Rows stand one behind the other in a string of bytes.
#![tactic(auto)]

mod digest;
mod order;
mod parts;
mod row;
mod search;
mod table;

pub use digest::{appended, roll_digest};
pub use order::{is_label_before, parted};
pub use parts::{height_at, label_at, tail_at};
pub use row::{is_next, row_holds};
pub use search::find;
pub use table::rows_fit;

// The bytes of a digest; a tail is one.
pub const DIGEST: usize = 32;

// The bytes of a row's parts, and of a row.
pub const LABEL: usize = 16;

pub const TAIL: usize = DIGEST;

pub const HEIGHT: usize = 8;

pub const ROW: usize = LABEL + TAIL + HEIGHT;

// The rows and the bytes of a table.
pub const MOST: usize = 63;

pub const TABLE: usize = MOST * ROW;

// The greatest height.
pub const TOP: u64 = 4294967295;
