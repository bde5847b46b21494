// Handover bundles: whether a string is one, where its parts stand, and the tests of its marks.
#![tactic(auto)]

mod fitting;
mod lists;
mod marked;
mod parts;
mod rolls;
mod walks;

pub use fitting::is_bundle;
pub use lists::EntryList;
pub use marked::{check_new_marks, check_old_marks, unmarked_new, unmarked_old};
pub use parts::{digests, new_entries, old_roll};
pub use rolls::OldRolls;
pub use walks::{
    added_at, first_list, list_at, new_at, new_count, next_list, next_old, old_at, old_count,
    old_end,
};

// The bytes of the longest bundle, and of a block of a roll.
pub const LONGEST: usize = 65536;

pub const BLOCK: usize = 512;

// The most blocks of a roll, and the most digests of a list.
pub const MOST_BLOCKS: u8 = 7;

pub const MOST_ADDED: usize = 64;

// What stands before an old entry's blocks, a new entry, and what stands before a list's digests.
pub const OLD_HEAD: usize = 3;

pub const PAIR: usize = 2;

pub const LIST_HEAD: usize = 2;
