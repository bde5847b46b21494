// What a block is: a rack, a receipt, or damaged.
ghost use Rattle.std.specs.Prelude.{◌≡◌};
ghost use Rattle.receipts.specs.Block.{rack_sound, receipt_sound, sort};
ghost use Rattle.receipts.specs.Sorts.{sort_number};

use crate::{
    COUNT_PLACE, LENGTH_PLACE, PAIRS_PLACE, RACK, RACK_PLACE, RECEIPT, STATEMENT_PLACE, Sort,
};
use checks::{BLOCK, CHECKED, is_checked};
use octets::is_zero;
use rack::{KEY_BYTES, MOST, is_rack};
use statement::READING_SIZE;

// Whether a block is a rack's, with zeros behind the rack.
#[tactic(auto, unfolding(crate::specs::Block::rack_sound))]
fn is_rack_block(b: &[u8; BLOCK]) -> bool
    ensures { result ≡ rack_sound b.now }
{
    let n = usize::from(b[RACK_PLACE]);
    if b[0] != RACK || MOST < n {
        return false;
    }
    let end = RACK_PLACE + 1 + KEY_BYTES * n;
    is_rack(&b[RACK_PLACE..end]) && is_zero(&b[end..CHECKED])
}

// Whether a block is a receipt's, with zeros in the places that it does not use.
#[tactic(auto, unfolding(crate::specs::Block::receipt_sound))]
fn is_receipt_block(b: &[u8; BLOCK]) -> bool
    ensures { result ≡ receipt_sound b.now }
{
    let n = usize::from(b[LENGTH_PLACE]);
    let count = usize::from(b[COUNT_PLACE]);
    if b[0] != RECEIPT || READING_SIZE < n || MOST < count {
        return false;
    }
    let behind = PAIRS_PLACE + 2 * count;
    is_zero(&b[STATEMENT_PLACE + n..COUNT_PLACE]) && is_zero(&b[behind..CHECKED])
}

// What a block is.
#[tactic(auto, unfolding(crate::specs::Block::sort, crate::specs::Block::whole))]
pub fn sort_of(b: &[u8]) -> Sort
    ensures { sort_number result ≡ sort b.now }
{
    let Ok(block) = <&[u8; BLOCK]>::try_from(b) else {
        return Sort::Damaged;
    };
    if !is_checked(block) {
        Sort::Damaged
    } else if is_rack_block(block) {
        Sort::Rack
    } else if is_receipt_block(block) {
        Sort::Receipt
    } else {
        Sort::Damaged
    }
}
