// The one block of a label and a height: where the store answers and there is one alone, it is that block.
ghost use Rattle.std.specs.Prelude.{◌≡◌, true, false, ℕ, ◌+◌, ◌*◌, ◌≤◌, ◌<◌, length, IfSome, MatchOption};
ghost use Rattle.checks.specs.Check.{block_bytes};
ghost use Rattle.listing.specs.Leading.{has_both};

use cabinet::HEIGHT_PLACE;
use checks::BLOCK;
use octets::{is_same, number_at};
use rows::LABEL;

// Whether block i has a label and a height.
fn has_both(store: &[u8], i: usize, label: &[u8], height: u64) -> bool
    requires { block_bytes * i + block_bytes ≤ length store.now }
    ensures { result ≡ has_both store.now label.now height i }
{
    let from = BLOCK * i;
    number_at(store, from + HEIGHT_PLACE) == height && is_same(&store[from..from + LABEL], label)
}

// The first block from a place on that has a label and a height.
fn next_block(store: &[u8], label: &[u8], height: u64, from: usize, n: usize) -> Option<usize>
    requires { block_bytes * n ≤ length store.now }
    ensures { MatchOption result ((j : ℕ) → from ≤ j → j < n → has_both store.now label.now height j ≡ false)
        (λ i. (from ≤ i) × (i < n) × (has_both store.now label.now height i ≡ true)
        × ((j : ℕ) → from ≤ j → j < i → has_both store.now label.now height j ≡ false)) }
{
    (from..n).find(|i| has_both(store, *i, label, height))
}

// The only one of the first n blocks that has a label and a height; none where more than one has them.
pub fn only_block(store: &[u8], label: &[u8], height: u64, n: usize) -> Option<usize>
    requires { block_bytes * n ≤ length store.now }
    ensures { IfSome result (λ i. (i < n) × ((j : ℕ) → j < n → has_both store.now label.now height j ≡ true → j ≡ i)) }
{
    let first = next_block(store, label, height, 0, n)?;
    if next_block(store, label, height, first + 1, n).is_some() {
        return None;
    }
    Some(first)
}
