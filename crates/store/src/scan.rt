// The blocks of an area in turn: the first unused, whether one is damaged, the first that answers, the label's newest.
ghost use Rattle.std.specs.Prelude.{◌≡◌, ltb, ◌*◌, ◌≤◌, length};
ghost use Rattle.checks.specs.Check.{block_bytes};
ghost use Rattle.store.specs.Area.{area_right, among, first_unused, first_damaged, newest};
ghost use Rattle.store.specs.Read.{first_answer};

use crate::standing::{answers_at, damaged_at, newer_at, unused_at};
use crate::{MOST_BLOCKS, Newest};
use checks::BLOCK;
use rows::TAIL;

// Whether an area is whole blocks, and not too many.
#[tactic(auto, unfolding(crate::specs::Area::area_right, crate::specs::Area::blocks))]
pub fn is_area(area: &[u8]) -> bool
    ensures { result ≡ area_right area.now }
{
    area.len() % BLOCK == 0 && area.len() / BLOCK <= MOST_BLOCKS
}

pub fn first_unused(area: &[u8], n: usize) -> Option<usize>
    requires { block_bytes * n ≤ length area.now }
    ensures { result ≡ among n (first_unused area.now n) }
{
    (0..n).find(|i| unused_at(area, *i))
}

pub fn has_damaged(area: &[u8], n: usize) -> bool
    requires { block_bytes * n ≤ length area.now }
    ensures { result ≡ ltb (first_damaged area.now n) n }
{
    (0..n).any(|i| damaged_at(area, i))
}

// The first of n blocks that answers for a label and a height.
pub fn first_answer(area: &[u8], label: &[u8], height: u64, n: usize) -> Option<usize>
    requires { block_bytes * n ≤ length area.now }
    ensures { result ≡ among n (first_answer area.now label.now height n) }
{
    (0..n).find(|i| answers_at(area, *i, label, height))
}

pub fn newest(area: &[u8], label: &[u8], n: usize) -> Newest
    requires { block_bytes * n ≤ length area.now }
    ensures { result ≡ newest area.now label.now n }
{
    let mut found = Newest {
        height: 0,
        tail: [0u8; TAIL],
    };
    for i in 0..n {
        found = newer_at(area, i, label, found);
    }
    found
}
