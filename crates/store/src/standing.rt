// One block of an area: whether it is unused, damaged, or the one asked for, and whether it is newer than what was found.
ghost use Rattle.std.specs.Prelude.{◌≡◌, ◌+◌, ◌*◌, ◌≤◌, length};
ghost use Rattle.checks.specs.Check.{block_bytes};
ghost use Rattle.cabinet.specs.Block.{unused, damaged};
ghost use Rattle.store.specs.Area.{block_at, newer};
ghost use Rattle.store.specs.Read.{answers};

use crate::Newest;
use cabinet::{HEIGHT_PLACE, TAIL_PLACE, is_damaged, is_sound};
use checks::BLOCK;
use octets::{array_at, is_same, is_zero, number_at};
use rows::LABEL;

// Block i of an area.
pub fn block_at(area: &[u8], i: usize) -> &[u8; BLOCK]
    requires { block_bytes * i + block_bytes ≤ length area.now }
    ensures { result.now ≡ block_at area.now i }
{
    &area.as_chunks().0[i]
}

#[tactic(auto, unfolding(cabinet::specs::Block::unused))]
pub fn unused_at(area: &[u8], i: usize) -> bool
    requires { block_bytes * i + block_bytes ≤ length area.now }
    ensures { result ≡ unused (block_at area.now i) }
{
    is_zero(block_at(area, i))
}

pub fn damaged_at(area: &[u8], i: usize) -> bool
    requires { block_bytes * i + block_bytes ≤ length area.now }
    ensures { result ≡ damaged (block_at area.now i) }
{
    is_damaged(block_at(area, i))
}

#[tactic(auto, unfolding(crate::specs::Read::answers, cabinet::specs::Block::label_in, cabinet::specs::Block::height_in))]
fn is_asked(b: &[u8; BLOCK], label: &[u8], height: u64) -> bool
    ensures { result ≡ answers label.now height b.now }
{
    number_at(b, HEIGHT_PLACE) == height && is_same(&b[..LABEL], label) && is_sound(b)
}

pub fn answers_at(area: &[u8], i: usize, label: &[u8], height: u64) -> bool
    requires { block_bytes * i + block_bytes ≤ length area.now }
    ensures { result ≡ answers label.now height (block_at area.now i) }
{
    is_asked(block_at(area, i), label, height)
}

fn newer(b: &[u8; BLOCK], label: &[u8], found: Newest) -> Newest
    ensures { result ≡ newer label.now found b.now }
{
    let height = number_at(b, HEIGHT_PLACE);
    if height <= found.height {
        return found;
    }
    if !is_same(&b[..LABEL], label) {
        return found;
    }
    Newest {
        height,
        tail: array_at(b, TAIL_PLACE),
    }
}

pub fn newer_at(area: &[u8], i: usize, label: &[u8], found: Newest) -> Newest
    requires { block_bytes * i + block_bytes ≤ length area.now }
    ensures { result ≡ newer label.now found (block_at area.now i) }
{
    newer(block_at(area, i), label, found)
}
