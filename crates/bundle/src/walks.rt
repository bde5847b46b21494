// Where the parts of a bundle stand: each place is found from the one before it. How far a string is known to reach stays in the clauses: the walks serve
// strings that are tested part by part, and need another fact each.
ghost use Rattle.std.specs.Prelude.{◌≡◌, ◌+◌, ◌*◌, ◌≤◌, ◌<◌, leb, length};
ghost use Rattle.std.specs.Bool.{then_some};
ghost use Rattle.roll.specs.Blocks.{block_bytes};
ghost use Rattle.statement.specs.Kinds.{digest_bytes};
ghost use Rattle.rules.specs.Bundle.{longest_bundle, byte, old_count, old_at, new_at, new_count, two_byte, list_at};

use crate::{BLOCK, LIST_HEAD, OLD_HEAD, PAIR};
use octets::array_at;
use rows::DIGEST;

// How many old entries a bundle has.
pub fn old_count(s: &[u8]) -> usize
    requires { 0 < length s.now }
    ensures { result ≡ old_count s.now }
{
    s[0] as usize
}

// Where the old entry ends that begins at a place.
pub fn next_old(s: &[u8], at: usize) -> usize
    requires { (at + 3 ≤ length s.now) × (length s.now ≤ longest_bundle) }
    ensures { result ≡ at + (3 + block_bytes * byte s.now (at + 2)) }
{
    let blocks = s[at + 2] as usize;
    at + (OLD_HEAD + BLOCK * blocks)
}

// Where so many old entries end, if they end within the string.
pub fn old_end(s: &[u8], count: usize) -> Option<usize>
    requires { length s.now ≤ longest_bundle }
    ensures { result ≡ then_some (leb (old_at s.now count) (length s.now)) (old_at s.now count) }
{
    let mut at = 1;
    for _ in 0..count {
        if s.len() < at + OLD_HEAD {
            return None;
        }
        at = next_old(s, at);
    }
    (at <= s.len()).then_some(at)
}

// Where old entry i begins, or the old entries end.
pub fn old_at(s: &[u8], i: usize) -> usize
    requires { (old_at s.now i ≤ length s.now) × (length s.now ≤ longest_bundle) }
    ensures { result ≡ old_at s.now i }
{
    old_end(s, i).unwrap()
}

// Where the new entries begin, with their count.
pub fn new_at(s: &[u8]) -> usize
    requires { (new_at s.now ≤ length s.now) × (length s.now ≤ longest_bundle) }
    ensures { result ≡ new_at s.now }
{
    let count = old_count(s);
    old_at(s, count)
}

// How many new entries a bundle has.
pub fn new_count(s: &[u8]) -> usize
    requires { (new_at s.now < length s.now) × (length s.now ≤ longest_bundle) }
    ensures { result ≡ new_count s.now }
{
    let at = new_at(s);
    s[at] as usize
}

// The two-byte count at a place.
pub fn added_at(s: &[u8], at: usize) -> usize
    requires { at + 2 ≤ length s.now }
    ensures { (result ≡ two_byte s.now at) × (result < 65536) }
{
    u16::from_be_bytes(array_at(s, at)) as usize
}

// Where the list ends that begins at a place.
pub fn next_list(s: &[u8], at: usize) -> usize
    requires { (at + 2 ≤ length s.now) × (length s.now ≤ longest_bundle) }
    ensures { result ≡ at + (2 + digest_bytes * two_byte s.now at) }
{
    at + (LIST_HEAD + DIGEST * added_at(s, at))
}

// Where the first list begins, behind the new entries.
pub fn first_list(s: &[u8]) -> usize
    requires { (new_at s.now < length s.now) × (length s.now ≤ longest_bundle) }
    ensures { result ≡ list_at s.now 0 }
{
    let at = new_at(s);
    let count = s[at] as usize;
    at + (1 + PAIR * count)
}

// Where list j of entry digests begins, or the lists end. The place stays beside the loop: the next one is read at it.
pub fn list_at(s: &[u8], j: usize) -> usize
    requires { (list_at s.now j ≤ length s.now) × (length s.now ≤ longest_bundle) }
    ensures { result ≡ list_at s.now j }
{
    let mut at = first_list(s);
    for _ in 0..j {
        at = next_list(s, at);
    }
    at
}
