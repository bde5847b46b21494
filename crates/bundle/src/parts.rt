// The parts of a bundle that are strings of their own.
ghost use Rattle.std.specs.Prelude.{◌≡◌, ◌+◌, ◌≤◌, length};
ghost use Rattle.rules.specs.Bundle.{longest_bundle, old_at, old_roll, new_entries, list_at, digests};

use crate::walks::{first_list, list_at, new_at, next_list, next_old, old_at};
use crate::{LIST_HEAD, OLD_HEAD};

// The roll blocks of old entry i. This and `digests` stay two functions: what they share is one line, over two walks.
#[tactic(auto, using(crate::proofs::Places::old_next, crate::proofs::Places::old_step, crate::proofs::Places::roll_part))]
pub fn old_roll(s: &[u8], i: usize) -> &[u8]
    requires { (old_at s.now (i + 1) ≤ length s.now) × (length s.now ≤ longest_bundle) }
    ensures { result.now ≡ old_roll s.now i }
{
    let at = old_at(s, i);
    let from = at + OLD_HEAD;
    let end = next_old(s, at);
    &s[from..end]
}

// The new entries, pairs of position and marks.
#[tactic(auto, using(crate::proofs::Places::list_first, crate::proofs::Places::new_part))]
pub fn new_entries(s: &[u8]) -> &[u8]
    requires { (list_at s.now 0 ≤ length s.now) × (length s.now ≤ longest_bundle) }
    ensures { result.now ≡ new_entries s.now }
{
    let from = new_at(s) + 1;
    let end = first_list(s);
    &s[from..end]
}

// The entry digests of list j.
#[tactic(auto, using(crate::proofs::Places::list_next, crate::proofs::Places::list_step, crate::proofs::Places::digests_part))]
pub fn digests(s: &[u8], j: usize) -> &[u8]
    requires { (list_at s.now (j + 1) ≤ length s.now) × (length s.now ≤ longest_bundle) }
    ensures { result.now ≡ digests s.now j }
{
    let at = list_at(s, j);
    let from = at + LIST_HEAD;
    let end = next_list(s, at);
    &s[from..end]
}
