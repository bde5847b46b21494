// The tests of the marks of a bundle's entries.
ghost use Rattle.std.specs.Prelude.{◌≡◌, ◌≤◌, ◌<◌, length};
ghost use Rattle.refusals.specs.Order.{first};
ghost use Rattle.refusals.specs.Refused.{answer_of, refusal_number};
ghost use Rattle.marks.specs.Entries.{marks_tests, pair_marks};
ghost use Rattle.rules.specs.Bundle.{longest_bundle, old_count, old_marks, new_at, new_count, new_entries, list_at};

use crate::parts::new_entries;
use crate::walks::{next_old, old_count};
use marks::{answer_with, check_all, check_marks};
use refusals::Refusal;

// Tests the marks of the old entries, one entry after the other; `invalid` is the refusal of a signature that is not valid.
pub fn check_old_marks(s: &[u8], invalid: Refusal) -> Result<(), Refusal>
    requires { (new_at s.now ≤ length s.now) × (length s.now ≤ longest_bundle) }
    ensures { answer_of result ≡ first (marks_tests (refusal_number invalid) (old_marks s.now) (old_count s.now)) }
{
    let mut at = 1;
    for _ in 0..old_count(s) {
        check_marks(s[at + 1], invalid)?;
        at = next_old(s, at);
    }
    Ok(())
}

// Tests the marks of the new entries, likewise.
pub fn check_new_marks(s: &[u8], invalid: Refusal) -> Result<(), Refusal>
    requires { (list_at s.now 0 ≤ length s.now) × (length s.now ≤ longest_bundle) }
    ensures { answer_of result ≡ first (marks_tests (refusal_number invalid) (pair_marks (new_entries s.now)) (new_count s.now)) }
{
    check_all(new_entries(s), invalid)
}

// The first refusal of the old entries' marks; a signature that is not valid has the number given.
pub fn unmarked_old(s: &[u8], number: u32) -> u32
    requires { (0 < number) × (new_at s.now ≤ length s.now) × (length s.now ≤ longest_bundle) }
    ensures { result ≡ first (marks_tests number (old_marks s.now) (old_count s.now)) }
{
    answer_with(check_old_marks(s, Refusal::SignatureNotValid), number)
}

// The first refusal of the new entries' marks, likewise.
pub fn unmarked_new(s: &[u8], number: u32) -> u32
    requires { (0 < number) × (list_at s.now 0 ≤ length s.now) × (length s.now ≤ longest_bundle) }
    ensures { result ≡ first (marks_tests number (pair_marks (new_entries s.now)) (new_count s.now)) }
{
    answer_with(check_new_marks(s, Refusal::SignatureNotValid), number)
}
