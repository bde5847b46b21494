// Entries of a position in a rack and marks: whether a list of them keeps the rules, and the refusal of their marks.
ghost use Rattle.std.specs.Prelude.{◌≡◌, ◌&&◌, ◌/◌, ◌<◌, length, ltb, leb};
ghost use Rattle.refusals.specs.Order.{first};
ghost use Rattle.refusals.specs.Refused.{answer_of, refusal_number};
ghost use Rattle.marks.specs.{marks_fit};
ghost use Rattle.marks.specs.Entries.{mark_tests, marks_tests, answer_with, entries_fit, pair_position, pair_marks};

use crate::{is_attested, is_marks, is_valid};
use refusals::{ACCEPTED, Refusal};

// Whether an entry may stand in a list for a rack of n, where `low` is the lowest position that comes after the entries before it.
pub fn entry_fits(position: u8, marks: u8, n: usize, low: usize) -> bool
    ensures { result ≡ (ltb position n && leb low position && marks_fit marks) }
{
    let place = usize::from(position);
    place < n && low <= place && is_marks(marks)
}

// Whether pairs of position and marks are a list of entries for a rack of n.
pub fn entries_fit(s: &[u8], n: usize) -> bool
    ensures { result ≡ entries_fit n (pair_position s.now) (pair_marks s.now) (length s.now / 2) }
{
    let mut low: usize = 0;
    for pair in s.chunks_exact(2) {
        if !entry_fits(pair[0], pair[1], n, low) {
            return false;
        }
        low = usize::from(pair[0]) + 1;
    }
    true
}

// Tests one entry's marks: the key is attested, and its signature is valid; if it is not, the refusal is the one given.
#[tactic(auto, unfolding(refusals::specs::Order::first, crate::specs::Entries::mark_tests))]
pub fn check_marks(marks: u8, invalid: Refusal) -> Result<(), Refusal>
    ensures { answer_of result ≡ first (mark_tests (refusal_number invalid) marks) }
{
    if !is_attested(marks) {
        return Err(Refusal::NotAttested);
    }
    if !is_valid(marks) {
        return Err(invalid);
    }
    Ok(())
}

// Tests the marks of pairs of position and marks, one pair after the other.
pub fn check_all(s: &[u8], invalid: Refusal) -> Result<(), Refusal>
    ensures { answer_of result ≡ first (marks_tests (refusal_number invalid) (pair_marks s.now) (length s.now / 2)) }
{
    for pair in s.chunks_exact(2) {
        check_marks(pair[1], invalid)?;
    }
    Ok(())
}

// The answer of a test of marks, with `number` in the place of that of a signature that is not valid.
pub fn answer_with(tested: Result<(), Refusal>, number: u32) -> u32
    ensures { result ≡ answer_with number (answer_of tested) }
{
    match tested {
        Ok(()) => ACCEPTED,
        Err(Refusal::SignatureNotValid) => number,
        Err(refusal) => refusal.number(),
    }
}

// The refusal of one entry's marks: the key is not attested, or its signature is not valid, which has the number given.
pub fn mark_refusal(marks: u8, number: u32) -> u32
    ensures { result ≡ first (mark_tests number marks) }
{
    answer_with(check_marks(marks, Refusal::SignatureNotValid), number)
}

// The first refusal of the marks of pairs of position and marks.
pub fn unmarked(s: &[u8], number: u32) -> u32
    requires { 0 < number }
    ensures { result ≡ first (marks_tests number (pair_marks s.now) (length s.now / 2)) }
{
    answer_with(check_all(s, Refusal::SignatureNotValid), number)
}
