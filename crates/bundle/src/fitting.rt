// Whether a string is a bundle.
ghost use Rattle.std.specs.Prelude.{◌≡◌, ◌*◌, ◌≤◌, ◌<◌, length};
ghost use Rattle.rows.specs.Sizes.{most_rows};
ghost use Rattle.rules.specs.Bundle.{longest_bundle, new_at, list_at, bundle_fits};
ghost use Rattle.bundle.specs.Walked.{old_asked, olds_end, news_end, list_asked, lists_end};

use crate::parts::new_entries;
use crate::walks::{added_at, first_list, next_list, next_old, old_count};
use crate::{LONGEST, MOST_ADDED, MOST_BLOCKS};

// Whether an old entry may stand at a place, where `low` is the lowest position that comes after the entries before it.
fn old_entry_fits(s: &[u8], at: usize, n: usize, low: usize) -> bool
    requires { at ≤ 2 * longest_bundle }
    ensures { result ≡ old_asked s.now n low at }
{
    at + 2 < s.len()
        && marks::entry_fits(s[at], s[at + 1], n, low)
        && (1..=MOST_BLOCKS).contains(&s[at + 2])
}

// Whether the old entries keep the rules for a rack of n, and end before the string does. The loop stays a walk: where the next entry begins is known once
// this one fits.
fn old_entries_fit(s: &[u8], n: usize) -> bool
    requires { (0 < length s.now) × (length s.now ≤ longest_bundle) }
    ensures { result ≡ olds_end n s.now }
{
    let mut low = 0;
    let mut at = 1;
    for _ in 0..old_count(s) {
        if !old_entry_fits(s, at, n, low) {
            return false;
        }
        low = s[at] as usize + 1;
        at = next_old(s, at);
    }
    at < s.len()
}

// Whether the new entries keep the rules for a rack of m, and end within the string.
fn new_entries_fit(s: &[u8], m: usize) -> bool
    requires { (new_at s.now < length s.now) × (length s.now ≤ longest_bundle) }
    ensures { result ≡ news_end m s.now }
{
    first_list(s) <= s.len() && marks::entries_fit(new_entries(s), m)
}

// Whether a list of entry digests may stand at a place.
fn list_fits(s: &[u8], at: usize) -> bool
    requires { at ≤ 2 * longest_bundle }
    ensures { result ≡ list_asked s.now at }
{
    at + 1 < s.len() && added_at(s, at) <= MOST_ADDED
}

// Whether so many lists keep the rules, and end where the string does.
fn lists_fit(s: &[u8], count: usize) -> bool
    requires { (list_at s.now 0 ≤ length s.now) × (length s.now ≤ longest_bundle) }
    ensures { result ≡ lists_end count s.now }
{
    let mut at = first_list(s);
    for _ in 0..count {
        if !list_fits(s, at) {
            return false;
        }
        at = next_list(s, at);
    }
    at == s.len()
}

// Whether a string is a bundle for a previous rack of n, an own rack of m and a roll of so many rows.
pub fn is_bundle(s: &[u8], n: usize, m: usize, rows: usize) -> bool
    requires { rows ≤ most_rows }
    ensures { result ≡ bundle_fits n m rows s.now }
{
    !s.is_empty()
        && s.len() <= LONGEST
        && old_entries_fit(s, n)
        && new_entries_fit(s, m)
        && lists_fit(s, rows * old_count(s))
}
