// The rolls of a bundle's old entries, in turn.
ghost use Rattle.std.specs.Prelude.{◌≡◌, ◌≤◌, length};
ghost use Rattle.std.specs.Iterator.{YieldsFirstRef, item_count};
ghost use Rattle.rules.specs.Bundle.{longest_bundle, old_count, old_at, new_at};

use crate::OLD_HEAD;
use crate::walks::{next_old, old_count};

// The rolls of the old entries from number `i` on, which begins at a place.
#[derive(Clone, Copy)]
pub struct OldRolls<'a> {
    s: &'a [u8],
    i: usize,
    at: usize,
    ghost placed: { at ≡ old_at s.now i },
    ghost counted: { i ≤ old_count s.now },
    ghost within: { new_at s.now ≤ length s.now },
    ghost short: { length s.now ≤ longest_bundle },
}

impl<'a> OldRolls<'a> {
    ghost use Rattle.bundle.specs.Rolls.{all_rolls, rolls_left};

    // The rolls of all old entries.
    pub fn of(s: &'a [u8]) -> OldRolls<'a>
        requires { (new_at s.now ≤ length s.now) × (length s.now ≤ longest_bundle) }
        ensures { rolls_left result ≡ all_rolls s.now }
    {
        OldRolls { s, i: 0, at: 1 }
    }
}

impl<'a> Iterator for OldRolls<'a> {
    ghost use Rattle.bundle.specs.Rolls.{rolls_left};

    type Item = &'a [u8];

    ghost next_gives = { YieldsFirstRef rolls_left };

    ghost remaining = { item_count rolls_left };

    fn next(&mut self) -> Option<&'a [u8]> {
        if self.i == old_count(self.s) {
            return None;
        }
        let end = next_old(self.s, self.at);
        let roll = &self.s[self.at + OLD_HEAD..end];
        self.i += 1;
        self.at = end;
        Some(roll)
    }
}
