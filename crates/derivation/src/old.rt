// An old roll beside this keeper's roll, both in label order: the row that is next, and rows that the listed digests lead on from.
ghost use Rattle.std.specs.Prelude.{◌≡◌, true, ◌&&◌, ◌+◌, ◌/◌, ◌<◌, ◌≤◌, length, eqb, IfSome, is_some};
ghost use Rattle.std.specs.Bool.{then_some};
ghost use Rattle.std.specs.Option.{unwrap_or};
ghost use Rattle.octets.specs.Strings.{same};
ghost use Rattle.rows.specs.Sizes.{most_rows, table_bytes};
ghost use Rattle.rows.specs.Row.{label_of, tail_of, height_of};
ghost use Rattle.roll.specs.Roll.{roll_layout};
ghost use Rattle.roll.specs.Places.{Spread};
ghost use Rattle.statement.specs.Kinds.{digest_bytes};
ghost use Rattle.rules.specs.Derivation.{grown};
ghost use Rattle.derivation.specs.Walk.{is_next, derived_from};

use crate::growth;
use roll::{count_in, height_in, label_in, tail_in};
use rows::{DIGEST, TAIL, height_at, label_at, tail_at};

// The row of a roll that is next, row q, where it has the label of row r of ours.
pub fn old_row(roll: &[u8], q: usize, ours: &[u8], r: usize) -> Option<usize>
    requires { Spread roll.now × (r < most_rows) × (length ours.now ≡ table_bytes) }
    ensures { result ≡ then_some (is_next (roll_layout.cut roll.now) q (label_of ours.now r)) q }
{
    let there = q < count_in(roll) && label_in(roll, q) == label_at(ours, r);
    there.then_some(q)
}

// Whether q rows are all that a roll has.
pub fn is_through(roll: &[u8], q: usize) -> bool
    requires { Spread roll.now }
    ensures { result ≡ eqb q (roll_layout.cut roll.now).count }
{
    q == count_in(roll)
}

// Whether the digests of a string lead from a height and a tail to row r of ours.
fn is_grown(ours: &[u8], r: usize, height: u64, tail: [u8; TAIL], s: &[u8]) -> bool
    requires { (r < most_rows) × (length ours.now ≡ table_bytes) }
    ensures { result ≡ (eqb (height + length s.now / digest_bytes) (height_of ours.now r)
        && same (grown tail s.now (length s.now / digest_bytes)) (tail_of ours.now r)) }
{
    let n = (s.len() / DIGEST) as u64;
    height_at(ours, r).checked_sub(height) == Some(n) && growth::grown(tail, s) == tail_at(ours, r)
}

// Whether the digests of a string lead to row r of ours: from the old row that has its label, otherwise from nothing.
pub fn is_led_to(ours: &[u8], r: usize, roll: &[u8], old: Option<usize>, s: &[u8]) -> bool
    requires { Spread roll.now × (r < most_rows) × (length ours.now ≡ table_bytes)
        × IfSome old (λ q. q < (roll_layout.cut roll.now).count) }
    ensures { result ≡ derived_from (roll_layout.cut roll.now) (unwrap_or old 0) (is_some old) ours.now r
        s.now (length s.now / digest_bytes) }
{
    match old {
        Some(q) => is_grown(ours, r, height_in(roll, q), tail_in(roll, q), s),
        None => is_grown(ours, r, 0, [0; TAIL], s),
    }
}
