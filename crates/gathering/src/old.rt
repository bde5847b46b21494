// The rows of a label in the old rolls, and the highest of them.
ghost use Rattle.std.specs.Prelude.{◌≡◌, true, cond, ◌+◌, ◌*◌, ◌≤◌, length, take, drop, ltb};
ghost use Rattle.octets.specs.Layouts.{holds};
ghost use Rattle.roll.specs.Blocks.{block_bytes};
ghost use Rattle.roll.specs.Roll.{roll_layout};
ghost use Rattle.rules.specs.Bundle.{longest_bundle, byte};
ghost use Rattle.maker.specs.Rolls as rule;
ghost use Rattle.gathering.specs.Old.{Given, row_of};

use crate::search::find_in;
use bundle::{OLD_HEAD, OldRolls, next_old};
use maker::Highest;
use roll::{height_in, tail_in};
use rows::{LABEL, TAIL};

// The row of a label that no old roll has.
const NONE: Highest = Highest {
    height: 0,
    tail: [0u8; TAIL],
};

// The roll blocks of the old entry that begins at a place.
pub fn roll_at(s: &[u8], at: usize) -> &[u8]
    requires { (at + (3 + block_bytes * byte s.now (at + 2)) ≤ length s.now) × (length s.now ≤ longest_bundle) }
    ensures { result.now ≡ take (block_bytes * byte s.now (at + 2)) (drop (at + 3) s.now) }
{
    &s[at + OLD_HEAD..next_old(s, at)]
}

// Height and tail of a label in an old roll, zeros where it has none.
pub fn old_row(roll: &[u8], label: [u8; LABEL]) -> Highest
    requires { holds roll_layout roll.now ≡ true }
    ensures { result ≡ row_of roll.now label }
{
    match find_in(roll, label) {
        Ok(q) => Highest {
            height: height_in(roll, q),
            tail: tail_in(roll, q),
        },
        Err(_) => NONE,
    }
}

fn higher(best: Highest, row: Highest) -> Highest
    ensures { result ≡ cond (ltb best.height row.height) row best }
{
    if best.height < row.height { row } else { best }
}

// The first of the highest old rows of a label.
pub fn highest(e: &[u8], label: [u8; LABEL]) -> Highest
    requires { Given e.now }
    ensures { result ≡ rule.highest e.now label }
{
    let mut best = NONE;
    for roll in OldRolls::of(e) {
        best = higher(best, old_row(roll, label));
    }
    best
}
