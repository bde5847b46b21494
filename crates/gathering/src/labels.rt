// The labels of the old rolls in order: the first after another.
ghost use Rattle.std.specs.Prelude.{◌≡◌, true, ◌<◌, ◌≤◌, MatchOption};
ghost use Rattle.octets.specs.Layouts.{holds};
ghost use Rattle.octets.specs.Strings.{before};
ghost use Rattle.rows.specs.Row.{label_of};
ghost use Rattle.rows.specs.Table.{each};
ghost use Rattle.roll.specs.Roll.{roll_layout};
ghost use Rattle.rules.specs.Bundle.{old_count};
ghost use Rattle.maker.specs.Rolls.{nearest, nearest_in, next_of};
ghost use Rattle.gathering.specs.Old.{Given, up_to};

use bundle::OldRolls;
use octets::{is_before, is_zero};
use roll::{count_in, label_in};
use rows::LABEL;

// What was found, or a label that is nearer after `last`.
fn nearer(last: [u8; LABEL], best: [u8; LABEL], label: [u8; LABEL]) -> [u8; LABEL]
    ensures { result ≡ nearest last best label }
{
    if !is_before(&last, &label) {
        return best;
    }
    if is_zero(&best) || is_before(&label, &best) {
        return label;
    }
    best
}

// Whether row q of a roll comes after `last`.
fn is_after(roll: &[u8], q: usize, last: [u8; LABEL]) -> bool
    requires { (holds roll_layout roll.now ≡ true) × (q < (roll_layout.cut roll.now).count) }
    ensures { result ≡ before last (label_of (roll_layout.cut roll.now).rows q) }
{
    is_before(&last, &label_in(roll, q))
}

// A number of first rows that do not come after `last`: the guess, where the row before it is one.
fn guessed(roll: &[u8], last: [u8; LABEL], guess: usize) -> usize
    requires { holds roll_layout roll.now ≡ true }
    ensures { (result ≤ (roll_layout.cut roll.now).count) × (each (up_to (roll_layout.cut roll.now).rows last) result ≡ true) }
{
    if guess == 0 {
        return 0;
    }
    if count_in(roll) < guess {
        return 0;
    }
    if is_after(roll, guess - 1, last) {
        return 0;
    }
    guess
}

// The first row of a roll that comes after `last`.
fn place_after(roll: &[u8], last: [u8; LABEL], guess: usize) -> Option<usize>
    requires { holds roll_layout roll.now ≡ true }
    ensures { MatchOption result (each (up_to (roll_layout.cut roll.now).rows last) (roll_layout.cut roll.now).count ≡ true)
        (λ q. (q < (roll_layout.cut roll.now).count) × (before last (label_of (roll_layout.cut roll.now).rows q) ≡ true)
        × (each (up_to (roll_layout.cut roll.now).rows last) q ≡ true)) }
{
    for q in guessed(roll, last, guess)..count_in(roll) {
        if is_after(roll, q, last) {
            return Some(q);
        }
    }
    None
}

// What was found, or a label of a roll that is nearer after `last`: since labels rise, the first after it.
fn nearest_in(roll: &[u8], last: [u8; LABEL], best: [u8; LABEL], guess: usize) -> [u8; LABEL]
    requires { holds roll_layout roll.now ≡ true }
    ensures { result ≡ nearest_in (roll_layout.cut roll.now) last best (roll_layout.cut roll.now).count }
{
    match place_after(roll, last, guess) {
        Some(q) => nearer(last, best, label_in(roll, q)),
        None => best,
    }
}

// The first label of the old rolls after `last`, or zeros; each roll is looked into from a guessed row on.
pub fn next_label(e: &[u8], last: [u8; LABEL], guess: usize) -> [u8; LABEL]
    requires { Given e.now }
    ensures { result ≡ next_of e.now last (old_count e.now) }
{
    let mut found = [0u8; LABEL];
    for roll in OldRolls::of(e) {
        let next = nearest_in(roll, last, found, guess);
        found = next;
    }
    found
}
