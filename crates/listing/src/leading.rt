// Whether each old row leads to the highest of its label.
ghost use Rattle.std.specs.Prelude.{◌≡◌, true, ◌<◌, ◌≤◌};
ghost use Rattle.rows.specs.Table.{each};
ghost use Rattle.store.specs.Area.{area_right};
ghost use Rattle.rules.specs.Bundle.{old_count, old_roll};
ghost use Rattle.maker.specs.Rolls as rolls;
ghost use Rattle.maker.specs.Lists as rule;
ghost use Rattle.gathering.specs.Old.{Given};

use crate::answers::leads_on;
use crate::early::is_early;
use bundle::{OldRolls, next_old, old_count};
use gathering::{highest, old_row, roll_at};
use maker::Highest;
use roll::{count_in, label_in};
use rows::LABEL;

// Whether each old roll's row of a label leads to the highest.
fn led_to(e: &[u8], store: &[u8], label: [u8; LABEL], top: Highest) -> bool
    requires { Given e.now × (area_right store.now ≡ true) × (top ≡ rolls.highest e.now label) }
    ensures { result ≡ rule.led e.now store.now label }
{
    for roll in OldRolls::of(e) {
        if !leads_on(store, label, old_row(roll, label), top) {
            return false;
        }
    }
    true
}

// The same for a label, where the labels of the first n rolls are led.
fn is_led(e: &[u8], store: &[u8], n: usize, label: [u8; LABEL]) -> bool
    requires { Given e.now × (area_right store.now ≡ true) × (n ≤ old_count e.now) × (each (rule.roll_led e.now store.now) n ≡ true) }
    ensures { result ≡ rule.led e.now store.now label }
{
    is_early(e, n, label) || led_to(e, store, label, highest(e, label))
}

// Whether each label of old roll n is led.
fn roll_led(e: &[u8], store: &[u8], n: usize, roll: &[u8]) -> bool
    requires { Given e.now × (area_right store.now ≡ true) × (n < old_count e.now) × (each (rule.roll_led e.now store.now) n ≡ true)
        × (roll.now ≡ old_roll e.now n) }
    ensures { result ≡ rule.roll_led e.now store.now n }
{
    for q in 0..count_in(roll) {
        if !is_led(e, store, n, label_in(roll, q)) {
            return false;
        }
    }
    true
}

// Whether each label of each old roll is led.
pub fn all_led(e: &[u8], store: &[u8]) -> bool
    requires { Given e.now × (area_right store.now ≡ true) }
    ensures { result ≡ rule.all_led e.now store.now }
{
    let mut at = 1;
    for i in 0..old_count(e) {
        if !roll_led(e, store, i, roll_at(e, at)) {
            return false;
        }
        at = next_old(e, at);
    }
    true
}
