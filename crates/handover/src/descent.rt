// Whether a bundle's old rolls and digests lead to this keeper's roll: one walk over its lists, and over each old roll and ours together.
ghost use Rattle.std.specs.Prelude.{◌≡◌, true, ◌*◌, ◌<◌, ◌≤◌, length};
ghost use Rattle.rows.specs.Table.{each, rows_fit};
ghost use Rattle.rules.specs.Bundle.{old_count, list_at};
ghost use Rattle.rules.specs.Derivation as rule;
ghost use Rattle.handover.specs.Asked.{Laid, Noted, roll_held, led_to};

use crate::keeping::{all_kept, is_kept};
use bundle::{LIST_HEAD, first_list, next_list, old_count, old_roll};
use derivation::{is_led_to, is_through, old_row};
use rows::MOST;

// Where the lists of old entry i end, which begin at a place, where ours is derived from its roll; flags the rows that the entry keeps.
fn roll_derived(
    table: &[u8],
    rows: usize,
    s: &[u8],
    i: usize,
    at: usize,
    kept: &mut [bool],
) -> Option<usize>
    requires { Laid rows s.now × (rows_fit rows table.now ≡ true) × (i < old_count s.now)
        × (roll_held s.now i ≡ true) × (at ≡ list_at s.now (rows * i)) × (rows ≤ length kept.old) }
    ensures { (result ≡ led_to (record { count = rows; rows = table.now }) s.now i)
        × (rule.roll_derived (record { count = rows; rows = table.now }) s.now i ≡ true
        → Noted (record { count = rows; rows = table.now }) (rule.roll_of s.now i) s.now i kept.old kept.new) }
{
    let roll = old_roll(s, i);
    let mut place = at;
    let mut q = 0;
    for r in 0..rows {
        let end = next_list(s, place);
        let old = old_row(roll, q, table, r);
        if !is_led_to(table, r, roll, old, &s[place + LIST_HEAD..end]) {
            return None;
        }
        let there = old.is_some();
        kept[r] = is_kept(kept[r], there, s, place);
        q += usize::from(there);
        place = end;
    }
    is_through(roll, q).then_some(place)
}

// Whether ours is derived from each old roll, and each row is kept by some.
pub fn derived(table: &[u8], rows: usize, s: &[u8]) -> bool
    requires { Laid rows s.now × (rows_fit rows table.now ≡ true) × (each (roll_held s.now) (old_count s.now) ≡ true) }
    ensures { result ≡ rule.derived (record { count = rows; rows = table.now }) s.now }
{
    let mut kept = [false; MOST];
    let mut at = first_list(s);
    for i in 0..old_count(s) {
        let Some(end) = roll_derived(table, rows, s, i, at, &mut kept) else {
            return false;
        };
        at = end;
    }
    all_kept(&kept, rows)
}
