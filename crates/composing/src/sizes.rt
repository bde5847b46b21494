// How long the bundle will be.
ghost use Rattle.std.specs.Prelude.{◌≡◌, true, ◌-◌, ◌<◌, ◌≤◌, length};
ghost use Rattle.octets.specs.Layouts.{holds};
ghost use Rattle.rows.specs.Sizes.{most_rows, table_bytes};
ghost use Rattle.rows.specs.Row.{height_of};
ghost use Rattle.roll.specs.Roll.{roll_layout};
ghost use Rattle.rules.specs.Bundle.{old_count};
ghost use Rattle.gathering.specs.Old.{Given};
ghost use Rattle.composing.specs.Sizes.{roll_size, whole_size};

use bundle::{LIST_HEAD, LONGEST, MOST_ADDED, OldRolls};
use gathering::old_row;
use rows::{DIGEST, height_at, label_at};

// How many entries row r of the table lies above an old height of its label.
pub fn need(old: u64, table: &[u8], r: usize) -> usize
    requires { (r < most_rows) × (length table.now ≡ table_bytes) }
    ensures { result ≡ height_of table.now r - old }
{
    height_at(table, r).saturating_sub(old) as usize
}

// The bytes of an old roll's lists, or more than a bundle has where a count passes 64.
fn roll_size(roll: &[u8], table: &[u8], count: usize) -> usize
    requires { (holds roll_layout roll.now ≡ true) × (count ≤ most_rows) × (length table.now ≡ table_bytes) }
    ensures { (result ≡ roll_size roll.now table.now count) × (result ≤ 130000) }
{
    let mut size = 0;
    for r in 0..count {
        let old = old_row(roll, label_at(table, r));
        let n = need(old.height, table, r);
        if MOST_ADDED < n {
            return LONGEST + 1;
        }
        size += LIST_HEAD + DIGEST * n;
    }
    size
}

// The bytes of the entries and all lists, or more than a bundle has.
pub fn whole_size(e: &[u8], table: &[u8], count: usize) -> usize
    requires { Given e.now × (count ≤ most_rows) × (length table.now ≡ table_bytes) }
    ensures { result ≡ whole_size e.now table.now count (old_count e.now) }
{
    let mut size = e.len();
    for roll in OldRolls::of(e) {
        size += roll_size(roll, table, count);
    }
    size
}
