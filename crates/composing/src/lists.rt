// The lists of digests, written.
ghost use Rattle.std.specs.Prelude.{◌≡◌, true, ◌++◌, suc, ◌+◌, ◌*◌, ◌≤◌, length};
ghost use Rattle.octets.specs.Layouts.{holds};
ghost use Rattle.octets.specs.Numbers.{bytes_of};
ghost use Rattle.octets.specs.Strings.{put};
ghost use Rattle.rows.specs.Sizes.{most_rows, table_bytes, top_height};
ghost use Rattle.rows.specs.Table.{each};
ghost use Rattle.store.specs.Area.{area_right};
ghost use Rattle.roll.specs.Roll.{roll_layout};
ghost use Rattle.rules.specs.Bundle.{most_added, old_count};
ghost use Rattle.maker.specs.Lists.{answered, listed};
ghost use Rattle.composing.specs.Written.{Fed, AllFed, lists_by, lists_of};
ghost use Rattle.gathering.specs.Old.{Given};

use crate::sizes::need;
use bundle::{LIST_HEAD, OldRolls};
use gathering::old_row;
use listing::digest_for;
use octets::copy_at;
use rows::{DIGEST, LABEL, label_at};

// Puts the digests of the n heights above one.
fn put_digests(store: &[u8], label: [u8; LABEL], height: u64, n: usize, area: &mut [u8], at: usize)
    requires { (area_right store.now ≡ true) × (each (λ d. answered store.now label (height + suc d)) n ≡ true) × (n ≤ most_added)
        × (height + n ≤ top_height) × (at + 32 * n ≤ length area.old) }
    ensures { area.new ≡ put area.old at (listed store.now label height n) }
{
    for d in 0..n {
        let digest = digest_for(store, label, height + (d as u64 + 1));
        copy_at(area, at + DIGEST * d, &digest);
    }
}

// Puts a list: its count, and the digests.
fn put_list(store: &[u8], label: [u8; LABEL], height: u64, n: usize, area: &mut [u8], at: usize)
    requires { (area_right store.now ≡ true) × (each (λ d. answered store.now label (height + suc d)) n ≡ true) × (n ≤ most_added)
        × (height + n ≤ top_height) × (at + (2 + 32 * n) ≤ length area.old) }
    ensures { area.new ≡ put area.old at (bytes_of 2 n ++ listed store.now label height n) }
{
    let count = [0, n as u8];
    copy_at(area, at, &count);
    put_digests(store, label, height, n, area, at + LIST_HEAD);
}

// Puts the lists of an old roll for the first rows of the table, and gives where they end.
fn put_lists(
    roll: &[u8],
    store: &[u8],
    table: &[u8],
    count: usize,
    area: &mut [u8],
    at: usize,
) -> usize
    requires { (holds roll_layout roll.now ≡ true) × (area_right store.now ≡ true) × (count ≤ most_rows) × (length table.now ≡ table_bytes)
        × Fed roll.now store.now table.now count × (at + length (lists_by roll.now store.now table.now count) ≤ length area.old) }
    ensures { (result ≡ at + length (lists_by roll.now store.now table.now count))
        × (area.new ≡ put area.old at (lists_by roll.now store.now table.now count)) }
{
    let mut place = at;
    for r in 0..count {
        let label = label_at(table, r);
        let old = old_row(roll, label);
        let n = need(old.height, table, r);
        put_list(store, label, old.height, n, area, place);
        place += LIST_HEAD + DIGEST * n;
    }
    place
}

// Puts the entries, and behind them all lists.
pub fn put_bundle(e: &[u8], store: &[u8], table: &[u8], count: usize, area: &mut [u8])
    requires { Given e.now × (area_right store.now ≡ true) × (count ≤ most_rows) × (length table.now ≡ table_bytes)
        × AllFed e.now store.now table.now count
        × (length (e.now ++ lists_of e.now store.now table.now count (old_count e.now)) ≤ length area.old) }
    ensures { area.new
        ≡ put area.old 0
        (e.now ++ lists_of e.now store.now table.now count (old_count e.now)) }
{
    copy_at(area, 0, e);
    let mut place = e.len();
    for roll in OldRolls::of(e) {
        place = put_lists(roll, store, table, count, area, place);
    }
}
