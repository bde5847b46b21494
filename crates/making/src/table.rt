// The ledger table: a row added in label order.
ghost use Rattle.std.specs.Prelude.{◌≡◌, ◌<◌, length};
ghost use Rattle.rows.specs.Sizes.{most_rows, table_bytes};
ghost use Rattle.rules.specs.Table.{new_row, widened};

use octets::copy_at;
use rows::{ROW, TABLE};

// The row of a new ledger.
#[tactic(auto, unfolding(octets::specs::Strings::put))]
fn new_row(label: [u8; 16]) -> [u8; ROW]
    ensures { result ≡ new_row label }
{
    let mut row = [0u8; ROW];
    copy_at(&mut row, 0, &label);
    row
}

// A row at height 0 is put before row i, and each from there on into the place behind it.
pub fn add_row(table: &mut [u8], i: usize, label: [u8; 16])
    requires { (i < most_rows) × (length table.old ≡ table_bytes) }
    ensures { table.new ≡ widened table.old i label }
{
    let at = ROW * i;
    table.copy_within(at..TABLE - ROW, at + ROW);
    copy_at(table, at, &new_row(label));
}
