// The rows of the new roll.
ghost use Rattle.std.specs.Prelude.{◌≡◌, ◌++◌, ◌*◌, ◌<◌, ◌≤◌, length};
ghost use Rattle.octets.specs.Numbers.{bytes_of};
ghost use Rattle.octets.specs.Strings.{put};
ghost use Rattle.rows.specs.Sizes.{label_bytes, tail_bytes, row_bytes, most_rows, table_bytes};
ghost use Rattle.maker.specs.Rolls.{row_count, roll_made};
ghost use Rattle.gathering.specs.Old.{Given};

use gathering::{highest, next_label};
use maker::Highest;
use octets::{copy_at, is_zero, put_number};
use rows::{LABEL, MOST, ROW, TAIL};

// Puts a row into its place.
fn put_row(table: &mut [u8], r: usize, label: [u8; LABEL], row: Highest)
    requires { (r < most_rows) × (length table.old ≡ table_bytes) × (length label ≡ label_bytes) × (length row.tail ≡ tail_bytes) }
    ensures { table.new ≡ put table.old (row_bytes * r) (label ++ row.tail ++ bytes_of 8 row.height) }
{
    let at = ROW * r;
    copy_at(table, at, &label);
    copy_at(table, at + LABEL, &row.tail);
    put_number(table, at + LABEL + TAIL, row.height);
}

// Puts the rows of the new roll into a table and gives how many there are, or 64 where they are more than a roll has.
pub fn put_rows(e: &[u8], table: &mut [u8]) -> usize
    requires { Given e.now × (length table.old ≡ table_bytes) }
    ensures { (result ≡ row_count e.now) × (row_count e.now ≤ most_rows → table.new ≡ (roll_made e.now).rows) }
{
    table.fill(0);
    let mut last = [0u8; LABEL];
    for r in 0..MOST {
        let label = next_label(e, last, r);
        if is_zero(&label) {
            return r;
        }
        put_row(table, r, label, highest(e, label));
        last = label;
    }
    if is_zero(&next_label(e, last, MOST)) {
        return MOST;
    }
    MOST + 1
}
