// The rows that a caller lends: read into flat bytes, and those that changed written back.
ghost use Rattle.std.specs.Prelude.{◌≡◌, ◌≤◌, length};
ghost use Rattle.rows.specs.Sizes.{most_rows, table_bytes};
ghost use Rattle.table.specs.Flat.{flattened, rows_of, rows_put, blank_rows};
ghost use Rattle.table.specs.Typed.{Typed, AllTyped};

use crate::Row;
use crate::flattening::{blank_row, put_row, row_at};
use std::ops::Range;

// It does nothing: what its type says of a row, its contract says to the caller.
fn row_typed(row: Row)
    ensures { Typed row }
{}

// The same of each row that is lent. The loop has nothing to do, so that the compiler leaves it out.
pub fn rows_typed(rows: &[Row])
    ensures { AllTyped rows.now }
{
    for row in rows {
        row_typed(*row);
    }
}

// The bytes become the rows', row behind row.
pub fn flat_in(rows: &[Row], bytes: &mut [u8])
    requires { (length rows.now ≡ most_rows) × (length bytes.old ≡ table_bytes) }
    ensures { bytes.new ≡ flattened rows.now }
{
    rows_typed(rows);
    for (i, row) in rows.iter().enumerate() {
        put_row(bytes, i, *row);
    }
}

// The rows from one place to before another become those of the bytes; no other row is written.
pub fn rows_out(rows: &mut [Row], bytes: &[u8], places: Range<usize>)
    requires { (length rows.old ≡ most_rows) × (length bytes.now ≡ table_bytes) × (places.start ≤ places.end) × (places.end ≤ most_rows) }
    ensures { rows.new ≡ rows_put places.start places.end rows.old (rows_of most_rows bytes.now) }
{
    // The index stays: it is the place in both.
    for i in places.start..places.end {
        rows[i] = row_at(bytes, i);
    }
}

// Every row becomes zero.
pub fn rows_clear(rows: &mut [Row])
    requires { length rows.old ≡ most_rows }
    ensures { rows.new ≡ blank_rows }
{
    rows.fill(blank_row());
}
