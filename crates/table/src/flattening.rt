// The rows of a table as flat bytes, and back.
ghost use Rattle.std.specs.Prelude.{◌≡◌, ◌+◌, ◌*◌, ◌≤◌, length, take, drop, replicate};
ghost use Rattle.octets.specs.Strings.{put};
ghost use Rattle.rows.specs.Sizes.{row_bytes, most_rows};
ghost use Rattle.table.specs.Flat.{row_string, flattened, row_cut, rows_of};

use crate::Row;
use crate::lent::{flat_in, rows_out};
use octets::{array_at, copy_at, number_at, put_number};
use rows::{LABEL, MOST, ROW, TABLE, TAIL};

// Puts a row's bytes in the place of row i. It stays beside no `From`: the bytes are written where they are to stand.
pub fn put_row(bytes: &mut [u8], i: usize, row: Row)
    requires { row_bytes * i + row_bytes ≤ length bytes.old }
    ensures { bytes.new ≡ put bytes.old (row_bytes * i) (row_string row) }
{
    let at = ROW * i;
    copy_at(bytes, at, &row.label);
    copy_at(bytes, at + LABEL, &row.tail);
    put_number(bytes, at + LABEL + TAIL, row.height);
}

// The table's bytes, row behind row.
pub fn flat(rows: [Row; MOST]) -> [u8; TABLE]
    ensures { result ≡ flattened rows }
{
    let mut bytes = [0u8; TABLE];
    flat_in(&rows, &mut bytes);
    bytes
}

// A row's bytes taken apart.
fn row_cut(bytes: &[u8]) -> Row
    requires { length bytes.now ≡ row_bytes }
    ensures { result ≡ row_cut bytes.now }
{
    Row {
        label: array_at(bytes, 0),
        tail: array_at(bytes, LABEL),
        height: number_at(bytes, LABEL + TAIL),
    }
}

// The row in place i.
pub fn row_at(bytes: &[u8], i: usize) -> Row
    requires { row_bytes * i + row_bytes ≤ length bytes.now }
    ensures { result ≡ row_cut (take row_bytes (drop (row_bytes * i) bytes.now)) }
{
    let at = ROW * i;
    row_cut(&bytes[at..at + ROW])
}

// The row of zeros.
pub fn blank_row() -> Row
    ensures { result ≡ row_cut (replicate row_bytes 0) }
{
    Row {
        label: [0u8; LABEL],
        tail: [0u8; TAIL],
        height: 0,
    }
}

// The rows of a table's bytes.
pub fn rows_of(bytes: &[u8; TABLE]) -> [Row; MOST]
    ensures { result ≡ rows_of most_rows bytes.now }
{
    let mut rows = [blank_row(); MOST];
    rows_out(&mut rows, bytes, 0..MOST);
    rows
}
