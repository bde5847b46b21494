// The ledger table: a row moved on.
ghost use Rattle.std.specs.Prelude.{◌≡◌, ◌+◌, ◌<◌, length};
ghost use Rattle.rows.specs.Sizes.{most_rows, table_bytes, top_height};
ghost use Rattle.rows.specs.Row.{tail_of, height_of};
ghost use Rattle.rows.specs.Digests.{appended};
ghost use Rattle.rules.specs.Table.{moved};

use octets::{copy_at, put_number};
use rows::{LABEL, ROW, TAIL, appended, height_at, tail_at};

// Row i gets another tail and height.
pub fn move_row(table: &mut [u8], i: usize, tail: [u8; 32], height: u64)
    requires { (i < most_rows) × (length table.old ≡ table_bytes) }
    ensures { table.new ≡ moved table.old i tail height }
{
    let at = ROW * i + LABEL;
    copy_at(table, at, &tail);
    put_number(table, at + TAIL, height);
}

// What a row shows after an entry.
#[derive(Clone, Copy)]
pub struct Shown {
    pub tail: [u8; 32],
    pub height: u64,
}

// Row i moves on by an entry.
pub fn move_on(table: &mut [u8], i: usize, entry: [u8; 32]) -> Shown
    requires { (i < most_rows) × (length table.old ≡ table_bytes) × (height_of table.old i < top_height) }
    ensures table { table.new ≡ moved table.old i (appended (tail_of table.old i) entry) (height_of table.old i + 1) }
    ensures tail { result.tail ≡ appended (tail_of table.old i) entry }
    ensures height { result.height ≡ height_of table.old i + 1 }
{
    let tail = appended(tail_at(table, i), entry);
    let height = height_at(table, i) + 1;
    move_row(table, i, tail, height);
    Shown { tail, height }
}
