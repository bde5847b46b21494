// The parts of a row in a table.
ghost use Rattle.std.specs.Prelude.{◌≡◌, ◌<◌, length};
ghost use Rattle.rows.specs.Sizes.{most_rows, table_bytes};
ghost use Rattle.rows.specs.Row.{label_of, tail_of, height_of};

use crate::{LABEL, ROW, TAIL};
use octets::{array_at, number_at};

#[tactic(auto, unfolding(crate::specs::Row::label_of))]
pub fn label_at(table: &[u8], i: usize) -> [u8; LABEL]
    requires { (i < most_rows) × (length table.now ≡ table_bytes) }
    ensures { result ≡ label_of table.now i }
{
    array_at(table, ROW * i)
}

#[tactic(auto, unfolding(crate::specs::Row::tail_of))]
pub fn tail_at(table: &[u8], i: usize) -> [u8; TAIL]
    requires { (i < most_rows) × (length table.now ≡ table_bytes) }
    ensures { result ≡ tail_of table.now i }
{
    array_at(table, ROW * i + LABEL)
}

pub fn height_at(table: &[u8], i: usize) -> u64
    requires { (i < most_rows) × (length table.now ≡ table_bytes) }
    ensures { result ≡ height_of table.now i }
{
    number_at(table, ROW * i + LABEL + TAIL)
}
