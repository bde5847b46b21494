// The search for a label.
ghost use Rattle.std.specs.Prelude.{◌≡◌, true, ◌+◌, ◌*◌, ◌≤◌, length};
ghost use Rattle.octets.specs.Strings.{same};
ghost use Rattle.rows.specs.Sizes.{row_bytes};
ghost use Rattle.rows.specs.Row.{label_of};
ghost use Rattle.rows.specs.Table.{rows_fit};
ghost use Rattle.rows.specs.Search.{held, find};

use crate::order::{is_label_before, parted};
use crate::{LABEL, MOST, ROW};

// How many rows a string holds of those that the count says.
#[tactic(auto, unfolding(crate::specs::Search::held))]
pub fn held(rows: &[u8], count: usize) -> usize
    ensures { result ≡ held count rows.now }
{
    count.min(rows.len() / ROW).min(MOST)
}

fn has_label(rows: &[u8], i: usize, label: &[u8]) -> bool
    requires { row_bytes * i + row_bytes ≤ length rows.now }
    ensures { result ≡ same (label_of rows.now i) label.now }
{
    let at = ROW * i;
    octets::is_same(&rows[at..at + LABEL], label)
}

// Finds the row with this label in a table known to be sound, or how many have a smaller one: by halves.
pub fn find(table: &[u8], count: usize, label: [u8; LABEL]) -> Result<usize, usize>
    requires { rows_fit count table.now ≡ true }
    ensures { result ≡ find count table.now label }
{
    let i = parted(count, |i| is_label_before(table, ROW * i, &label, 0));
    if i == count {
        return Err(i);
    }
    if has_label(table, i, &label) {
        return Ok(i);
    }
    Err(i)
}
