// Whether a string is a table of rows.
ghost use Rattle.std.specs.Prelude.{◌≡◌, false, ◌+◌, ◌*◌, ◌≤◌, length};
ghost use Rattle.octets.specs.Strings.{all_zero};
ghost use Rattle.rows.specs.Sizes.{row_bytes, most_rows};
ghost use Rattle.rows.specs.Row.{label_of, row_fits};
ghost use Rattle.rows.specs.Table.{each, rises, stands, rows_fit};

use crate::order::is_label_before;
use crate::row::{row_holds, tail_holds};
use crate::{LABEL, MOST, ROW, TABLE, TAIL};

// Whether row i keeps the rules of a row.
fn row_fits(rows: &[u8], i: usize) -> bool
    requires { row_bytes * i + row_bytes ≤ length rows.now }
    ensures { result ≡ row_fits rows.now i }
{
    let label = ROW * i;
    let tail = label + LABEL;
    let height = tail + TAIL;
    row_holds(
        &rows[label..tail],
        &rows[tail..height],
        octets::number_at(rows, height),
    )
}

// The same of a row whose label is not all zero.
fn labelled_fits(rows: &[u8], i: usize) -> bool
    requires { (row_bytes * i + row_bytes ≤ length rows.now) × (all_zero (label_of rows.now i) ≡ false) }
    ensures { result ≡ row_fits rows.now i }
{
    let tail = ROW * i + LABEL;
    let height = tail + TAIL;
    tail_holds(&rows[tail..height], octets::number_at(rows, height))
}

// Whether the label of row i comes after the one before it.
fn rises(rows: &[u8], i: usize) -> bool
    requires { row_bytes * i + row_bytes ≤ length rows.now }
    ensures { result ≡ rises rows.now i }
{
    i == 0 || is_label_before(rows, ROW * (i - 1), rows, ROW * i)
}

// Whether row i may stand where it stands. A label that comes after another is not all zero.
fn stands(rows: &[u8], i: usize) -> bool
    requires { row_bytes * i + row_bytes ≤ length rows.now }
    ensures { result ≡ stands rows.now i }
{
    if i == 0 {
        return row_fits(rows, i);
    }
    rises(rows, i) && labelled_fits(rows, i)
}

fn all_stand(rows: &[u8], count: usize) -> bool
    requires { row_bytes * count ≤ length rows.now }
    ensures { result ≡ each (stands rows.now) count }
{
    (0..count).all(|i| stands(rows, i))
}

// Whether a string is a table whose first rows, `count` of them, form a roll, with zeros after them.
#[tactic(auto, using(crate::proofs::Tables::rest_part), unfolding(crate::specs::Table::rows_fit))]
pub fn rows_fit(rows: &[u8], count: usize) -> bool
    ensures { result ≡ rows_fit count rows.now }
{
    rows.len() == TABLE
        && count <= MOST
        && all_stand(rows, count)
        && octets::is_zero(&rows[ROW * count..])
}
