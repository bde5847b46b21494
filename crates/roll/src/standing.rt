// Whether a string's rows, read where they stand, are those of a roll.
ghost use Rattle.std.specs.Prelude.{◌≡◌, ◌*◌, ◌<◌, take, drop};
ghost use Rattle.octets.specs.Strings.{all_zero};
ghost use Rattle.rows.specs.Sizes.{row_bytes};
ghost use Rattle.rows.specs.Row.{row_fits};
ghost use Rattle.rows.specs.Table.{each, rises, stands, rows_fit};
ghost use Rattle.roll.specs.Blocks.{places, blocks};
ghost use Rattle.roll.specs.Roll.{said_count, roll_layout};
ghost use Rattle.roll.specs.Places.{Spread};

use crate::block::PLACES;
use crate::place::{blocks_in, count_in, height_in, label_in, row_at, tail_in};
use rows::{ROW, is_label_before};

// Whether row i keeps the rules of a row.
fn row_fits(s: &[u8], i: usize) -> bool
    requires { Spread s.now × (i < places * blocks (said_count s.now)) }
    ensures { result ≡ row_fits (roll_layout.cut s.now).rows i }
{
    rows::row_holds(&label_in(s, i), &tail_in(s, i), height_in(s, i))
}

// Whether the label of row i comes after the one before it.
fn rises(s: &[u8], i: usize) -> bool
    requires { Spread s.now × (i < places * blocks (said_count s.now)) }
    ensures { result ≡ rises (roll_layout.cut s.now).rows i }
{
    i == 0 || is_label_before(s, row_at(i - 1), s, row_at(i))
}

#[tactic(auto, unfolding(rows::specs::Table::stands))]
fn stands(s: &[u8], i: usize) -> bool
    requires { Spread s.now × (i < places * blocks (said_count s.now)) }
    ensures { result ≡ stands (roll_layout.cut s.now).rows i }
{
    row_fits(s, i) && rises(s, i)
}

fn all_stand(s: &[u8]) -> bool
    requires { Spread s.now }
    ensures { result ≡ each (stands (roll_layout.cut s.now).rows) (roll_layout.cut s.now).count }
{
    (0..count_in(s)).all(|i| stands(s, i))
}

// Whether the place of row i is unused.
fn is_unused(s: &[u8], i: usize) -> bool
    requires { Spread s.now × (i < places * blocks (said_count s.now)) }
    ensures { result ≡ all_zero (take row_bytes (drop (row_bytes * i) (roll_layout.cut s.now).rows)) }
{
    let at = row_at(i);
    octets::is_zero(&s[at..at + ROW])
}

// Whether the places after the rows are unused.
fn rest_is_unused(s: &[u8]) -> bool
    requires { Spread s.now }
    ensures { result ≡ all_zero (drop (row_bytes * (roll_layout.cut s.now).count) (roll_layout.cut s.now).rows) }
{
    let end = PLACES * blocks_in(s);
    (count_in(s)..end).all(|i| is_unused(s, i))
}

// Whether the rows form a roll, with unused places after them.
pub fn rows_stand(s: &[u8]) -> bool
    requires { Spread s.now }
    ensures { result ≡ rows_fit (roll_layout.cut s.now).count (roll_layout.cut s.now).rows }
{
    all_stand(s) && rest_is_unused(s)
}
