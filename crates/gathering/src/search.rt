// The search for a label in a roll, by halves, where its rows stand in its blocks.
ghost use Rattle.std.specs.Prelude.{◌≡◌, true, ◌*◌, ◌<◌, length};
ghost use Rattle.octets.specs.Layouts.{holds};
ghost use Rattle.octets.specs.Strings.{same, before};
ghost use Rattle.rows.specs.Sizes.{label_bytes, most_rows};
ghost use Rattle.rows.specs.Row.{label_of};
ghost use Rattle.rows.specs.Search.{find, Parts};
ghost use Rattle.roll.specs.Blocks.{places, blocks};
ghost use Rattle.roll.specs.Roll.{said_count, roll_layout};
ghost use Rattle.roll.specs.Places.{Spread, row_at};

use octets::is_same;
use roll::{count_in, row_at};
use rows::{LABEL, is_label_before, parted};

fn has_label(roll: &[u8], i: usize, label: &[u8]) -> bool
    requires { Spread roll.now × (i < places * blocks (said_count roll.now)) }
    ensures { result ≡ same (label_of (roll_layout.cut roll.now).rows i) label.now }
{
    let at = row_at(i);
    is_same(&roll[at..at + LABEL], label)
}

// Whether row i has a smaller label.
fn is_smaller(roll: &[u8], i: usize, label: &[u8; LABEL]) -> bool
    requires { Spread roll.now × (i < places * blocks (said_count roll.now)) }
    ensures { result ≡ before (label_of (roll_layout.cut roll.now).rows i) label.now }
{
    is_label_before(roll, row_at(i), label, 0)
}

// Finds the row of a roll that has this label, or how many have a smaller one.
pub fn find_in(roll: &[u8], label: [u8; LABEL]) -> Result<usize, usize>
    requires { holds roll_layout roll.now ≡ true }
    ensures { result ≡ find (roll_layout.cut roll.now).count (roll_layout.cut roll.now).rows label }
{
    let count = count_in(roll);
    let i = parted(count, |i| is_smaller(roll, i, &label));
    if i == count {
        return Err(i);
    }
    if has_label(roll, i, &label) {
        return Ok(i);
    }
    Err(i)
}
