// What makes a row, and which height comes next.
ghost use Rattle.std.specs.Prelude.{◌≡◌, true, cond, ◌+◌, ◌&&◌, eqb, leb};
ghost use Rattle.octets.specs.Strings.{all_zero};
ghost use Rattle.rows.specs.Sizes.{top_height};
ghost use Rattle.rows.specs.Row.{row_holds};

use crate::TOP;
use octets::is_zero;

// Whether a tail and a height make a row with a label that is not all zero: heights end at the top, height 0 has the zero tail.
pub fn tail_holds(tail: &[u8], height: u64) -> bool
    ensures { result ≡ (leb height top_height && cond (eqb height 0) (all_zero tail.now) true) }
{
    height <= TOP && (height != 0 || is_zero(tail))
}

// Whether a label, a tail and a height make a row: the label is not all zero, and the others go with it.
#[tactic(auto, unfolding(crate::specs::Row::row_holds))]
pub fn row_holds(label: &[u8], tail: &[u8], height: u64) -> bool
    ensures { result ≡ row_holds label.now tail.now height }
{
    !is_zero(label) && tail_holds(tail, height)
}

// Whether a height is the one after another.
pub fn is_next(expected: u64, height: u64) -> bool
    ensures { result ≡ eqb expected (height + 1) }
{
    height.checked_add(1) == Some(expected)
}
