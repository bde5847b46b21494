// Which rows some old roll has and adds nothing to.
ghost use Rattle.std.specs.Prelude.{◌≡◌, ◌&&◌, ◌||◌, ◌+◌, ◌≤◌, length, eqb};
ghost use Rattle.rows.specs.Table.{each};
ghost use Rattle.rules.specs.Bundle.{two_byte};
ghost use Rattle.handover.specs.Asked.{flag};

use bundle::added_at;

// Whether a row is kept already, or is there and the list at a place has no digests.
pub fn is_kept(kept: bool, there: bool, s: &[u8], at: usize) -> bool
    requires { at + 2 ≤ length s.now }
    ensures { result ≡ (kept || (there && eqb (two_byte s.now at) 0)) }
{
    kept || there && added_at(s, at) == 0
}

// Whether each row is flagged.
pub fn all_kept(kept: &[bool], rows: usize) -> bool
    requires { rows ≤ length kept.now }
    ensures { result ≡ each (flag kept.now) rows }
{
    kept[..rows].iter().all(|k| *k)
}
