// The rolls of old entries, tested.
ghost use Rattle.std.specs.Prelude.{◌≡◌, ◌<◌, ◌≤◌, length};
ghost use Rattle.rows.specs.Table.{each};
ghost use Rattle.rules.specs.Bundle.{longest_bundle, old_count, new_at};
ghost use Rattle.entries.specs.Asked.{roll_held};

use bundle::OldRolls;
use roll::is_roll;

// Whether each old entry has a roll.
pub fn rolls_hold(s: &[u8]) -> bool
    requires { (new_at s.now < length s.now) × (length s.now ≤ longest_bundle) }
    ensures { result ≡ each (roll_held s.now) (old_count s.now) }
{
    OldRolls::of(s).all(|roll| is_roll(roll))
}
