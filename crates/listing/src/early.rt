// Whether an earlier roll has a label: what was seen of it there need not be seen again.
ghost use Rattle.std.specs.Prelude.{◌≡◌, true, ◌≤◌};
ghost use Rattle.octets.specs.Layouts.{holds};
ghost use Rattle.roll.specs.Roll.{roll_layout};
ghost use Rattle.rules.specs.Bundle.{old_count, old_roll};
ghost use Rattle.rules.specs.Derivation.{some};
ghost use Rattle.gathering.specs.Old.{Given};
ghost use Rattle.listing.specs.Leading.{has_label};

use bundle::next_old;
use gathering::{find_in, roll_at};
use rows::LABEL;

fn has_label(roll: &[u8], label: [u8; LABEL]) -> bool
    requires { holds roll_layout roll.now ≡ true }
    ensures { result ≡ has_label roll.now label }
{
    find_in(roll, label).is_ok()
}

// Whether one of the first n old rolls has a label.
pub fn is_early(e: &[u8], n: usize, label: [u8; LABEL]) -> bool
    requires { Given e.now × (n ≤ old_count e.now) }
    ensures { result ≡ some (λ i. has_label (old_roll e.now i) label) n }
{
    let mut at = 1;
    for _ in 0..n {
        if has_label(roll_at(e, at), label) {
            return true;
        }
        at = next_old(e, at);
    }
    false
}
