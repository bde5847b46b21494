// The racks that a prepared keeper is shown: what is asked of them.
ghost use Rattle.std.specs.Prelude.{◌≡◌, true};
ghost use Rattle.refusals.specs.Order.{first};
ghost use Rattle.refusals.specs.Refused.{answer_of};
ghost use Rattle.octets.specs.Layouts.{holds};
ghost use Rattle.rack.specs.Racks.{rack_layout};
ghost use Rattle.rules.specs.Activate.{racks_differ};
ghost use Rattle.handover.specs.Asked.{rack_tests};

use rack::{is_rack, rack_digest};
use refusals::Refusal;
use rules::Head;

// Whether a rack's digest differs from the record's.
fn racks_differ(head: Head, previous: &[u8], own: &[u8]) -> bool
    requires { (holds rack_layout previous.now ≡ true) × (holds rack_layout own.now ≡ true) }
    ensures { result ≡ racks_differ head previous.now own.now }
{
    rack_digest(previous) != head.previous || rack_digest(own) != head.own
}

// Tests the racks.
pub fn check_racks(head: Head, previous: &[u8], own: &[u8]) -> Result<(), Refusal>
    ensures { answer_of result ≡ first (rack_tests head previous.now own.now) }
{
    if !(is_rack(previous) && is_rack(own)) {
        return Err(Refusal::RackBroken);
    }
    if racks_differ(head, previous, own) {
        return Err(Refusal::DigestDiffers);
    }
    Ok(())
}
