// Majorities, and the marks of both lists.
ghost use Rattle.std.specs.Prelude.{◌≡◌, true, ◌<◌, ◌≤◌, length};
ghost use Rattle.refusals.specs.Order.{first};
ghost use Rattle.refusals.specs.Refused.{answer_of};
ghost use Rattle.octets.specs.Layouts.{holds};
ghost use Rattle.rack.specs.Racks.{rack_layout};
ghost use Rattle.rules.specs.Bundle.{longest_bundle, new_at, list_at};
ghost use Rattle.entries.specs.Asked.{few, attended_tests};

use bundle::{check_new_marks, check_old_marks, new_count, old_count};
use rack::majority;
use refusals::Refusal;

// Whether a list has fewer entries than a majority of its rack.
fn are_too_few(previous: &[u8], own: &[u8], s: &[u8]) -> bool
    requires { (holds rack_layout previous.now ≡ true) × (holds rack_layout own.now ≡ true) × (new_at s.now < length s.now) × (length s.now ≤ longest_bundle) }
    ensures { result ≡ few previous.now own.now s.now }
{
    old_count(s) < usize::from(majority(previous[0]))
        || new_count(s) < usize::from(majority(own[0]))
}

// Tests what stands behind a bundle.
pub fn check_attended(previous: &[u8], own: &[u8], s: &[u8]) -> Result<(), Refusal>
    requires { (holds rack_layout previous.now ≡ true) × (holds rack_layout own.now ≡ true)
        × (list_at s.now 0 ≤ length s.now) × (length s.now ≤ longest_bundle) }
    ensures { answer_of result ≡ first (attended_tests previous.now own.now s.now) }
{
    if are_too_few(previous, own, s) {
        return Err(Refusal::TooFew);
    }
    check_old_marks(s, Refusal::SignatureNotValid)?;
    check_new_marks(s, Refusal::InitialiseNotValid)
}
