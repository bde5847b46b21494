// What Initialise asks before it changes anything, in order.
ghost use Rattle.std.specs.Prelude.{◌≡◌, true, not, cond};
ghost use Rattle.refusals.specs.Order.{first};
ghost use Rattle.refusals.specs.Refused.{answer_of};
ghost use Rattle.octets.specs.Layouts.{holds};
ghost use Rattle.rack.specs.Racks.{rack_layout};
ghost use Rattle.rules.specs.Initialise.{absent, is_in_rack, initialise_refusal};
ghost use Rattle.entering.specs.Parts.{own_tests, old_tests};

use rack::{KEY_BYTES, MOST, is_member, is_of_two, is_rack, read_rack};
use record::{BLANK, check_ready};
use refusals::Refusal;
use roll::is_roll;
use rules::Head;
use statement::HANDOVER_SIZE;

// Whether a key is one of a rack's.
fn is_in_rack(key: [u8; 32], rack: &[u8]) -> bool
    requires { holds rack_layout rack.now ≡ true }
    ensures { result ≡ is_in_rack key rack.now }
{
    let mut keys = [[0u8; KEY_BYTES]; MOST];
    match read_rack(rack, &mut keys) {
        Ok(count) => is_member(keys, usize::from(count), key),
        Err(_) => false,
    }
}

// Refuses by the own rack.
#[tactic(auto, unfolding(refusals::specs::Order::first))]
fn check_own(key: [u8; 32], own: &[u8]) -> Result<(), Refusal>
    ensures { answer_of result ≡ first (own_tests key own.now) }
{
    if !is_rack(own) {
        return Err(Refusal::RackBroken);
    }
    if is_of_two(own) {
        return Err(Refusal::RackOfTwo);
    }
    if !is_in_rack(key, own) {
        return Err(Refusal::KeyNotInRack);
    }
    Ok(())
}

// Whether one of a roll and a previous rack is given without the other.
fn is_alone(roll: &[u8], previous: &[u8]) -> bool
    ensures { result ≡ cond (absent roll.now) (not (absent previous.now)) (absent previous.now) }
{
    roll.is_empty() != previous.is_empty()
}

// Refuses by the roll and the previous rack.
#[tactic(auto, unfolding(refusals::specs::Order::first))]
fn check_old(roll: &[u8], previous: &[u8]) -> Result<(), Refusal>
    ensures { answer_of result ≡ first (old_tests roll.now previous.now) }
{
    if is_alone(roll, previous) {
        return Err(Refusal::RollOrRackAlone);
    }
    if roll.is_empty() {
        return Ok(());
    }
    if !is_rack(previous) {
        return Err(Refusal::RackBroken);
    }
    if !is_roll(roll) {
        return Err(Refusal::RollBroken);
    }
    Ok(())
}

// Refuses an Initialise.
pub fn check_initialise(
    head: Head,
    table: &[u8],
    roll: &[u8],
    previous: &[u8],
    own: &[u8],
    area: &[u8],
) -> Result<(), Refusal>
    ensures { answer_of result
        ≡ initialise_refusal (record { head = head; table = table.now; area = area.now }) roll.now previous.now own.now }
{
    check_ready(head, table, area, HANDOVER_SIZE, BLANK, Refusal::NotBlank)?;
    check_own(head.key, own)?;
    check_old(roll, previous)
}
