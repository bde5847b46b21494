// Finalise.
ghost use Rattle.std.specs.Prelude.{◌≡◌, true, []};
ghost use Rattle.octets.specs.Layouts.{holds};
ghost use Rattle.rack.specs.Racks.{rack_layout};
ghost use Rattle.refusals.specs.Refused.{answer_of};
ghost use Rattle.rules.specs.Outcomes.{outcome, told};
ghost use Rattle.rules.specs.Finalise.{handed_over, finalise_refusal, finalising};

use crate::words::speak;
use rack::{is_of_two, is_rack, rack_digest};
use record::{ACTIVE, FINALISED, check_lent};
use refusals::Refusal;
use rules::{Done, Head};

// The bytes of a finalise statement and seven blocks.
pub const FINALISE_SIZE: usize = 3713;

// Refuses a keeper that is not finalised yet.
#[tactic(auto, unfolding(refusals::specs::Order::first, rules::specs::Finalise::finalise_refusal))]
fn check_finalise(head: Head, next: &[u8]) -> Result<(), Refusal>
    ensures { answer_of result ≡ finalise_refusal (record { head = head; table = []; area = [] }) next.now }
{
    if head.status != ACTIVE {
        return Err(Refusal::NotActive);
    }
    if !is_rack(next) {
        return Err(Refusal::RackBroken);
    }
    if is_of_two(next) {
        return Err(Refusal::RackOfTwo);
    }
    Ok(())
}

// The head once its keeper hands over to the next rack.
fn leave(head: Head, next: &[u8]) -> Head
    requires { holds rack_layout next.now ≡ true }
    ensures { result ≡ handed_over head next.now }
{
    Head {
        status: FINALISED,
        next: rack_digest(next),
        ..head
    }
}

// The statement and the roll, the first time with the next rack that is given; later the same again.
pub fn finalise(head: Head, table: &[u8], next: &[u8], area: &mut [u8]) -> Result<Done, Refusal>
    ensures { outcome (told head result) table.now area.new ≡ finalising (record { head = head; table = table.now; area = area.old }) next.now }
{
    check_lent(head, table, area, FINALISE_SIZE)?;
    if head.status == FINALISED {
        return Ok(Done {
            written: speak(head, table, area),
            repeat: true,
            head,
        });
    }
    check_finalise(head, next)?;
    let left = leave(head, next);
    Ok(Done {
        written: speak(left, table, area),
        repeat: false,
        head: left,
    })
}
