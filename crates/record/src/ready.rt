// What the calls ask first: room in the output area, a sound record, the right status.
ghost use Rattle.std.specs.Prelude.{◌≡◌};
ghost use Rattle.refusals.specs.Order.{first};
ghost use Rattle.refusals.specs.Refused.{refusal_number, answer_of};
ghost use Rattle.rules.specs.Outcomes.{Lent, lending, readiness};

use crate::soundness::is_sound;
use refusals::{ACCEPTED, Refusal};
use rules::Head;

// Refuses by room and soundness.
#[tactic(auto, unfolding(refusals::specs::Order::first, rules::specs::Outcomes::lending))]
pub fn check_lent(head: Head, table: &[u8], area: &[u8], size: usize) -> Result<(), Refusal>
    ensures { answer_of result ≡ first (lending size (record { head = head; table = table.now; area = area.now })) }
{
    if area.len() < size {
        return Err(Refusal::AreaTooShort);
    }
    if !is_sound(head, table) {
        return Err(Refusal::RecordNotSound);
    }
    Ok(())
}

// Refuses by them and by the status; `otherwise` is the refusal of another status.
#[tactic(auto, unfolding(refusals::specs::Order::first, rules::specs::Outcomes::lending, rules::specs::Outcomes::readiness))]
pub fn check_ready(
    head: Head,
    table: &[u8],
    area: &[u8],
    size: usize,
    status: u8,
    otherwise: Refusal,
) -> Result<(), Refusal>
    ensures { answer_of result
        ≡ first (readiness size status (refusal_number otherwise) (record { head = head; table = table.now; area = area.now })) }
{
    check_lent(head, table, area, size)?;
    if head.status != status {
        return Err(otherwise);
    }
    Ok(())
}

// The first refusal among them, or 0; `number` is the one of another status.
#[tactic(auto, unfolding(refusals::specs::Order::first, rules::specs::Outcomes::lending, rules::specs::Outcomes::readiness))]
pub fn unready(head: Head, table: &[u8], area: &[u8], size: usize, status: u8, number: u32) -> u32
    ensures { result ≡ first (readiness size status number (record { head = head; table = table.now; area = area.now })) }
{
    match check_lent(head, table, area, size) {
        Err(refusal) => refusal.number(),
        Ok(()) if head.status != status => number,
        Ok(()) => ACCEPTED,
    }
}
