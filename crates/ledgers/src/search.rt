// The search for a ledger's row, and the refusals of a call on a ledger that has to be there.
ghost use Rattle.std.specs.Prelude.{◌≡◌, IfOk};
ghost use Rattle.refusals.specs.Order.{first};
ghost use Rattle.refusals.specs.Refused.{answer_of};
ghost use Rattle.rows.specs.Search.{find};
ghost use Rattle.rules.specs.Outcomes.{Lent};
ghost use Rattle.rules.specs.Rows.{row_number};
ghost use Rattle.ledgers.specs.Tests.{found};

use record::{ACTIVE, check_ready};
use refusals::Refusal;
use rules::Head;

// The number of the row of a ledger that has to be there, or what refuses the call first.
#[tactic(auto, using(crate::proofs::Actives::unready_first, crate::proofs::Actives::ready_first), unfolding(refusals::specs::Order::first))]
pub fn seek(
    head: Head,
    table: &[u8],
    label: [u8; 16],
    area: &[u8],
    size: usize,
) -> Result<usize, Refusal>
    ensures answer { answer_of result ≡ first (found size (record { head = head; table = table.now; area = area.now }) label) }
    ensures place { IfOk result (λ i. i ≡ row_number (find head.count table.now label)) }
{
    check_ready(head, table, area, size, ACTIVE, Refusal::NotActive)?;
    rows::find(table, head.count as usize, label).map_err(|_| Refusal::NoSuchLedger)
}
