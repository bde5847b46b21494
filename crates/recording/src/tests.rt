// The tests of an append of many, in their order.
ghost use Rattle.std.specs.Prelude.{◌≡◌, IfOk};
ghost use Rattle.refusals.specs.Order.{first};
ghost use Rattle.refusals.specs.Refused.{answer_of};
ghost use Rattle.rows.specs.Search.{find};
ghost use Rattle.rules.specs.Outcomes.{Lent, told_place};
ghost use Rattle.rules.specs.Rows.{row_number};
ghost use Rattle.rules.specs.AppendMany.{is_list};
ghost use Rattle.recording.specs.Tests.{listed, many_told};

use crate::MOST_ENTRIES;
use record::{ACTIVE, check_ready};
use refusals::Refusal;
use rows::{DIGEST, TOP, find, height_at, is_next};
use rules::Head;
use statement::RECEIPT_SIZE;

// Whether a list is 1 to 32 digests, and whole ones.
#[tactic(auto, unfolding(rules::specs::AppendMany::is_list))]
fn is_list(list: &[u8]) -> bool
    ensures { result ≡ is_list list.now }
{
    let n = list.len() / DIGEST;
    list.len() % DIGEST == 0 && 1 <= n && n <= MOST_ENTRIES
}

// Refuses before the search.
fn check_listed(head: Head, table: &[u8], list: &[u8], area: &[u8]) -> Result<(), Refusal>
    ensures { answer_of result ≡ first (listed (record { head = head; table = table.now; area = area.now }) list.now) }
{
    check_ready(head, table, area, RECEIPT_SIZE, ACTIVE, Refusal::NotActive)?;
    if !is_list(list) {
        return Err(Refusal::ListOfWrongLength);
    }
    Ok(())
}

// The number of the row that an append of many moves on, or what refuses it first.
pub fn check_many(
    head: Head,
    table: &[u8],
    label: [u8; 16],
    list: &[u8],
    expected: u64,
    area: &[u8],
) -> Result<usize, Refusal>
    ensures told { told_place head 0 result ≡ many_told (record { head = head; table = table.now; area = area.now }) label list.now expected }
    ensures place { IfOk result (λ i. i ≡ row_number (find head.count table.now label)) }
{
    check_listed(head, table, list, area)?;
    let Ok(place) = find(table, usize::from(head.count), label) else {
        return Err(Refusal::NoSuchLedger);
    };
    let height = height_at(table, place);
    if !is_next(expected, height) {
        return Err(Refusal::OutOfOrder { height });
    }
    if TOP - height < (list.len() / DIGEST) as u64 {
        return Err(Refusal::HeightAtTop);
    }
    Ok(place)
}
