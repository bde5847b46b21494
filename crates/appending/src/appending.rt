// Append.
ghost use Rattle.std.specs.Prelude.{◌≡◌, IfOk};
ghost use Rattle.rows.specs.Search.{find};
ghost use Rattle.statement.specs.Kinds.{receipt_size};
ghost use Rattle.rules.specs.Outcomes.{Lent, outcome, told_place};
ghost use Rattle.rules.specs.Rows.{row_number};
ghost use Rattle.rules.specs.Append.{appending};
ghost use Rattle.appending.specs.Known.{Appendable, Entered};
ghost use Rattle.appending.specs.Tests.{append_told};

use crate::table::{Shown, move_on};
use ledgers::{receipt, seek};
use record::give;
use refusals::Refusal;
use rows::{TOP, height_at, is_next};
use rules::Head;
use statement::{Kind, RECEIPT_SIZE};

// The number of the row that an append moves on, or what refuses it first; the receipt takes so many bytes.
pub fn check_append(
    head: Head,
    table: &[u8],
    label: [u8; 16],
    expected: u64,
    area: &[u8],
    size: usize,
) -> Result<usize, Refusal>
    ensures told { told_place head 0 result ≡ append_told size (record { head = head; table = table.now; area = area.now }) label expected }
    ensures place { IfOk result (λ i. i ≡ row_number (find head.count table.now label)) }
{
    let place = seek(head, table, label, area, size)?;
    let height = height_at(table, place);
    if !is_next(expected, height) {
        return Err(Refusal::OutOfOrder { height });
    }
    if height == TOP {
        return Err(Refusal::HeightAtTop);
    }
    Ok(place)
}

// Row i, the ledger's, moves on, and its receipt is given.
pub fn enter(
    head: Head,
    table: &mut [u8],
    i: usize,
    label: [u8; 16],
    entry: [u8; 32],
    area: &mut [u8],
) -> Shown
    requires { (Appendable receipt_size (record { head = head; table = table.old; area = area.old }) label)
        × (i ≡ row_number (find head.count table.old label)) }
    ensures { Entered (record { head = head; table = table.old; area = area.old }) label entry
        table.new area.new result.tail result.height }
{
    let row = move_on(table, i, entry);
    let kind = Kind::Append { height: row.height };
    give(receipt(head, kind, label, row.tail), area);
    row
}

// A ledger's next entry; the number of the row that has moved on.
pub fn append(
    head: Head,
    table: &mut [u8],
    label: [u8; 16],
    entry: [u8; 32],
    expected: u64,
    area: &mut [u8],
) -> Result<usize, Refusal>
    ensures outcome { outcome (told_place head receipt_size result) table.new area.new
        ≡ appending (record { head = head; table = table.old; area = area.old }) label entry expected }
    ensures place { IfOk result (λ i. i ≡ row_number (find head.count table.old label)) }
{
    let place = check_append(head, table, label, expected, area, RECEIPT_SIZE)?;
    enter(head, table, place, label, entry, area);
    Ok(place)
}
