// Append many.
ghost use Rattle.std.specs.Prelude.{◌≡◌, IfOk};
ghost use Rattle.rows.specs.Search.{find};
ghost use Rattle.statement.specs.Kinds.{receipt_size};
ghost use Rattle.rules.specs.Outcomes.{Lent, outcome, told_place};
ghost use Rattle.rules.specs.Rows.{row_number};
ghost use Rattle.rules.specs.AppendMany.{appending_many};
ghost use Rattle.recording.specs.Known.{Recordable, Entered};

use crate::tests::check_many;
use appending::move_row;
use derivation::grown;
use ledgers::receipt;
use record::give;
use refusals::Refusal;
use rows::{DIGEST, height_at, tail_at};
use rules::Head;
use statement::Kind;

// Row i, the ledger's, moves on by all entries of a list, and the receipt of the last is given.
fn enter_all(head: Head, table: &mut [u8], i: usize, label: [u8; 16], list: &[u8], area: &mut [u8])
    requires { (Recordable (record { head = head; table = table.old; area = area.old }) label list.now) × (i ≡ row_number (find head.count table.old label)) }
    ensures { Entered (record { head = head; table = table.old; area = area.old }) label list.now table.new area.new }
{
    let tail = grown(tail_at(table, i), list);
    let height = height_at(table, i) + (list.len() / DIGEST) as u64;
    move_row(table, i, tail, height);
    give(receipt(head, Kind::Append { height }, label, tail), area);
}

// A ledger's next entries; the number of the row that has moved on.
pub fn append_many(
    head: Head,
    table: &mut [u8],
    label: [u8; 16],
    list: &[u8],
    expected: u64,
    area: &mut [u8],
) -> Result<usize, Refusal>
    ensures outcome { outcome (told_place head receipt_size result) table.new area.new
        ≡ appending_many (record { head = head; table = table.old; area = area.old }) label list.now expected }
    ensures place { IfOk result (λ i. i ≡ row_number (find head.count table.old label)) }
{
    let place = check_many(head, table, label, list, expected, area)?;
    enter_all(head, table, place, label, list, area);
    Ok(place)
}
