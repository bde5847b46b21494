// The calls that leave the record: the rows are read into the table's bytes, and the core answers of these.
ghost use Rattle.std.specs.Prelude.{◌≡◌, ℕ};
ghost use Rattle.rules.specs.Outcomes.{Lent, Outcome, answer_told};
ghost use Rattle.table.specs.Held.{Held, Refuses, over_rows};

use refusals::Refusal;
use rows::{MOST, TABLE};
use rules::{Answer, Done, Head};
use table::{Row, flat_in, other_length, rows_typed};

// Such a call: what it is asked, with its rule and the size of the area that it needs.
pub trait Looks {
    ghost rule: { Self → Lent → Outcome };

    ghost size: { ℕ };

    fn size(&self) -> usize
        ensures { result ≡ size };

    // The core, over the table's bytes.
    fn told(self, head: Head, table: &[u8], area: &mut [u8]) -> Result<Done, Refusal>
        ensures { record { answer = answer_told result; left = record { head = head; table = table.now; area = area.new } }
            ≡ rule self (record { head = head; table = table.now; area = area.old }) };

    // A table of another length than 63 rows is refused.
    ghost refuses: { (call : Self) → Refuses (rule call) size };
}

// The call over lent rows.
pub fn look<C: Looks + Copy>(call: C, h: &Head, rows: &[Row], area: &mut [u8]) -> Answer
    ensures { record { answer = result; head = h.now; rows = rows.now; area = area.new } ≡ over_rows (C.rule call) h.now rows.now area.old }
{
    rows_typed(rows);
    if rows.len() != MOST {
        return other_length(area.len(), call.size());
    }
    let mut table = [0u8; TABLE];
    flat_in(rows, &mut table);
    Answer::from(call.told(*h, &table, area))
}
