// The calls that change the head alone: the rows are read into the table's bytes, which the core leaves, and the head is written where it is another one.
ghost use Rattle.std.specs.Prelude.{◌≡◌, ℕ};
ghost use Rattle.rules.specs.Outcomes.{Lent, Outcome};
ghost use Rattle.table.specs.Held.{Held, Leaves, Refuses, over_rows};

use rows::{MOST, TABLE};
use rules::{Answer, Head};
use table::{Left, Row, flat_in, other_length, rows_typed};

// Such a call: what it is asked, with its rule and the size of the area that it needs.
pub trait ChangesHead {
    ghost rule: { Self → Lent → Outcome };

    ghost size: { ℕ };

    fn size(&self) -> usize
        ensures { result ≡ size };

    // The core, over the table's bytes.
    fn left(self, head: Head, table: &[u8], area: &mut [u8]) -> Left
        ensures { Leaves result (record { head = head; table = table.now; area = area.old }) table.now area.new
            (rule self (record { head = head; table = table.now; area = area.old })) };

    // A table of another length than 63 rows is refused.
    ghost refuses: { (call : Self) → Refuses (rule call) size };
}

// The call over lent rows.
pub fn change_head<C: ChangesHead + Copy>(
    call: C,
    h: &mut Head,
    rows: &[Row],
    area: &mut [u8],
) -> Answer
    ensures { record { answer = result; head = h.new; rows = rows.now; area = area.new } ≡ over_rows (C.rule call) h.old rows.now area.old }
{
    rows_typed(rows);
    if rows.len() != MOST {
        return other_length(area.len(), call.size());
    }
    let mut table = [0u8; TABLE];
    flat_in(rows, &mut table);
    let left = call.left(*h, &table, area);
    if let Some(head) = left.head {
        *h = head;
    }
    left.answer
}
