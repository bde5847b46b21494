// The calls that change rows: these are read into the table's bytes, the core changes the bytes and says what it changed, and that is written back.
ghost use Rattle.std.specs.Prelude.{◌≡◌, ℕ};
ghost use Rattle.rules.specs.Outcomes.{Lent, Outcome};
ghost use Rattle.table.specs.Held.{Held, Leaves, Refuses, over_rows};

use rows::{MOST, TABLE};
use rules::{Answer, Head};
use table::{Left, Row, flat_in, other_length, rows_out, rows_typed};

// Such a call: what it is asked, with its rule and the size of the area that it needs.
pub trait ChangesRows {
    ghost rule: { Self → Lent → Outcome };

    // A method stays, and no const: of a const the check has no clause where a struct has a lifetime.
    ghost size: { ℕ };

    fn size(&self) -> usize
        ensures { result ≡ size };

    // The core, over the table's bytes.
    fn left(self, head: Head, table: &mut [u8], area: &mut [u8]) -> Left
        ensures { Leaves result (record { head = head; table = table.old; area = area.old }) table.new area.new
            (rule self (record { head = head; table = table.old; area = area.old })) };

    // A table of another length than 63 rows is refused.
    ghost refuses: { (call : Self) → Refuses (rule call) size };
}

// The call over lent rows.
pub fn change_rows<C: ChangesRows + Copy>(
    call: C,
    h: &mut Head,
    rows: &mut [Row],
    area: &mut [u8],
) -> Answer
    ensures { record { answer = result; head = h.new; rows = rows.new; area = area.new } ≡ over_rows (C.rule call) h.old rows.old area.old }
{
    rows_typed(rows);
    if rows.len() != MOST {
        return other_length(area.len(), call.size());
    }
    let mut table = [0u8; TABLE];
    flat_in(rows, &mut table);
    let left = call.left(*h, &mut table, area);
    if let Some(head) = left.head {
        *h = head;
    }
    rows_out(rows, &table, left.rows.start..left.rows.end);
    left.answer
}
