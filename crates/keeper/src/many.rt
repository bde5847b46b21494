// Append many, on a head and a table that the caller lends: a list besides what is asked.
ghost use Rattle.std.specs.Prelude.{◌≡◌};
ghost use Rattle.rules.specs.AppendMany.{appending_many};
ghost use Rattle.table.specs.Held.{Held, over_rows};

use crate::ledger::AppendMany;
use rules::{Answer, Head};
use table::{Asked, Row};
use walks::change_rows;

// Append many; the list is entry digests, one behind the other.
#[unsafe(no_mangle)]
pub extern "C" fn mahqurith_append_many(
    h: &mut Head,
    rows: &mut [Row],
    asked: Asked,
    list: &[u8],
    area: &mut [u8],
) -> Answer
    ensures { record { answer = result; head = h.new; rows = rows.new; area = area.new }
        ≡ over_rows (λ k. appending_many k asked.label list.now asked.expected) h.old rows.old area.old }
{
    change_rows(AppendMany { asked, list }, h, rows, area)
}
