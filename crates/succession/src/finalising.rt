// Finalise, on a head and a table that the caller lends. It leaves the table.
ghost use Rattle.std.specs.Prelude.{◌≡◌};
ghost use Rattle.rules.specs.Finalise.{finalising};
ghost use Rattle.table.specs.Held.{Held, over_rows};

use crate::status::Finalise;
use rules::{Answer, Head};
use table::Row;
use walks::change_head;

// The statement and the roll, the first time with the next rack that is given; later the same again.
#[unsafe(no_mangle)]
pub extern "C" fn mahqurith_finalise(
    h: &mut Head,
    rows: &[Row],
    next: &[u8],
    area: &mut [u8],
) -> Answer
    ensures { record { answer = result; head = h.new; rows = rows.now; area = area.new } ≡ over_rows (λ k. finalising k next.now) h.old rows.now area.old }
{
    change_head(Finalise { next }, h, rows, area)
}
