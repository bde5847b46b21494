// Activate, on a head and a table that the caller lends. It leaves the table.
ghost use Rattle.std.specs.Prelude.{◌≡◌, []};
ghost use Rattle.rules.specs.Activate.{activating};
ghost use Rattle.table.specs.Held.{Held, over_rows};

use crate::status::Activate;
use rules::{Answer, Head};
use table::Row;
use walks::change_head;

// A prepared keeper becomes active: majorities of both racks stand behind its roll. It writes no bytes, so that of another table the answer is 2.
#[unsafe(no_mangle)]
pub extern "C" fn mahqurith_activate(
    h: &mut Head,
    rows: &[Row],
    previous: &[u8],
    own: &[u8],
    bundle: &[u8],
) -> Answer
    ensures { record { answer = result; head = h.new; rows = rows.now; area = [] }
        ≡ over_rows (λ k. activating k previous.now own.now bundle.now) h.old rows.now [] }
{
    let call = Activate {
        previous,
        own,
        bundle,
    };
    change_head(call, h, rows, &mut [])
}
