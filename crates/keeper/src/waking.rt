// Wake, on a head and a table that the caller lends.
ghost use Rattle.std.specs.Prelude.{◌≡◌, []};
ghost use Rattle.rules.specs.Wake.{waking};
ghost use Rattle.table.specs.Held.{Held, over_rows};

use record::woken;
use rows::MOST;
use rules::{Answer, Head};
use table::{Asked, Row, other_length, rows_clear, rows_typed};

// The record becomes blank, with this key, whatever it was. It stays apart from `change_rows`, which would read and write the table's bytes besides.
#[unsafe(no_mangle)]
pub extern "C" fn mahqurith_wake(h: &mut Head, rows: &mut [Row], asked: Asked) -> Answer
    ensures { record { answer = result; head = h.new; rows = rows.new; area = [] } ≡ over_rows (λ k. waking k asked.key) h.old rows.old [] }
{
    rows_typed(rows);
    if rows.len() != MOST {
        return other_length(0, 0);
    }
    *h = woken(asked.key);
    rows_clear(rows);
    Answer {
        number: refusals::ACCEPTED,
        written: 0,
        height: 0,
        repeat: false,
    }
}
