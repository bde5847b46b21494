// Initialise and Bytes to check, on a head and a table that the caller lends, and three messages. Bytes to check leaves both.
ghost use Rattle.std.specs.Prelude.{◌≡◌};
ghost use Rattle.rules.specs.Initialise.{initialising};
ghost use Rattle.rules.specs.Check.{checking};
ghost use Rattle.table.specs.Held.{Held, over_rows};

use crate::messages::{BytesToCheck, Initialise};
use rules::{Answer, Head};
use table::{Asked, Row};
use walks::{change_rows, look};

// Initialise.
#[unsafe(no_mangle)]
pub extern "C" fn mahqurith_initialise(
    h: &mut Head,
    rows: &mut [Row],
    asked: Asked,
    roll: &[u8],
    previous: &[u8],
    own: &[u8],
    area: &mut [u8],
) -> Answer
    ensures { record { answer = result; head = h.new; rows = rows.new; area = area.new }
        ≡ over_rows (λ k. initialising k asked.identity roll.now previous.now own.now) h.old rows.old area.old }
{
    let call = Initialise {
        asked,
        roll,
        previous,
        own,
    };
    change_rows(call, h, rows, area)
}

// Bytes to check.
#[unsafe(no_mangle)]
pub extern "C" fn mahqurith_bytes_to_check(
    h: &Head,
    rows: &[Row],
    asked: Asked,
    previous: &[u8],
    own: &[u8],
    bundle: &[u8],
    area: &mut [u8],
) -> Answer
    ensures { record { answer = result; head = h.now; rows = rows.now; area = area.new }
        ≡ over_rows (λ k. checking k previous.now own.now bundle.now asked.list asked.number) h.now rows.now area.old }
{
    let call = BytesToCheck {
        asked,
        previous,
        own,
        bundle,
    };
    look(call, h, rows, area)
}
