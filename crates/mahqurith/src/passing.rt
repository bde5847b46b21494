// The calls by which one rack follows another, on a head and rows that the caller lends.
ghost use Rattle.std.specs.Prelude.{◌≡◌, []};
ghost use Rattle.rules.specs.Initialise.{initialising};
ghost use Rattle.rules.specs.Check.{checking};
ghost use Rattle.rules.specs.Activate.{activating};
ghost use Rattle.rules.specs.Finalise.{finalising};
ghost use Rattle.table.specs.Held.{Held, over_rows};

use rules::{Answer, Head};
use table::{Asked, Row};

// The statement and the roll, the first time with the next rack that is given; later the same again.
#[unsafe(no_mangle)]
pub extern "C" fn mahqurith_finalise(
    h: &mut Head,
    rows: &[Row],
    next: &[u8],
    area: &mut [u8],
) -> Answer
    ensures { record { answer = result; head = h.new; rows = rows.now; area = area.new } ≡ over_rows (λ k. finalising k next.now) h.old rows.now area.old }
{
    succession::mahqurith_finalise(h, rows, next, area)
}

// Initialise.
#[unsafe(no_mangle)]
pub extern "C" fn mahqurith_initialise(
    h: &mut Head,
    rows: &mut [Row],
    asked: Asked,
    roll: &[u8],
    previous: &[u8],
    own: &[u8],
    area: &mut [u8],
) -> Answer
    ensures { record { answer = result; head = h.new; rows = rows.new; area = area.new }
        ≡ over_rows (λ k. initialising k asked.identity roll.now previous.now own.now) h.old rows.old area.old }
{
    succession::mahqurith_initialise(h, rows, asked, roll, previous, own, area)
}

// Bytes to check.
#[unsafe(no_mangle)]
pub extern "C" fn mahqurith_bytes_to_check(
    h: &Head,
    rows: &[Row],
    asked: Asked,
    previous: &[u8],
    own: &[u8],
    bundle: &[u8],
    area: &mut [u8],
) -> Answer
    ensures { record { answer = result; head = h.now; rows = rows.now; area = area.new }
        ≡ over_rows (λ k. checking k previous.now own.now bundle.now asked.list asked.number) h.now rows.now area.old }
{
    succession::mahqurith_bytes_to_check(h, rows, asked, previous, own, bundle, area)
}

// A prepared keeper becomes active: majorities of both racks stand behind its roll. It writes no bytes, so that of another table the answer is 2.
#[unsafe(no_mangle)]
pub extern "C" fn mahqurith_activate(
    h: &mut Head,
    rows: &[Row],
    previous: &[u8],
    own: &[u8],
    bundle: &[u8],
) -> Answer
    ensures { record { answer = result; head = h.new; rows = rows.now; area = [] }
        ≡ over_rows (λ k. activating k previous.now own.now bundle.now) h.old rows.now [] }
{
    succession::mahqurith_activate(h, rows, previous, own, bundle)
}
