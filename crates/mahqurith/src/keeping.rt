// The keeper's calls on ledgers, and Wake, on a head and rows that the caller lends.
ghost use Rattle.std.specs.Prelude.{◌≡◌, []};
ghost use Rattle.rules.specs.New.{making};
ghost use Rattle.rules.specs.Append.{appending};
ghost use Rattle.rules.specs.Read.{reading, appending_and_reading};
ghost use Rattle.rules.specs.AppendMany.{appending_many};
ghost use Rattle.rules.specs.Wake.{waking};
ghost use Rattle.table.specs.Held.{Held, over_rows};

use rules::{Answer, Head};
use table::{Asked, Row};

// New.
#[unsafe(no_mangle)]
pub extern "C" fn mahqurith_new(
    h: &mut Head,
    rows: &mut [Row],
    asked: Asked,
    area: &mut [u8],
) -> Answer
    ensures { record { answer = result; head = h.new; rows = rows.new; area = area.new } ≡ over_rows (λ k. making k asked.label) h.old rows.old area.old }
{
    keeper::mahqurith_new(h, rows, asked, area)
}

// Append.
#[unsafe(no_mangle)]
pub extern "C" fn mahqurith_append(
    h: &mut Head,
    rows: &mut [Row],
    asked: Asked,
    area: &mut [u8],
) -> Answer
    ensures { record { answer = result; head = h.new; rows = rows.new; area = area.new }
        ≡ over_rows (λ k. appending k asked.label asked.entry asked.expected) h.old rows.old area.old }
{
    keeper::mahqurith_append(h, rows, asked, area)
}

// Read.
#[unsafe(no_mangle)]
pub extern "C" fn mahqurith_read(h: &Head, rows: &[Row], asked: Asked, area: &mut [u8]) -> Answer
    ensures { record { answer = result; head = h.now; rows = rows.now; area = area.new }
        ≡ over_rows (λ k. reading k asked.label asked.nonce) h.now rows.now area.old }
{
    keeper::mahqurith_read(h, rows, asked, area)
}

// Append and read.
#[unsafe(no_mangle)]
pub extern "C" fn mahqurith_append_and_read(
    h: &mut Head,
    rows: &mut [Row],
    asked: Asked,
    area: &mut [u8],
) -> Answer
    ensures { record { answer = result; head = h.new; rows = rows.new; area = area.new }
        ≡ over_rows (λ k. appending_and_reading k asked.label asked.entry asked.expected asked.nonce) h.old rows.old area.old }
{
    keeper::mahqurith_append_and_read(h, rows, asked, area)
}

// Append many; the list is entry digests, one behind the other.
#[unsafe(no_mangle)]
pub extern "C" fn mahqurith_append_many(
    h: &mut Head,
    rows: &mut [Row],
    asked: Asked,
    list: &[u8],
    area: &mut [u8],
) -> Answer
    ensures { record { answer = result; head = h.new; rows = rows.new; area = area.new }
        ≡ over_rows (λ k. appending_many k asked.label list.now asked.expected) h.old rows.old area.old }
{
    keeper::mahqurith_append_many(h, rows, asked, list, area)
}

// The record becomes blank, with this key, whatever it was.
#[unsafe(no_mangle)]
pub extern "C" fn mahqurith_wake(h: &mut Head, rows: &mut [Row], asked: Asked) -> Answer
    ensures { record { answer = result; head = h.new; rows = rows.new; area = [] } ≡ over_rows (λ k. waking k asked.key) h.old rows.old [] }
{
    keeper::mahqurith_wake(h, rows, asked)
}
