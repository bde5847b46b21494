// The calls on ledgers, on a head and a table that the caller lends.
ghost use Rattle.std.specs.Prelude.{◌≡◌};
ghost use Rattle.rules.specs.New.{making};
ghost use Rattle.rules.specs.Append.{appending};
ghost use Rattle.rules.specs.Read.{reading, appending_and_reading};
ghost use Rattle.table.specs.Held.{Held, over_rows};

use crate::ledger::{Append, AppendAndRead, New, Read};
use rules::{Answer, Head};
use table::{Asked, Row};
use walks::{change_rows, look};

// New.
#[unsafe(no_mangle)]
pub extern "C" fn mahqurith_new(
    h: &mut Head,
    rows: &mut [Row],
    asked: Asked,
    area: &mut [u8],
) -> Answer
    ensures { record { answer = result; head = h.new; rows = rows.new; area = area.new } ≡ over_rows (λ k. making k asked.label) h.old rows.old area.old }
{
    change_rows(New { asked }, h, rows, area)
}

// Append.
#[unsafe(no_mangle)]
pub extern "C" fn mahqurith_append(
    h: &mut Head,
    rows: &mut [Row],
    asked: Asked,
    area: &mut [u8],
) -> Answer
    ensures { record { answer = result; head = h.new; rows = rows.new; area = area.new }
        ≡ over_rows (λ k. appending k asked.label asked.entry asked.expected) h.old rows.old area.old }
{
    change_rows(Append { asked }, h, rows, area)
}

// Read.
#[unsafe(no_mangle)]
pub extern "C" fn mahqurith_read(h: &Head, rows: &[Row], asked: Asked, area: &mut [u8]) -> Answer
    ensures { record { answer = result; head = h.now; rows = rows.now; area = area.new }
        ≡ over_rows (λ k. reading k asked.label asked.nonce) h.now rows.now area.old }
{
    look(Read { asked }, h, rows, area)
}

// Append and read.
#[unsafe(no_mangle)]
pub extern "C" fn mahqurith_append_and_read(
    h: &mut Head,
    rows: &mut [Row],
    asked: Asked,
    area: &mut [u8],
) -> Answer
    ensures { record { answer = result; head = h.new; rows = rows.new; area = area.new }
        ≡ over_rows (λ k. appending_and_reading k asked.label asked.entry asked.expected asked.nonce) h.old rows.old area.old }
{
    change_rows(AppendAndRead { asked }, h, rows, area)
}
