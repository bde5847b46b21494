// Read, and Append and read.
ghost use Rattle.std.specs.Prelude.{◌≡◌, true, ◌+◌, ◌≤◌, length, IfOk};
ghost use Rattle.octets.specs.Strings.{put};
ghost use Rattle.rows.specs.Row.{row_holds};
ghost use Rattle.rows.specs.Search.{find};
ghost use Rattle.statement.specs.Kinds.{receipt_size, reading_size};
ghost use Rattle.statement.specs.Contents.{statement_written};
ghost use Rattle.rules.specs.Outcomes.{Lent, outcome, told, told_place};
ghost use Rattle.rules.specs.Rows.{receipt_of, row_number};
ghost use Rattle.rules.specs.Read.{read_kind, reading, appending_and_reading};

use appending::{check_append, enter};
use ledgers::{receipt, seek};
use octets::number_at;
use record::give;
use refusals::Refusal;
use rows::{height_at, tail_at};
use rules::{Done, Head};
use statement::{Kind, READING_SIZE, RECEIPT_SIZE};

// The bytes of the statements of Append and read.
pub const BOTH: usize = RECEIPT_SIZE + READING_SIZE;

// Kind 3 at a height, with the nonce as two numbers.
fn read_kind(height: u64, nonce: [u8; 16]) -> Kind
    ensures { result ≡ read_kind height nonce }
{
    Kind::Read {
        height,
        nonce_high: number_at(&nonce, 0),
        nonce_low: number_at(&nonce, 8),
    }
}

// The statement of a read is given.
fn show(head: Head, label: [u8; 16], tail: [u8; 32], height: u64, nonce: [u8; 16], area: &mut [u8])
    requires { (row_holds label tail height ≡ true) × (reading_size ≤ length area.old) }
    ensures area { area.new ≡ put area.old 0 (statement_written (receipt_of head (read_kind height nonce) label tail)) }
    ensures long { length (statement_written (receipt_of head (read_kind height nonce) label tail)) ≡ reading_size }
{
    give(receipt(head, read_kind(height, nonce), label, tail), area);
}

// A ledger's tail and height.
pub fn read(
    head: Head,
    table: &[u8],
    label: [u8; 16],
    nonce: [u8; 16],
    area: &mut [u8],
) -> Result<Done, Refusal>
    ensures { outcome (told head result) table.now area.new ≡ reading (record { head = head; table = table.now; area = area.old }) label nonce }
{
    let i = seek(head, table, label, area, READING_SIZE)?;
    show(
        head,
        label,
        tail_at(table, i),
        height_at(table, i),
        nonce,
        area,
    );
    Ok(Done {
        written: READING_SIZE,
        repeat: false,
        head,
    })
}

// A ledger's next entry, and its tail and height after it; the number of the row that has moved on.
pub fn append_and_read(
    head: Head,
    table: &mut [u8],
    label: [u8; 16],
    entry: [u8; 32],
    expected: u64,
    nonce: [u8; 16],
    area: &mut [u8],
) -> Result<usize, Refusal>
    ensures outcome { outcome (told_place head (receipt_size + reading_size) result) table.new area.new
        ≡ appending_and_reading (record { head = head; table = table.old; area = area.old }) label entry expected nonce }
    ensures place { IfOk result (λ i. i ≡ row_number (find head.count table.old label)) }
{
    let place = check_append(head, table, label, expected, area, BOTH)?;
    let row = enter(head, table, place, label, entry, area);
    show(
        head,
        label,
        row.tail,
        row.height,
        nonce,
        &mut area[RECEIPT_SIZE..],
    );
    Ok(place)
}
