// The digest of a roll and the tail after an entry.
ghost use Rattle.std.specs.Prelude.{◌≡◌, ◌*◌, ◌≤◌, length};
ghost use Rattle.rows.specs.Sizes.{row_bytes, most_rows};
ghost use Rattle.rows.specs.Digests.{digest_of_rows, roll_digest, appended};

use crate::search::held;
use crate::{DIGEST, ROW, TABLE, TAIL};

const APPEND_MARK: u8 = 1;

const ROLL_MARK: u8 = 2;

// Never part of its callers, so that the message is gone from the stack before they go on.
#[inline(never)]
fn digest_of_rows(n: usize, rows: &[u8]) -> [u8; DIGEST]
    requires { (n ≤ most_rows) × (row_bytes * n ≤ length rows.now) }
    ensures { result ≡ digest_of_rows n rows.now }
{
    let size = ROW * n;
    let mut message = [0u8; 2 + TABLE];
    message[0] = ROLL_MARK;
    message[1] = n as u8;
    octets::copy_at(&mut message, 2, &rows[..size]);
    hash::digest(&message[..2 + size])
}

// The digest of the roll that the first rows form, `count` of them or as many as there are.
pub fn roll_digest(count: usize, rows: &[u8]) -> [u8; DIGEST]
    ensures { result ≡ roll_digest count rows.now }
{
    digest_of_rows(held(rows, count), rows)
}

// The tail after an entry: what the tail before it and the entry's digest give.
#[inline(never)]
pub fn appended(tail: [u8; TAIL], entry: [u8; DIGEST]) -> [u8; TAIL]
    ensures { result ≡ appended tail entry }
{
    let mut message = [0u8; 1 + TAIL + DIGEST];
    message[0] = APPEND_MARK;
    octets::copy_at(&mut message, 1, &tail);
    octets::copy_at(&mut message, 1 + TAIL, &entry);
    hash::digest(&message)
}
