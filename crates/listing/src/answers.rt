// The digests that the store's read answers, and where they lead.
ghost use Rattle.std.specs.Prelude.{◌≡◌, true, ◌+◌, ◌*◌, ◌≤◌, length};
ghost use Rattle.octets.specs.Strings.{same};
ghost use Rattle.checks.specs.Check.{block_bytes};
ghost use Rattle.cabinet.specs.Block.{digest_in};
ghost use Rattle.store.specs.Area.{area_right, block_at};
ghost use Rattle.maker.specs.Lists.{answered, entry_digest};
ghost use Rattle.listing.specs.Leading.{leads_on};

use crate::once::only_block;
use cabinet::DIGEST_PLACE;
use checks::BLOCK;
use maker::Highest;
use octets::{array_at, is_same};
use rows::{DIGEST, LABEL, appended};
use store::first_answer;

// The entry digest of block i.
fn digest_at(store: &[u8], i: usize) -> [u8; DIGEST]
    requires { block_bytes * i + block_bytes ≤ length store.now }
    ensures { result ≡ digest_in (block_at store.now i) }
{
    array_at(store, BLOCK * i + DIGEST_PLACE)
}

// The digest that the store's read answers for a label and a height. A block is hashed only where several have both.
pub fn digest_for(store: &[u8], label: [u8; LABEL], height: u64) -> [u8; DIGEST]
    requires { (area_right store.now ≡ true) × (answered store.now label height ≡ true) }
    ensures { result ≡ entry_digest store.now label height }
{
    let blocks = store.len() / BLOCK;
    if let Some(only) = only_block(store, &label, height, blocks) {
        return digest_at(store, only);
    }
    digest_at(store, first_answer(store, &label, height, blocks).unwrap())
}

// Whether the store answers each height above a row up to the highest, and its digests lead to the highest tail.
pub fn leads_on(store: &[u8], label: [u8; LABEL], row: Highest, top: Highest) -> bool
    requires { (area_right store.now ≡ true) × (row.height ≤ top.height) }
    ensures { result ≡ leads_on store.now label row top }
{
    let blocks = store.len() / BLOCK;
    let mut tail = row.tail;
    for d in 0..top.height - row.height {
        let Some(i) = first_answer(store, &label, row.height + (d + 1), blocks) else {
            return false;
        };
        tail = appended(tail, digest_at(store, i));
    }
    is_same(&tail, &top.tail)
}
