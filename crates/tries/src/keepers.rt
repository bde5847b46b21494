// Keepers: woken, founded, with ledgers, and appending.
use crate::people::{key, label, rack_of_one};
use refusals::Refusal;
use rows::{MOST, ROW, TABLE};
use rules::{Done, Head};
use statement::{HANDOVER_SIZE, RECEIPT_SIZE};

fn nobody() -> Head {
    let zeros = [0u8; 32];
    Head {
        status: 0,
        count: 0,
        key: zeros,
        identity: zeros,
        own: zeros,
        previous: zeros,
        next: zeros,
    }
}

// The head after a call: a refusal leaves it.
pub fn after(head: Head, told: Result<Done, Refusal>) -> Head {
    match told {
        Ok(done) => done.head,
        Err(_) => head,
    }
}

// The keeper of key n, blank.
pub fn woken(table: &mut [u8; TABLE], n: u8) -> Head {
    let head = nobody();
    after(head, record::wake(head, table, key(n)))
}

// A woken keeper founds a rack.
pub fn found(head: Head, table: &mut [u8; TABLE], rack: &[u8]) -> Result<Done, Refusal> {
    let mut area = [0u8; HANDOVER_SIZE];
    entering::initialise(head, table, [0u8; 32], &[], &[], rack, &mut area)
}

// The keeper of key 1, once it has founded its rack.
pub fn founded(table: &mut [u8; TABLE], rack: &[u8]) -> Head {
    let head = woken(table, 1);
    after(head, found(head, table, rack))
}

// The keeper makes ledger n.
pub fn make(head: Head, table: &mut [u8; TABLE], n: u8) -> Result<Done, Refusal> {
    let mut area = [0u8; RECEIPT_SIZE];
    making::new(head, table, label(n), &mut area)
}

// The keeper once it has made ledgers with the labels behind one, up to the last.
pub fn with_ledgers(head: Head, table: &mut [u8; TABLE], behind: u8, last: u8) -> Head {
    let mut keeper = head;
    for n in behind..last {
        let next = after(keeper, make(keeper, table, n + 1));
        keeper = next;
    }
    keeper
}

// The keeper with a row more behind its others, as only an earlier roll brings one.
fn brought(head: Head, table: &mut [u8; TABLE], n: u8) -> Head {
    let mut keeper = head;
    let count = head.count as usize;
    if count < MOST {
        octets::copy_at(table, ROW * count, &label(n));
        keeper.count = head.count + 1;
    }
    keeper
}

// The keeper of key 1 with 63 rows: 30 of the first company, and of the second 31 and two that an earlier roll brought.
pub fn full(table: &mut [u8; TABLE]) -> Head {
    let first = with_ledgers(founded(table, &rack_of_one(1)), table, 0, 30);
    let both = with_ledgers(first, table, 127, 158);
    let more = brought(both, table, 159);
    brought(more, table, 160)
}

// The keeper appends key 1 to ledger 1, as if it were an entry's digest.
pub fn enter(
    head: Head,
    table: &mut [u8; TABLE],
    expected: u64,
    receipt: &mut [u8; RECEIPT_SIZE],
) -> Option<Refusal> {
    appending::append(head, table, label(1), key(1), expected, receipt).err()
}
