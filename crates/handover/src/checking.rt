// Bytes to check.
ghost use Rattle.std.specs.Prelude.{◌≡◌, true, ◌+◌, ◌<◌, ◌≤◌, length, IfOk};
ghost use Rattle.refusals.specs.Refused.{answer_of};
ghost use Rattle.rules.specs.Bundle.{longest_bundle, old_at, new_at};
ghost use Rattle.rules.specs.Outcomes.{Lent, outcome, told};
ghost use Rattle.rules.specs.Check.{entries_of, checking};
ghost use Rattle.bundle.specs.Lists.{list_number};
ghost use Rattle.handover.specs.Asked.{check_refusal, roll_held, old_digest, spoken};

use crate::asking::Handover;
use bundle::{EntryList, new_count, old_count, old_roll};
use record::give;
use refusals::Refusal;
use roll::digest_in;
use rows::{DIGEST, roll_digest};
use rules::{Done, Head};
use statement::{HANDOVER_SIZE, Kind, Statement, handover_statement};

// How many entries a list has.
fn entries_of(s: &[u8], list: EntryList) -> usize
    requires { (new_at s.now < length s.now) × (length s.now ≤ longest_bundle) }
    ensures { result ≡ entries_of s.now (list_number list) }
{
    match list {
        EntryList::Old => old_count(s),
        EntryList::New => new_count(s),
    }
}

// Tests what is asked, and gives the list of the number, which has the entry.
fn check_entry(k: Handover, area: &[u8], list: u8, entry: u64) -> Result<EntryList, Refusal>
    ensures answer { answer_of result
        ≡ check_refusal (record { head = k.entry.head; table = k.entry.table.now; area = area.now })
        k.entry.previous.now k.entry.own.now k.entry.bundle.now list entry }
    ensures which { IfOk result (λ which. list_number which ≡ list) }
{
    k.check(area, HANDOVER_SIZE)?;
    let which = EntryList::try_from(list)?;
    if entries_of(k.bundle, which) as u64 <= entry {
        return Err(Refusal::ListBroken);
    }
    Ok(which)
}

// The digest of the roll of old entry i.
fn old_digest(s: &[u8], i: usize) -> [u8; DIGEST]
    requires { (old_at s.now (i + 1) ≤ length s.now) × (length s.now ≤ longest_bundle) × (roll_held s.now i ≡ true) }
    ensures { result ≡ old_digest s.now i }
{
    digest_in(old_roll(s, i))
}

// The statement that the marks of an entry speak of: the old keeper's last words, or this keeper's first.
fn spoken(head: Head, table: &[u8], s: &[u8], list: EntryList, i: usize) -> Statement
    requires { (list_number list ≡ 0 → old_at s.now (i + 1) ≤ length s.now) × (length s.now ≤ longest_bundle)
        × (list_number list ≡ 0 → roll_held s.now i ≡ true) }
    ensures { result ≡ spoken head table.now s.now (list_number list) i }
{
    match list {
        EntryList::Old => {
            let roll = old_digest(s, i);
            handover_statement(Kind::Finalise, head.identity, head.previous, head.own, roll)
        }
        EntryList::New => {
            let roll = roll_digest(usize::from(head.count), table);
            handover_statement(
                Kind::Initialise,
                head.identity,
                head.own,
                head.previous,
                roll,
            )
        }
    }
}

// The statement that the marks of an entry of a list speak of. The parameters stay apart: so does the call for C have them.
pub fn bytes_to_check(
    head: Head,
    table: &[u8],
    previous: &[u8],
    own: &[u8],
    s: &[u8],
    list: u8,
    entry: u64,
    area: &mut [u8],
) -> Result<Done, Refusal>
    ensures { outcome (told head result) table.now area.new
        ≡ checking (record { head = head; table = table.now; area = area.old }) previous.now own.now s.now list entry }
{
    let k = Handover {
        head,
        table,
        previous,
        own,
        bundle: s,
    };
    let which = check_entry(k, area, list, entry)?;
    give(spoken(head, table, s, which, entry as usize), area);
    Ok(Done {
        written: HANDOVER_SIZE,
        repeat: false,
        head,
    })
}
