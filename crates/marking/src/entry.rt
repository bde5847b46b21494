// Where the entry of a list begins that a chip is asked about, if the list has it.
ghost use Rattle.std.specs.Prelude.{◌≡◌, ◌&&◌, ◌+◌, ◌*◌, ◌≤◌, leb, ltb, length};
ghost use Rattle.std.specs.Bool.{then_some};
ghost use Rattle.rules.specs.Bundle.{longest_bundle, old_count, old_at, new_at, new_count};
ghost use Rattle.marking.specs.Entry.{entry_at, has_entry};

use bundle::{EntryList, LONGEST, PAIR, old_at, old_end};

// The old entry of this number.
fn old_entry(s: &[u8], number: u64) -> Option<usize>
    requires { length s.now ≤ longest_bundle }
    ensures { result ≡ then_some (ltb number (old_count s.now) && leb (old_at s.now (number + 1)) (length s.now)) (old_at s.now number) }
{
    if u64::from(*s.first()?) <= number {
        return None;
    }
    let i = number as usize;
    old_end(s, i + 1)?;
    Some(old_at(s, i))
}

// The new entry of this number.
fn new_entry(s: &[u8], number: u64) -> Option<usize>
    requires { length s.now ≤ longest_bundle }
    ensures { result ≡ then_some (ltb number (new_count s.now) && leb (new_at s.now + (1 + 2 * (number + 1))) (length s.now))
        (new_at s.now + (1 + 2 * number)) }
{
    let at = old_end(s, usize::from(*s.first()?))?;
    if u64::from(*s.get(at)?) <= number {
        return None;
    }
    let begin = at + (1 + PAIR * number as usize);
    (begin + PAIR <= s.len()).then_some(begin)
}

// The entry of this number of a list. It is a part of both calls: the first entry of a bundle is found in the time of a call.
#[inline(always)]
pub fn find_entry(s: &[u8], list: u8, number: u64) -> Option<usize>
    ensures { result ≡ then_some (has_entry s.now list number) (entry_at s.now list number) }
{
    if LONGEST < s.len() {
        return None;
    }
    match EntryList::try_from(list) {
        Ok(EntryList::Old) => old_entry(s, number),
        Ok(EntryList::New) => new_entry(s, number),
        Err(_) => None,
    }
}
