// The two lists of a bundle's entries.
ghost use Rattle.std.specs.Prelude.{◌≡◌};
ghost use Rattle.bundle.specs.Lists.{list_numbered};

use refusals::Refusal;

#[derive(Clone, Copy)]
pub enum EntryList {
    // The keys of the previous rack.
    Old,
    // The keys of the own rack.
    New,
}

impl TryFrom<u8> for EntryList {
    type Error = Refusal;

    ghost try_from_gives = { λ number list. list ≡ list_numbered number };

    fn try_from(number: u8) -> Result<EntryList, Refusal> {
        match number {
            0 => Ok(EntryList::Old),
            1 => Ok(EntryList::New),
            _ => Err(Refusal::ListBroken),
        }
    }
}
