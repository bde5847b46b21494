// A keeper's record: the head's status, and whether the record is sound.
ghost use Rattle.std.specs.Prelude.{◌≡◌, true, cond, eqb};
ghost use Rattle.rules.specs.Record.{blank, sound};

use rules::Head;

pub const BLANK: u8 = 0;

pub const PREPARED: u8 = 1;

pub const ACTIVE: u8 = 2;

pub const FINALISED: u8 = 3;

// Whether a count goes with a status: a blank keeper has no rows.
fn is_counted(status: u8, count: u8) -> bool
    ensures { result ≡ cond (eqb status blank) (eqb count 0) true }
{
    status != BLANK || count == 0
}

// Whether the record is sound.
#[tactic(auto, unfolding(rules::specs::Record::sound))]
pub fn is_sound(head: Head, table: &[u8]) -> bool
    ensures { result ≡ sound head table.now }
{
    head.status <= FINALISED
        && is_counted(head.status, head.count)
        && rows::rows_fit(table, head.count as usize)
}
