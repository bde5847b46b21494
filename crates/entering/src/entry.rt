// Initialise: founding, and taking over.
ghost use Rattle.std.specs.Prelude.{◌≡◌, ◌≤◌, length, Ok};
ghost use Rattle.statement.specs.Kinds.{handover_size};
ghost use Rattle.rules.specs.Outcomes.{outcome, told};
ghost use Rattle.rules.specs.Initialise.{entered, initialising};
ghost use Rattle.entering.specs.Parts.{Takeable, taking_over};

use crate::asked::check_initialise;
use crate::heads::{founded, preparing, spoken};
use record::give;
use refusals::Refusal;
use roll::take_rows;
use rules::{Done, Head};
use statement::HANDOVER_SIZE;

// The keeper with this head, and its statement.
fn enter(head: Head, table: &[u8], area: &mut [u8]) -> Done
    requires { handover_size ≤ length area.old }
    ensures { outcome (told head (Ok result)) table.now area.new ≡ entered (record { head = head; table = table.now; area = area.old }) head table.now }
{
    give(spoken(head, table), area);
    Done {
        written: HANDOVER_SIZE,
        repeat: false,
        head,
    }
}

// The keeper takes the roll and the identity, unproved.
fn take_over(
    head: Head,
    table: &mut [u8],
    identity: [u8; 32],
    roll: &[u8],
    previous: &[u8],
    own: &[u8],
    area: &mut [u8],
) -> Done
    requires { Takeable (record { head = head; table = table.old; area = area.old }) roll.now previous.now own.now }
    ensures { outcome (told head (Ok result)) table.new area.new
        ≡ taking_over (record { head = head; table = table.old; area = area.old }) identity roll.now previous.now own.now }
{
    let count = take_rows(roll, table);
    let next = preparing(head, identity, count, previous, own);
    enter(next, table, area)
}

// The keeper founds a rack where neither a roll nor a previous rack is given, or else prepares to take over.
pub fn initialise(
    head: Head,
    table: &mut [u8],
    identity: [u8; 32],
    roll: &[u8],
    previous: &[u8],
    own: &[u8],
    area: &mut [u8],
) -> Result<Done, Refusal>
    ensures { outcome (told head result) table.new area.new
        ≡ initialising (record { head = head; table = table.old; area = area.old }) identity roll.now previous.now own.now }
{
    check_initialise(head, table, roll, previous, own, area)?;
    if roll.is_empty() {
        return Ok(enter(founded(head, own), table, area));
    }
    Ok(take_over(head, table, identity, roll, previous, own, area))
}
