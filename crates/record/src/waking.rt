// Wake.
ghost use Rattle.std.specs.Prelude.{◌≡◌, []};
ghost use Rattle.rules.specs.Outcomes.{Lent, outcome, told};
ghost use Rattle.rules.specs.Wake.{woken, waking};

use crate::soundness::BLANK;
use refusals::Refusal;
use rules::{Done, Head};

// The head of a blank record.
pub fn woken(key: [u8; 32]) -> Head
    ensures { result ≡ woken key }
{
    let zeros = [0u8; 32];
    Head {
        status: BLANK,
        count: 0,
        key,
        identity: zeros,
        own: zeros,
        previous: zeros,
        next: zeros,
    }
}

// The record becomes blank, with this key, whatever it was.
pub fn wake(head: Head, table: &mut [u8], key: [u8; 32]) -> Result<Done, Refusal>
    ensures { outcome (told head result) table.new [] ≡ waking (record { head = head; table = table.old; area = [] }) key }
{
    if table.len() != rows::TABLE {
        return Err(Refusal::RecordNotSound);
    }
    table.fill(0);
    Ok(Done {
        written: 0,
        repeat: false,
        head: woken(key),
    })
}
