// The heads that Initialise leaves, and the statement of a head.
ghost use Rattle.std.specs.Prelude.{◌≡◌, true};
ghost use Rattle.octets.specs.Layouts.{holds};
ghost use Rattle.rack.specs.Racks.{rack_layout};
ghost use Rattle.rules.specs.Initialise.{founded, preparing};
ghost use Rattle.entering.specs.Parts.{spoken};

use rack::rack_digest;
use record::{ACTIVE, PREPARED};
use rows::roll_digest;
use rules::Head;
use statement::{Kind, Statement, handover_statement};

// The initialise statement of a head and a table.
pub fn spoken(head: Head, table: &[u8]) -> Statement
    ensures { result ≡ spoken head table.now }
{
    let roll = roll_digest(usize::from(head.count), table);
    handover_statement(
        Kind::Initialise,
        head.identity,
        head.own,
        head.previous,
        roll,
    )
}

// The head of a keeper whose rack is founded.
pub fn founded(head: Head, own: &[u8]) -> Head
    requires { holds rack_layout own.now ≡ true }
    ensures { result ≡ founded head own.now }
{
    let digest = rack_digest(own);
    Head {
        status: ACTIVE,
        identity: digest,
        own: digest,
        previous: [0; 32],
        next: [0; 32],
        ..head
    }
}

// The head of a keeper that is to take over a roll.
pub fn preparing(head: Head, identity: [u8; 32], count: u8, previous: &[u8], own: &[u8]) -> Head
    requires { (holds rack_layout previous.now ≡ true) × (holds rack_layout own.now ≡ true) }
    ensures { result ≡ preparing head identity count previous.now own.now }
{
    Head {
        status: PREPARED,
        count,
        identity,
        own: rack_digest(own),
        previous: rack_digest(previous),
        next: [0; 32],
        ..head
    }
}
