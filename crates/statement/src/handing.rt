// Finalise and initialise statements made of their parts.
ghost use Rattle.std.specs.Prelude.{◌≡◌};
ghost use Rattle.statement.specs.Cut.{handover_of};

use crate::{DIGEST, Kind, LABEL, Statement};

// A statement of digests, without a label and a tail.
pub fn handover_statement(
    kind: Kind,
    identity: [u8; DIGEST],
    own: [u8; DIGEST],
    other: [u8; DIGEST],
    roll: [u8; DIGEST],
) -> Statement
    ensures { result ≡ handover_of kind identity own other roll }
{
    Statement {
        kind,
        identity,
        own,
        label: [0; LABEL],
        tail: [0; DIGEST],
        other,
        roll,
    }
}
