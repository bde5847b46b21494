// The receipts that New, Append and Read give for signing.
ghost use Rattle.std.specs.Prelude.{◌≡◌};
ghost use Rattle.rules.specs.Rows.{receipt_of};

use rules::Head;
use statement::{Kind, Statement};

// A receipt of this keeper for a ledger at a tail; the kind has the height.
pub fn receipt(head: Head, kind: Kind, label: [u8; 16], tail: [u8; 32]) -> Statement
    ensures { result ≡ receipt_of head kind label tail }
{
    let Head { identity, own, .. } = head;
    Statement {
        kind,
        identity,
        own,
        label,
        tail,
        other: [0; 32],
        roll: [0; 32],
    }
}
