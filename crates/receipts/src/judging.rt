// What the desk finds of a receipt.
ghost use Rattle.std.specs.Prelude.{◌≡◌, ◌≤◌};
ghost use Rattle.rack.specs.Racks.{most};
ghost use Rattle.statement.specs.Kinds.{reading_size};
ghost use Rattle.receipts.specs.Block.{length_in, count_in};
ghost use Rattle.receipts.specs.Judged.{finding};

use crate::{
    ASKED_PLACE, COUNT_PLACE, IDENTITY_PLACE, LABEL_PLACE, LENGTH_PLACE, NONCE_PLACE, PAIRS_PLACE,
    STATEMENT_PLACE,
};
use checks::BLOCK;
use desk::{Digested, Finding, Question, verdict_with};
use octets::array_at;

// The desk's finding of a receipt under a rack; an empty rack is none.
#[tactic(auto, unfolding(crate::specs::Judged::finding, crate::specs::Judged::question))]
pub fn judged(digested: Digested, b: &[u8; BLOCK]) -> Finding
    requires { (length_in b.now ≤ reading_size) × (count_in b.now ≤ most) }
    ensures { result ≡ finding digested.entry.rack.now b.now }
{
    let identity = array_at(b, IDENTITY_PLACE);
    let label = array_at(b, LABEL_PLACE);
    let nonce = array_at(b, NONCE_PLACE);
    let question = Question {
        identity,
        label,
        nonce,
        kind: b[ASKED_PLACE],
    };
    let end = STATEMENT_PLACE + usize::from(b[LENGTH_PLACE]);
    let last = PAIRS_PLACE + 2 * usize::from(b[COUNT_PLACE]);
    verdict_with(
        question,
        digested,
        &b[STATEMENT_PLACE..end],
        &b[PAIRS_PLACE..last],
    )
}
