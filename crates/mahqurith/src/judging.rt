// The verdict.
ghost use Rattle.std.specs.Prelude.{◌≡◌};
ghost use Rattle.desk.specs.Verdict.{judging};
ghost use Rattle.desk.specs.Asked.{asked_with};

use desk::{Finding, Question};

// Tail and height of the ledger, as a majority of the rack's keys signed them.
#[unsafe(no_mangle)]
pub extern "C" fn mahqurith_verdict(
    question: Question,
    rack: &[u8],
    statement: &[u8],
    signers: &[u8],
) -> Finding
    ensures { result ≡ judging (asked_with question rack.now) statement.now signers.now }
{
    interface::mahqurith_verdict(question, rack, statement, signers)
}
