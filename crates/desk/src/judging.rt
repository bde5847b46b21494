// The verdict.
ghost use Rattle.std.specs.Prelude.{◌≡◌};
ghost use Rattle.refusals.specs.Refused.{answer_of};
ghost use Rattle.desk.specs.Verdict.{signers_fit, height_in, verdict_refusal, judging};
ghost use Rattle.desk.specs.Asked.{asked_with, finding_of};

use crate::asking::{has_other_nonce, is_asked_for};
use crate::{Digested, Finding, Question};
use marks::{check_all, entries_fit};
use rack::{is_rack, majority};
use refusals::Refusal;
use statement::{DIGEST, Kind, Statement, read_statement};

// Whether signers are whole pairs for a rack of n, at most n of them.
#[tactic(auto, unfolding(crate::specs::Verdict::signers_fit))]
fn is_signers(n: usize, signers: &[u8]) -> bool
    ensures { result ≡ signers_fit n signers.now }
{
    let count = signers.len() / 2;
    2 * count == signers.len() && count <= n && entries_fit(signers, n)
}

// Tests in the order of the refusals.
#[tactic(auto, unfolding(crate::specs::Verdict::verdict_refusal, refusals::specs::Order::first, rack::specs::Racks::rack_cut))]
fn check_verdict(
    question: Question,
    digested: Digested,
    s: &[u8],
    signers: &[u8],
) -> Result<(), Refusal>
    ensures { answer_of result ≡ verdict_refusal (asked_with question digested.entry.rack.now) s.now signers.now }
{
    let rack = digested.rack;
    if !is_rack(rack) {
        return Err(Refusal::RackBroken);
    }
    let n = rack[0];
    if !is_signers(n as usize, signers) {
        return Err(Refusal::ListBroken);
    }
    if !is_asked_for(question, digested.digest, s) {
        return Err(Refusal::StatementNotAsked);
    }
    if has_other_nonce(question, s) {
        return Err(Refusal::NonceDiffers);
    }
    if signers.len() / 2 < majority(n) as usize {
        return Err(Refusal::TooFew);
    }
    check_all(signers, Refusal::SignatureNotValid)
}

// The height that a kind has; 0 where it has none.
pub fn height_in(kind: Kind) -> u64
    ensures { result ≡ height_in kind }
{
    match kind {
        Kind::Append { height } | Kind::Read { height, .. } => height,
        Kind::Blank | Kind::New | Kind::Finalise | Kind::Initialise => 0,
    }
}

impl From<Result<Statement, Refusal>> for Finding {
    ghost from_gives = { λ outcome finding. finding ≡ finding_of outcome };

    #[tactic(auto, unfolding(crate::specs::Verdict::nothing_shown))]
    fn from(outcome: Result<Statement, Refusal>) -> Finding {
        match outcome {
            Ok(statement) => {
                let Statement { kind, tail, .. } = statement;
                Finding {
                    number: refusals::ACCEPTED,
                    tail,
                    height: height_in(kind),
                }
            }
            Err(refusal) => Finding {
                number: refusal.number(),
                tail: [0; DIGEST],
                height: 0,
            },
        }
    }
}

// The statement that a rack's signers vouch for.
fn vouched(
    question: Question,
    digested: Digested,
    s: &[u8],
    signers: &[u8],
) -> Result<Statement, Refusal>
    ensures { finding_of result ≡ judging (asked_with question digested.entry.rack.now) s.now signers.now }
{
    check_verdict(question, digested, s, signers)?;
    read_statement(s)
}

// The verdict by a rack whose digest was taken before.
pub fn verdict_with(question: Question, digested: Digested, s: &[u8], signers: &[u8]) -> Finding
    ensures { result ≡ judging (asked_with question digested.entry.rack.now) s.now signers.now }
{
    Finding::from(vouched(question, digested, s, signers))
}

// Tail and height of the ledger, as a majority of the rack's keys signed them.
pub fn verdict(question: Question, rack: &[u8], s: &[u8], signers: &[u8]) -> Finding
    ensures { result ≡ judging (asked_with question rack.now) s.now signers.now }
{
    verdict_with(question, Digested::new(rack), s, signers)
}
