// A receipt's block.
ghost use Rattle.std.specs.Prelude.{◌≡◌, true, ◌∷◌, ◌+◌, ◌≤◌, length};
ghost use Rattle.std.specs.Result.{result_unwrap_or};
ghost use Rattle.refusals.specs.Refused.{answer_of};
ghost use Rattle.octets.specs.Strings.{put};
ghost use Rattle.filing.specs.Filed.{receipt_body, receipt_fits, receipt_filed};

use crate::writing::{has_room, write_block};
use checks::CHECKED;
use desk::Question;
use octets::copy_at;
use rack::MOST;
use receipts::{COUNT_PLACE, IDENTITY_PLACE, LABEL_PLACE, LENGTH_PLACE, NONCE_PLACE, RECEIPT};
use refusals::{Refusal, Written};
use statement::READING_SIZE;

// Whether there is a place for a statement and for signers.
#[tactic(auto, unfolding(crate::specs::Filed::receipt_fits))]
fn is_fitting(s: &[u8], signers: &[u8]) -> bool
    ensures { result ≡ receipt_fits s.now signers.now }
{
    let count = signers.len() / 2;
    s.len() <= READING_SIZE && 2 * count == signers.len() && count <= MOST
}

// A byte and a string behind it, from a place on.
fn put_counted(body: &mut [u8], at: usize, count: u8, s: &[u8])
    requires { at + (1 + length s.now) ≤ length body.old }
    ensures { body.new ≡ put body.old at (count ∷ s.now) }
{
    copy_at(body, at, &[count]);
    copy_at(body, at + 1, s);
}

// Each field in its place, and zeros elsewhere.
fn receipt_body(question: Question, s: &[u8], signers: &[u8]) -> [u8; CHECKED]
    requires { receipt_fits s.now signers.now ≡ true }
    ensures { result ≡ receipt_body question s.now signers.now }
{
    let mut body = [0u8; CHECKED];
    copy_at(&mut body, 0, &[RECEIPT, question.kind]);
    copy_at(&mut body, LABEL_PLACE, &question.label);
    copy_at(&mut body, NONCE_PLACE, &question.nonce);
    copy_at(&mut body, IDENTITY_PLACE, &question.identity);
    put_counted(&mut body, LENGTH_PLACE, s.len() as u8, s);
    put_counted(&mut body, COUNT_PLACE, (signers.len() / 2) as u8, signers);
    body
}

// Puts a receipt's block at the front of an area.
fn put_receipt(
    question: Question,
    s: &[u8],
    signers: &[u8],
    area: &mut [u8],
) -> Result<usize, Refusal>
    ensures { record { answer = answer_of result; count = result_unwrap_or result 0; area = area.new } ≡ receipt_filed question s.now signers.now area.old }
{
    if !is_fitting(s, signers) {
        return Err(Refusal::StatementNotAsked);
    }
    if !has_room(area) {
        return Err(Refusal::AreaTooShort);
    }
    write_block(receipt_body(question, s, signers), area)
}

// Writes a receipt's block as the first bytes of an area.
#[unsafe(no_mangle)]
pub extern "C" fn mahqurith_write_receipt(
    question: Question,
    s: &[u8],
    signers: &[u8],
    area: &mut [u8],
) -> Written
    ensures { record { answer = result.number; count = result.written; area = area.new } ≡ receipt_filed question s.now signers.now area.old }
{
    Written::from(put_receipt(question, s, signers, area))
}
