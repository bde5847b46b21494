// Whether a statement is the one asked for, and has the nonce.
ghost use Rattle.std.specs.Prelude.{◌≡◌, ◌&&◌, List, ℕ, leb};
ghost use Rattle.octets.specs.Strings.{same};
ghost use Rattle.rack.specs.Racks.{rack_digest};
ghost use Rattle.desk.specs.Verdict.{is_asked_for, has_other_nonce};
ghost use Rattle.desk.specs.Asked.{asked_with};

use crate::Question;
use octets::is_same;
use statement::{DIGEST, NEW, READ, RECEIPT_SIZE, Statement, read_statement};

// Where the nonce of a read statement stands, up to its end: behind what every receipt has.
const NONCE_PLACE: usize = RECEIPT_SIZE;

// Whether a kind may be asked for.
fn is_askable(kind: u8) -> bool
    ensures { result ≡ (leb 1 kind && leb kind 3) }
{
    NEW <= kind && kind <= READ
}

// Whether a statement is of the identity and the ledger asked for, and of a rack with this digest. `is_same` stays: it states `same`, the rule's word, and `==`
// is no plainer.
fn is_of(v: Statement, question: Question, digest: [u8; DIGEST]) -> bool
    ensures { result ≡ (same v.identity question.identity && same v.own digest && same v.label question.label) }
{
    is_same(&v.identity, &question.identity)
        && is_same(&v.own, &digest)
        && is_same(&v.label, &question.label)
}

// Whether a string is a statement of the asked kind, and of the identity, a rack with this digest and the ledger; whatever the nonce.
#[tactic(auto, unfolding(crate::specs::Verdict::is_asked_for))]
pub fn is_asked_for(question: Question, digest: [u8; DIGEST], s: &[u8]) -> bool
    ensures { (rack : List ℕ) → digest ≡ rack_digest rack → result ≡ is_asked_for (asked_with question rack) s.now }
{
    if !is_askable(question.kind) {
        return false;
    }
    match read_statement(s) {
        Ok(v) => v.kind.number() == question.kind && is_of(v, question, digest),
        Err(_) => false,
    }
}

// Whether a reading was asked for and the string has not this nonce; whatever else was asked for.
#[tactic(auto, unfolding(crate::specs::Verdict::has_other_nonce))]
pub fn has_other_nonce(question: Question, s: &[u8]) -> bool
    ensures { (rack : List ℕ) → result ≡ has_other_nonce (asked_with question rack) s.now }
{
    if question.kind != READ {
        return false;
    }
    s.len() < NONCE_PLACE || !is_same(&s[NONCE_PLACE..], &question.nonce)
}
