// A string taken apart into a statement.
ghost use Rattle.std.specs.Prelude.{◌≡◌, ◌&&◌, ◌+◌, ◌≤◌, ◌<◌, length, get_or, eqb};
ghost use Rattle.statement.specs.Kinds.{digest_bytes, receipt_size, handover_size};
ghost use Rattle.statement.specs.Cut.{blank_statement, kind_at, receipt_at, handover_at, cut_statement};

use crate::kinds::{
    APPEND, DIGEST, FINALISE, FIRST_PLACE, HANDOVER_SIZE, HEIGHT_PLACE, IDENTITY_PLACE, INITIALISE,
    LABEL, LABEL_PLACE, NEW, NONCE_HALF, NONCE_PLACE, READ, READING_SIZE, RECEIPT_SIZE,
    SECOND_PLACE, TAIL_PLACE, THIRD_PLACE,
};
use crate::{Kind, Statement, handover_statement};
use octets::{array_at, number_at};

// Whether a string has the length and the first byte of a kind.
fn starts(s: &[u8], kind: u8, size: usize) -> bool
    requires { 0 < size }
    ensures { result ≡ (eqb (length s.now) size && eqb (get_or s.now 0 0) kind) }
{
    s.len() == size && s[0] == kind
}

// The kind of a string, and its numbers. A new ledger's height is 0.
#[tactic(auto, unfolding(crate::specs::Cut::kind_at))]
fn kind_at(s: &[u8]) -> Kind
    ensures { result ≡ kind_at s.now }
{
    if starts(s, NEW, RECEIPT_SIZE) {
        if number_at(s, HEIGHT_PLACE) == 0 {
            Kind::New
        } else {
            Kind::Blank
        }
    } else if starts(s, APPEND, RECEIPT_SIZE) {
        Kind::Append {
            height: number_at(s, HEIGHT_PLACE),
        }
    } else if starts(s, READ, READING_SIZE) {
        Kind::Read {
            height: number_at(s, HEIGHT_PLACE),
            nonce_high: number_at(s, NONCE_PLACE),
            nonce_low: number_at(s, NONCE_HALF),
        }
    } else if starts(s, FINALISE, HANDOVER_SIZE) {
        Kind::Finalise
    } else if starts(s, INITIALISE, HANDOVER_SIZE) {
        Kind::Initialise
    } else {
        Kind::Blank
    }
}

// No statement.
#[tactic(auto, unfolding(crate::specs::Cut::blank_statement))]
fn blank() -> Statement
    ensures { result ≡ blank_statement }
{
    Statement {
        kind: Kind::Blank,
        identity: [0; DIGEST],
        own: [0; DIGEST],
        label: [0; LABEL],
        tail: [0; DIGEST],
        other: [0; DIGEST],
        roll: [0; DIGEST],
    }
}

// The fields of a new, append or read statement.
#[tactic(auto, unfolding(crate::specs::Cut::blank_statement, crate::specs::Cut::receipt_at))]
fn receipt_at(kind: Kind, s: &[u8]) -> Statement
    requires { receipt_size ≤ length s.now }
    ensures { result ≡ receipt_at kind s.now }
{
    Statement {
        kind,
        identity: array_at(s, IDENTITY_PLACE),
        own: array_at(s, FIRST_PLACE),
        label: array_at(s, LABEL_PLACE),
        tail: array_at(s, TAIL_PLACE),
        ..blank()
    }
}

// The fields of a finalise or initialise statement, whose first two digests stand in another order.
#[tactic(auto, unfolding(crate::specs::Cut::handover_at))]
fn handover_at(kind: Kind, mine: usize, theirs: usize, s: &[u8]) -> Statement
    requires { (mine + digest_bytes ≤ length s.now) × (theirs + digest_bytes ≤ length s.now) × (handover_size ≤ length s.now) }
    ensures { result ≡ handover_at kind mine theirs s.now }
{
    handover_statement(
        kind,
        array_at(s, IDENTITY_PLACE),
        array_at(s, mine),
        array_at(s, theirs),
        array_at(s, THIRD_PLACE),
    )
}

// A string taken apart by its kind: no statement where it has none.
#[tactic(auto, using(crate::proofs::Strings::kind_sized), unfolding(crate::specs::Cut::cut_as, crate::specs::Cut::cut_statement))]
pub fn cut(s: &[u8]) -> Statement
    ensures { result ≡ cut_statement s.now }
{
    let kind = kind_at(s);
    match kind {
        Kind::Blank => blank(),
        Kind::New | Kind::Append { .. } | Kind::Read { .. } => receipt_at(kind, s),
        Kind::Finalise => handover_at(kind, FIRST_PLACE, SECOND_PLACE, s),
        Kind::Initialise => handover_at(kind, SECOND_PLACE, FIRST_PLACE, s),
    }
}
