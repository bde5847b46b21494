// Statements: the record that they are read into and written from, and the two calls.
#![tactic(auto)]

mod cut;
mod fits;
mod handing;
mod kinds;
mod put;

ghost use Rattle.std.specs.Prelude.{◌≡◌};
ghost use Rattle.std.specs.Result.{result_unwrap_or};
ghost use Rattle.refusals.specs.{statement_not_asked};
ghost use Rattle.refusals.specs.Refused.{answer_of};
ghost use Rattle.octets.specs.Layouts.{writing};
ghost use Rattle.statement.specs.Cut.{blank_statement};
ghost use Rattle.statement.specs.Layout.{statement_layout, reading};

use cut::cut;
pub use handing::handover_statement;
pub use kinds::{
    APPEND, DIGEST, FINALISE, HANDOVER_SIZE, INITIALISE, LABEL, NEW, NUMBER, READ, READING_SIZE,
    RECEIPT_SIZE,
};
use refusals::Refusal;

// The last part of a statement, which depends on its kind. Blank is no statement.
// Blank stays: the contracts of `read_statement` and `mahqurith_read_statement` speak of it, by `blank_statement`.
#[derive(Clone, Copy)]
pub enum Kind {
    Blank,
    New,
    Append {
        height: u64,
    },
    Read {
        height: u64,
        nonce_high: u64,
        nonce_low: u64,
    },
    Finalise,
    Initialise,
}

// A parsed statement; the fields that its kind has not are zero. The other rack is the next one of a finalise statement, the previous one of an
// initialise statement.
#[derive(Clone, Copy)]
pub struct Statement {
    pub kind: Kind,
    pub identity: [u8; DIGEST],
    pub own: [u8; DIGEST],
    pub label: [u8; LABEL],
    pub tail: [u8; DIGEST],
    pub other: [u8; DIGEST],
    pub roll: [u8; DIGEST],
}

// Takes a statement apart.
#[tactic(auto, using(crate::proofs::Held::holds_is), unfolding(crate::specs::Layout::reading))]
pub fn read_statement(s: &[u8]) -> Result<Statement, Refusal>
    ensures { record { answer = answer_of result; statement = result_unwrap_or result blank_statement } ≡ reading s.now }
{
    let statement = cut(s);
    if statement.fits() {
        Ok(statement)
    } else {
        Err(Refusal::StatementNotAsked)
    }
}

// Writes a statement as the first bytes of an area.
#[tactic(auto, using(crate::proofs::Types::lengths), unfolding(octets::specs::Layouts::writing, octets::specs::Layouts::unwritten))]
pub fn write_statement(v: Statement, area: &mut [u8]) -> Result<usize, Refusal>
    ensures { record { answer = answer_of result; count = result_unwrap_or result 0; area = area.new }
        ≡ writing statement_layout statement_not_asked v area.old }
{
    if !v.fits() {
        return Err(Refusal::StatementNotAsked);
    }
    let size = v.kind.size();
    if area.len() < size {
        return Err(Refusal::AreaTooShort);
    }
    v.put(area);
    Ok(size)
}
