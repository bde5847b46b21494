// Statements.
ghost use Rattle.std.specs.Prelude.{◌≡◌};
ghost use Rattle.interface.specs.Contents.{no_plain, plain_of, statement_of};
ghost use Rattle.interface.specs.Calls.{reading_statement, writing_statement};

use crate::kinds::{kind_of, nonce_in};
use crate::{NONCE, Plain, StatementRead};
use refusals::Written;
use statement::{DIGEST, LABEL, Statement};

impl Plain {
    // Every field zero.
    fn none() -> Plain
        ensures { result ≡ no_plain }
    {
        Plain {
            kind: 0,
            identity: [0; DIGEST],
            own: [0; DIGEST],
            other: [0; DIGEST],
            roll: [0; DIGEST],
            label: [0; LABEL],
            tail: [0; DIGEST],
            nonce: [0; NONCE],
            height: 0,
        }
    }
}

impl From<Statement> for Plain {
    ghost from_gives = { λ v p. p ≡ plain_of v };

    #[tactic(auto, unfolding(crate::specs::Contents::plain_of))]
    fn from(v: Statement) -> Plain {
        let Statement {
            kind,
            identity,
            own,
            label,
            tail,
            other,
            roll,
        } = v;
        let nonce = nonce_in(kind);
        Plain {
            kind: kind.number(),
            identity,
            own,
            other,
            roll,
            label,
            tail,
            nonce,
            height: desk::height_in(kind),
        }
    }
}

impl From<Plain> for Statement {
    ghost from_gives = { λ p v. v ≡ statement_of p };

    #[tactic(auto, unfolding(crate::specs::Contents::statement_of))]
    fn from(p: Plain) -> Statement {
        let Plain {
            kind: number,
            identity,
            own,
            other,
            roll,
            label,
            tail,
            nonce,
            height,
        } = p;
        Statement {
            kind: kind_of(number, height, &nonce),
            identity,
            own,
            label,
            tail,
            other,
            roll,
        }
    }
}

// Takes a statement apart.
#[unsafe(no_mangle)]
pub extern "C" fn mahqurith_read_statement(bytes: &[u8]) -> StatementRead
    ensures { result ≡ reading_statement bytes.now }
{
    match statement::read_statement(bytes) {
        Ok(v) => StatementRead {
            number: refusals::ACCEPTED,
            statement: Plain::from(v),
        },
        Err(refusal) => StatementRead {
            number: refusal.number(),
            statement: Plain::none(),
        },
    }
}

// Writes a statement as the first bytes of an area.
#[unsafe(no_mangle)]
pub extern "C" fn mahqurith_write_statement(statement: Plain, area: &mut [u8]) -> Written
    ensures { record { answer = result.number; count = result.written; area = area.new } ≡ writing_statement statement area.old }
{
    Written::from(statement::write_statement(Statement::from(statement), area))
}
