// Statements given for signing or for checking.
ghost use Rattle.std.specs.Prelude.{◌≡◌, true, ◌≤◌, length};
ghost use Rattle.octets.specs.Strings.{put};
ghost use Rattle.statement.specs.Kinds.{size};
ghost use Rattle.statement.specs.Contents.{statement_written, statement_fits};

use statement::{Statement, write_statement};

// Writes a statement that fits as the first bytes of an area.
#[tactic(auto, using(statement::proofs::Records::fits_kind, statement::proofs::Records::written_length), unfolding(octets::specs::Layouts::writing))]
pub fn give(v: Statement, area: &mut [u8])
    requires { (statement_fits v ≡ true) × (size v.kind ≤ length area.old) }
    ensures { area.new ≡ put area.old 0 (statement_written v) }
{
    let _written = write_statement(v, area);
}
