// Reading a roll.
ghost use Rattle.std.specs.Prelude.{◌≡◌};
ghost use Rattle.std.specs.Result.{result_unwrap_or};
ghost use Rattle.refusals.specs.Refused.{answer_of};
ghost use Rattle.roll.specs.Roll.{reading_roll};

use crate::gather::take_rows;
use crate::test::is_roll;
use refusals::Refusal;
use rows::TABLE;

// Reads a roll into the table, or refuses and changes nothing.
pub fn read_roll(s: &[u8], rows: &mut [u8; TABLE]) -> Result<u8, Refusal>
    ensures { record { answer = answer_of result; count = result_unwrap_or result 0; rows = rows.new } ≡ reading_roll s.now rows.old }
{
    if !is_roll(s) {
        return Err(Refusal::RollBroken);
    }
    Ok(take_rows(s, rows))
}
