// Rolls.
ghost use Rattle.std.specs.Prelude.{◌≡◌};
ghost use Rattle.interface.specs.Calls.{reading_roll, writing_roll};

use crate::reading::number_of;
use crate::{Roll, RollRead};
use refusals::Written;
use rows::TABLE;

// Takes a roll apart.
#[unsafe(no_mangle)]
pub extern "C" fn mahqurith_read_roll(bytes: &[u8]) -> RollRead
    ensures { result ≡ reading_roll bytes.now }
{
    let mut table = [0u8; TABLE];
    let read = roll::read_roll(bytes, &mut table);
    let rows = table::rows_of(&table);
    RollRead {
        number: number_of(read),
        roll: Roll {
            count: read.unwrap_or(0),
            rows,
        },
    }
}

// Writes a roll's blocks as the first bytes of an area.
#[unsafe(no_mangle)]
pub extern "C" fn mahqurith_write_roll(roll: Roll, area: &mut [u8]) -> Written
    ensures { record { answer = result.number; count = result.written; area = area.new } ≡ writing_roll roll area.old }
{
    Written::from(roll::write_roll(roll.count, &table::flat(roll.rows), area))
}
