// Racks, rolls and statements, taken apart and written.
ghost use Rattle.std.specs.Prelude.{◌≡◌};
ghost use Rattle.interface.specs.Calls.{reading_rack, writing_rack, reading_roll, writing_roll, reading_statement, writing_statement};

use interface::{Plain, Rack, RackRead, Roll, RollRead, StatementRead};
use refusals::Written;

// Takes a rack apart.
#[unsafe(no_mangle)]
pub extern "C" fn mahqurith_read_rack(bytes: &[u8]) -> RackRead
    ensures { result ≡ reading_rack bytes.now }
{
    interface::mahqurith_read_rack(bytes)
}

// Writes a rack as the first bytes of an area.
#[unsafe(no_mangle)]
pub extern "C" fn mahqurith_write_rack(rack: Rack, area: &mut [u8]) -> Written
    ensures { record { answer = result.number; count = result.written; area = area.new } ≡ writing_rack rack area.old }
{
    interface::mahqurith_write_rack(rack, area)
}

// Takes a roll apart.
#[unsafe(no_mangle)]
pub extern "C" fn mahqurith_read_roll(bytes: &[u8]) -> RollRead
    ensures { result ≡ reading_roll bytes.now }
{
    interface::mahqurith_read_roll(bytes)
}

// Writes a roll's blocks as the first bytes of an area.
#[unsafe(no_mangle)]
pub extern "C" fn mahqurith_write_roll(roll: Roll, area: &mut [u8]) -> Written
    ensures { record { answer = result.number; count = result.written; area = area.new } ≡ writing_roll roll area.old }
{
    interface::mahqurith_write_roll(roll, area)
}

// Takes a statement apart.
#[unsafe(no_mangle)]
pub extern "C" fn mahqurith_read_statement(bytes: &[u8]) -> StatementRead
    ensures { result ≡ reading_statement bytes.now }
{
    interface::mahqurith_read_statement(bytes)
}

// Writes a statement as the first bytes of an area.
#[unsafe(no_mangle)]
pub extern "C" fn mahqurith_write_statement(statement: Plain, area: &mut [u8]) -> Written
    ensures { record { answer = result.number; count = result.written; area = area.new } ≡ writing_statement statement area.old }
{
    interface::mahqurith_write_statement(statement, area)
}
