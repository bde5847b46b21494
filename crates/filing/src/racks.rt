// A rack's block.
ghost use Rattle.std.specs.Prelude.{◌≡◌, ◌≤◌, length};
ghost use Rattle.std.specs.Result.{result_unwrap_or};
ghost use Rattle.refusals.specs.Refused.{answer_of};
ghost use Rattle.rack.specs.Racks.{most, rack_bytes};
ghost use Rattle.filing.specs.Filed.{rack_body, rack_filed};

use crate::writing::{has_room, write_block};
use checks::CHECKED;
use octets::copy_at;
use rack::is_rack;
use receipts::{RACK, RACK_PLACE};
use refusals::{Refusal, Written};

// The type, the rack, and zeros.
fn rack_body(rack: &[u8]) -> [u8; CHECKED]
    requires { length rack.now ≤ rack_bytes most }
    ensures { result ≡ rack_body rack.now }
{
    let mut body = [0u8; CHECKED];
    body[0] = RACK;
    copy_at(&mut body, RACK_PLACE, rack);
    body
}

// Puts a rack's block at the front of an area.
fn put_rack(rack: &[u8], area: &mut [u8]) -> Result<usize, Refusal>
    ensures { record { answer = answer_of result; count = result_unwrap_or result 0; area = area.new } ≡ rack_filed rack.now area.old }
{
    if !is_rack(rack) {
        return Err(Refusal::RackBroken);
    }
    if !has_room(area) {
        return Err(Refusal::AreaTooShort);
    }
    write_block(rack_body(rack), area)
}

// Writes a rack's block as the first bytes of an area.
#[unsafe(no_mangle)]
pub extern "C" fn mahqurith_write_rack_block(rack: &[u8], area: &mut [u8]) -> Written
    ensures { record { answer = result.number; count = result.written; area = area.new } ≡ rack_filed rack.now area.old }
{
    Written::from(put_rack(rack, area))
}
