// Writing a rack.
ghost use Rattle.std.specs.Prelude.{◌≡◌};
ghost use Rattle.std.specs.Result.{result_unwrap_or};
ghost use Rattle.refusals.specs.{rack_broken};
ghost use Rattle.refusals.specs.Refused.{answer_of};
ghost use Rattle.octets.specs.Layouts.{writing};
ghost use Rattle.rack.specs.Racks.{rack_layout, rack_fits};

use crate::keys::{KEY_BYTES, Keys, MOST, is_rising};
use octets::{copy_at, is_zero};
use refusals::Refusal;

// Whether these are contents that reading gives.
#[tactic(auto, unfolding(crate::specs::Racks::rack_fits))]
fn is_fitting(keys: Keys, count: usize) -> bool
    ensures { result ≡ rack_fits (record { count = count; keys = keys }) }
{
    1 <= count && count <= MOST && is_rising(keys, count) && is_zero(keys[count..].as_flattened())
}

// Writes a rack into the first bytes of an area, or nothing changes: the contents are none that reading gives, or the area is too short for them.
pub fn write_rack(count: u8, keys: Keys, area: &mut [u8]) -> Result<usize, Refusal>
    ensures { record { answer = answer_of result; count = result_unwrap_or result 0; area = area.new }
        ≡ writing rack_layout rack_broken (record { count = count; keys = keys }) area.old }
{
    let n = usize::from(count);
    if !is_fitting(keys, n) {
        return Err(Refusal::RackBroken);
    }
    let bytes = 1 + KEY_BYTES * n;
    if area.len() < bytes {
        return Err(Refusal::AreaTooShort);
    }
    area[0] = count;
    copy_at(area, 1, keys[..n].as_flattened());
    Ok(bytes)
}
