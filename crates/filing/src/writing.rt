// A block's first bytes and their check, at the front of an area.
ghost use Rattle.std.specs.Prelude.{◌≡◌, true, ℕ, length, leb};
ghost use Rattle.std.specs.Result.{result_unwrap_or};
ghost use Rattle.refusals.specs.Refused.{answer_of};
ghost use Rattle.checks.specs.Check.{block_bytes};
ghost use Rattle.filing.specs.Filed.{filed};

use checks::{BLOCK, CHECKED, check_of};
use octets::copy_at;
use refusals::Refusal;

// Whether an area has room for a block. The calls ask it before they make one.
pub fn has_room(area: &[u8]) -> bool
    ensures { result ≡ leb block_bytes (length area.now) }
{
    BLOCK <= area.len()
}

// Writes a block, where the area has room for it.
#[tactic(auto, using(crate::proofs::Filing::check_behind), unfolding(crate::specs::Filed::filed, octets::specs::Layouts::unwritten))]
pub fn write_block(body: [u8; CHECKED], area: &mut [u8]) -> Result<usize, Refusal>
    ensures { (broken : ℕ) → record { answer = answer_of result; count = result_unwrap_or result 0; area = area.new } ≡ filed true broken body area.old }
{
    if !has_room(area) {
        return Err(Refusal::AreaTooShort);
    }
    let check = check_of(&body);
    copy_at(area, 0, &body);
    copy_at(area, CHECKED, &check);
    Ok(BLOCK)
}
