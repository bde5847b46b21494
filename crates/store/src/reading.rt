// The read.
ghost use Rattle.std.specs.Prelude.{◌≡◌};
ghost use Rattle.store.specs.Answers.{copied_told};
ghost use Rattle.store.specs.Read.{reading};

use crate::scan::{first_answer, has_damaged, is_area};
use crate::standing::block_at;
use crate::{Answer, Place};
use checks::BLOCK;
use octets::copy_at;
use refusals::Refusal;

// Copies out the block of a label and a height; gives how many bytes.
fn read(area: &[u8], asked: Place, output: &mut [u8]) -> Result<usize, Refusal>
    ensures { copied_told result output.new ≡ reading area.now asked.label asked.height output.old }
{
    if output.len() < BLOCK {
        return Err(Refusal::AreaTooShort);
    }
    if !is_area(area) {
        return Err(Refusal::RecordNotSound);
    }
    let n = area.len() / BLOCK;
    let Some(at) = first_answer(area, &asked.label, asked.height, n) else {
        if has_damaged(area, n) {
            return Err(Refusal::BlockDamaged);
        }
        return Err(Refusal::NoSuchLedger);
    };
    copy_at(output, 0, block_at(area, at));
    Ok(BLOCK)
}

// Copies out the block of a label and a height.
#[unsafe(no_mangle)]
pub extern "C" fn mahqurith_store_read(area: &[u8], asked: Place, output: &mut [u8]) -> Answer
    ensures { record { number = result.number; written = result.written; height = result.height; output = output.new }
        ≡ reading area.now asked.label asked.height output.old }
{
    match read(area, asked, output) {
        Ok(written) => Answer::accepted(written),
        Err(refusal) => Answer::from(refusal),
    }
}
