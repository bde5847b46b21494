// The blocks that a desk writes for the morning report.
ghost use Rattle.std.specs.Prelude.{◌≡◌};
ghost use Rattle.filing.specs.Filed.{rack_filed, receipt_filed};

use desk::Question;
use refusals::Written;

// Writes a rack's block as the first bytes of an area.
#[unsafe(no_mangle)]
pub extern "C" fn mahqurith_write_rack_block(rack: &[u8], area: &mut [u8]) -> Written
    ensures { record { answer = result.number; count = result.written; area = area.new } ≡ rack_filed rack.now area.old }
{
    filing::mahqurith_write_rack_block(rack, area)
}

// Writes a receipt's block as the first bytes of an area.
#[unsafe(no_mangle)]
pub extern "C" fn mahqurith_write_receipt(
    question: Question,
    s: &[u8],
    signers: &[u8],
    area: &mut [u8],
) -> Written
    ensures { record { answer = result.number; count = result.written; area = area.new } ≡ receipt_filed question s.now signers.now area.old }
{
    filing::mahqurith_write_receipt(question, s, signers, area)
}
