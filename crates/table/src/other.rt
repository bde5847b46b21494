// What a call on ledgers answers where the table lent has another length than 63.
ghost use Rattle.std.specs.Prelude.{◌≡◌};
ghost use Rattle.table.specs.Held.{other_answer};

use refusals::Refusal;
use rules::Answer;

// 1 where the area is too short, otherwise 2: such a table is not sound.
pub fn other_length(area: usize, size: usize) -> Answer
    ensures { result ≡ other_answer area size }
{
    Answer::from(if area < size {
        Refusal::AreaTooShort
    } else {
        Refusal::RecordNotSound
    })
}
