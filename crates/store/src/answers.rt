// What C is answered.
ghost use Rattle.std.specs.Prelude.{◌≡◌};
ghost use Rattle.refusals.specs.Refused.{refusal_number, refusal_height};

use crate::Answer;
use refusals::Refusal;

impl Answer {
    // An acceptance, with how many bytes were written.
    pub(crate) fn accepted(written: usize) -> Answer
        ensures { result ≡ record { number = 0; written = written; height = 0 } }
    {
        Answer {
            number: refusals::ACCEPTED,
            written,
            height: 0,
        }
    }
}

impl From<Refusal> for Answer {
    ghost from_gives = { λ refusal answer. answer ≡ record { number = refusal_number refusal; written = 0; height = refusal_height refusal } };

    fn from(refusal: Refusal) -> Answer {
        Answer {
            number: refusal.number(),
            written: 0,
            height: refusal.height(),
        }
    }
}
