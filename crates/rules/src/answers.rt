// The answers that C is given, from the results of calls.
ghost use Rattle.std.specs.Prelude.{◌≡◌};
ghost use Rattle.refusals.specs.Refused.{refusal_number, refusal_height};
ghost use Rattle.rules.specs.Outcomes.{refusing, answer_told};

use crate::{Answer, Done};
use refusals::Refusal;

impl From<Refusal> for Answer {
    ghost from_gives = { λ refusal answer. answer ≡ refusing (refusal_number refusal) (refusal_height refusal) };

    fn from(refusal: Refusal) -> Answer {
        Answer {
            number: refusal.number(),
            written: 0,
            height: refusal.height(),
            repeat: false,
        }
    }
}

impl From<Result<Done, Refusal>> for Answer {
    ghost from_gives = { λ told answer. answer ≡ answer_told told };

    fn from(told: Result<Done, Refusal>) -> Answer {
        match told {
            Ok(done) => Answer {
                number: refusals::ACCEPTED,
                written: done.written,
                height: 0,
                repeat: done.repeat,
            },
            Err(refusal) => Answer::from(refusal),
        }
    }
}
