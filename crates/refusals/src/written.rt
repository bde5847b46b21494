// What a call for C answers that writes into an area.
ghost use Rattle.std.specs.Prelude.{◌≡◌};
ghost use Rattle.std.specs.Result.{result_unwrap_or};
ghost use Rattle.refusals.specs.Refused.{answer_of};

use crate::{ACCEPTED, Refusal};

// The answer of a writing, and how many bytes of the area were written.
#[repr(C)]
#[derive(Clone, Copy)]
pub struct Written {
    pub number: u32,
    pub written: usize,
}

impl From<Result<usize, Refusal>> for Written {
    ghost from_gives = { λ outcome w. w ≡ record { number = answer_of outcome; written = result_unwrap_or outcome 0 } };

    fn from(outcome: Result<usize, Refusal>) -> Written {
        match outcome {
            Ok(written) => Written {
                number: ACCEPTED,
                written,
            },
            Err(refusal) => Written {
                number: refusal.number(),
                written: 0,
            },
        }
    }
}
