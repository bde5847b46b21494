// What a call leaves beside the table's bytes.
ghost use Rattle.std.specs.Prelude.{◌≡◌, ◌<◌, IfOk};
ghost use Rattle.rows.specs.Sizes.{most_rows};
ghost use Rattle.table.specs.Held.{left_refused, left_named, left_by, left_moved};

use crate::{Left, Places};
use refusals::Refusal;
use rules::{Answer, Done};
use std::ops::Range;

// After a refusal nothing has changed.
impl From<Refusal> for Left {
    ghost from_gives = { λ refusal left. left ≡ left_refused refusal };

    fn from(refusal: Refusal) -> Left {
        Left {
            answer: Answer::from(refusal),
            head: None,
            rows: Places { start: 0, end: 0 },
        }
    }
}

// Where a call tells what it did, the rows in these places have changed, and the head where the caller says so.
pub fn leave_named(told: Result<Done, Refusal>, changed: bool, rows: Range<usize>) -> Left
    ensures { result ≡ left_named told changed rows }
{
    match told {
        Ok(done) => Left {
            answer: Answer::from(told),
            head: if changed { Some(done.head) } else { None },
            rows: Places {
                start: rows.start,
                end: rows.end,
            },
        },
        Err(refusal) => Left::from(refusal),
    }
}

// The head has changed unless the call is a repeat.
pub fn leave(told: Result<Done, Refusal>, rows: Range<usize>) -> Left
    ensures { result ≡ left_by told rows }
{
    leave_named(told, !Answer::from(told).repeat, rows)
}

// Where it writes so many bytes and gives the place of a row, that row alone has changed.
pub fn leave_moved(place: Result<usize, Refusal>, written: usize) -> Left
    requires { IfOk place (λ i. i < most_rows) }
    ensures { result ≡ left_moved written place }
{
    match place {
        Ok(i) => Left {
            answer: Answer {
                number: refusals::ACCEPTED,
                written,
                height: 0,
                repeat: false,
            },
            head: None,
            rows: Places {
                start: i,
                end: i + 1,
            },
        },
        Err(refusal) => Left::from(refusal),
    }
}
