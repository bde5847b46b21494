// The number that C is told of a reading. What was read is put into C's struct in one place, since each would hold a copy of it on the stack.
ghost use Rattle.std.specs.Prelude.{◌≡◌};
ghost use Rattle.refusals.specs.Refused.{answer_of};

use refusals::Refusal;

pub fn number_of(read: Result<u8, Refusal>) -> u32
    ensures { result ≡ answer_of read }
{
    match read {
        Ok(_) => refusals::ACCEPTED,
        Err(refusal) => refusal.number(),
    }
}
