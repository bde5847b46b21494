// SHA-256 of FIPS 180-4, for inputs of 0 to 65,536 bytes.
#![tactic(auto)]

mod chunk;
mod constants;
mod ending;
mod round;
mod turn;
mod word;
mod words;

ghost use Rattle.std.specs.Prelude.{◌≡◌, ◌≤◌, length};
ghost use Rattle.refusals.specs.Refused.{answer_of};
ghost use Rattle.hash.specs.Sha256.{sha256};
ghost use Rattle.hash.specs.Promise.{longest, Outcome, hashing};

use chunk::absorb;
use constants::INITIAL;
use ending::{ending, ending_chunks};
use refusals::Refusal;
use words::joined_words;

// The bytes of the longest input.
pub const LONGEST: usize = 65536;

// SHA-256 of a message. It stays one body: as a part of each caller it would add a fifth to the archive's code.
#[inline(never)]
pub fn digest(message: &[u8]) -> [u8; 32]
    requires { length message.now ≤ longest }
    ensures { result ≡ sha256 message.now }
{
    let mut schedule = [0u32; 16];
    let whole = message.len() / 64;
    let h = absorb(INITIAL, &mut schedule, message);
    let last = ending(&message[64 * whole..], message.len());
    let chunks = ending_chunks(message.len() % 64);
    joined_words(absorb(h, &mut schedule, &last[..64 * chunks]))
}

// SHA-256 of the message is stored in the digest area, or the message is too long and nothing changes.
pub fn sha256(message: &[u8], area: &mut [u8; 32]) -> Result<(), Refusal>
    ensures { record { answer = answer_of result; area = area.new } ≡ hashing message.now area.old }
{
    if LONGEST < message.len() {
        return Err(Refusal::InputTooLong);
    }
    *area = digest(message);
    Ok(())
}
