// SHA-256.
ghost use Rattle.std.specs.Prelude.{◌≡◌};
ghost use Rattle.hash.specs.Promise.{hashing};

// SHA-256 of the message is stored in the digest area, or the message is too long and nothing changes.
#[unsafe(no_mangle)]
pub extern "C" fn mahqurith_sha256(message: &[u8], digest: &mut [u8; 32]) -> u32
    ensures { record { answer = result; area = digest.new } ≡ hashing message.now digest.old }
{
    match hash::sha256(message, digest) {
        Ok(()) => refusals::ACCEPTED,
        Err(refusal) => refusal.number(),
    }
}
