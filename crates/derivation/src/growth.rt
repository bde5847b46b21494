// A tail after the digests that a string lists.
ghost use Rattle.std.specs.Prelude.{◌≡◌, ◌/◌, length};
ghost use Rattle.statement.specs.Kinds.{digest_bytes};
ghost use Rattle.rows.specs.Digests.{appended};
ghost use Rattle.rules.specs.Derivation.{grown};

use rows::{DIGEST, TAIL, appended};

// The tail after all whole digests of a string.
pub fn grown(tail: [u8; TAIL], s: &[u8]) -> [u8; TAIL]
    ensures { result ≡ grown tail s.now (length s.now / digest_bytes) }
{
    let (digests, _) = s.as_chunks::<DIGEST>();
    digests.iter().fold(
        tail,
        |last: [u8; TAIL], digest: &[u8; DIGEST]| -> [u8; TAIL]
            ensures { result ≡ appended last digest.now }
        { appended(last, *digest) },
    )
}
