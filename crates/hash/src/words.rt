// The bytes of the final hash value.
ghost use Rattle.std.specs.Prelude.{◌≡◌};
ghost use Rattle.hash.specs.Digest.{joined};

use octets::put_word;

pub fn joined_words(h: [u32; 8]) -> [u8; 32]
    ensures { result ≡ joined 4 h 8 }
{
    let mut out = [0u8; 32];
    for (i, word) in h.iter().enumerate() {
        put_word(&mut out, 4 * i, *word);
    }
    out
}
