// The padding of a message: what is left after its whole chunks, filled up to one or two more.
ghost use Rattle.std.specs.Prelude.{◌≡◌, ◌+◌, ◌*◌, ◌/◌, ◌%◌, ◌<◌, ◌≤◌, ◌∷◌, ◌++◌, length, take, replicate};
ghost use Rattle.octets.specs.Numbers.{bytes_of};
ghost use Rattle.hash.specs.Padding.{gap};
ghost use Rattle.hash.specs.Promise.{longest};
ghost use Rattle.hash.specs.Sha256.{sha_256};

use octets::{copy_at, put_word};

// How many chunks the last bytes of a message end in: the byte 0x80 and the length's eight take nine.
pub fn ending_chunks(left: usize) -> usize
    requires { left < 64 }
    ensures { result ≡ (left + 72) / 64 }
{
    if left < 56 { 1 } else { 2 }
}

// The last bytes of a message of a length, with the padding after them.
pub fn ending(left: &[u8], total: usize) -> [u8; 128]
    requires { (length left.now ≡ total % 64) × (total ≤ longest) }
    ensures { take (64 * ((length left.now + 72) / 64)) result ≡ left.now ++ (0x80 ∷ replicate (gap sha_256 total) 0) ++ bytes_of 8 (8 * total) }
{
    let mut block = [0u8; 128];
    copy_at(&mut block, 0, left);
    block[left.len()] = 0x80;
    put_word(
        &mut block,
        64 * ending_chunks(left.len()) - 4,
        (8 * total) as u32,
    );
    block
}
