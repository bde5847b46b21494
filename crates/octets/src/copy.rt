// Copying one string into another, and parts of a fixed size out of one.
ghost use Rattle.std.specs.Prelude.{◌≡◌, ◌+◌, ◌≤◌, length, take, drop};
ghost use Rattle.octets.specs.Strings.{put};

// Puts all of src into dst from a place on.
pub fn copy_at(dst: &mut [u8], at: usize, src: &[u8])
    requires { at + length src.now ≤ length dst.old }
    ensures { dst.new ≡ put dst.old at src.now }
{
    // Byte by byte: with the library's copy the archive would ask for `memmove`, which a box need not have.
    for (i, byte) in src.iter().enumerate() {
        dst[at + i] = *byte;
    }
}

// The N bytes of a string from a place on.
pub fn array_at<const N: usize>(s: &[u8], at: usize) -> [u8; N]
    requires { at + N ≤ length s.now }
    ensures { result ≡ take N (drop at s.now) }
{
    let mut part = [0u8; N];
    part.copy_from_slice(&s[at..at + N]);
    part
}
