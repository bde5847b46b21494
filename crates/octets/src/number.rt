// Big-endian numbers in strings of bytes. Words and numbers stay two pairs: each type has a `from_be_bytes` of its own, and a trait over them is longer than
// these four bodies.
ghost use Rattle.std.specs.Prelude.{◌≡◌, ◌+◌, ◌≤◌, length, take, drop};
ghost use Rattle.octets.specs.Numbers.{number_of, bytes_of};
ghost use Rattle.octets.specs.Strings.{put};

use crate::copy::{array_at, copy_at};

// The number of four bytes from a place on.
pub fn word_at(s: &[u8], at: usize) -> u32
    requires { at + 4 ≤ length s.now }
    ensures { result ≡ number_of (take 4 (drop at s.now)) }
{
    u32::from_be_bytes(array_at(s, at))
}

// Puts a number's four bytes from a place on.
pub fn put_word(s: &mut [u8], at: usize, x: u32)
    requires { at + 4 ≤ length s.old }
    ensures { s.new ≡ put s.old at (bytes_of 4 x) }
{
    copy_at(s, at, &x.to_be_bytes());
}

// The number of eight bytes from a place on.
pub fn number_at(s: &[u8], at: usize) -> u64
    requires { at + 8 ≤ length s.now }
    ensures { result ≡ number_of (take 8 (drop at s.now)) }
{
    u64::from_be_bytes(array_at(s, at))
}

// Puts a number's eight bytes from a place on.
pub fn put_number(s: &mut [u8], at: usize, x: u64)
    requires { at + 8 ≤ length s.old }
    ensures { s.new ≡ put s.old at (bytes_of 8 x) }
{
    copy_at(s, at, &x.to_be_bytes());
}
