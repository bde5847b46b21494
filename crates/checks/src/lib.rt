// Blocks of 512 bytes that end in document 01's check: what rolls, the cabinet store and the morning report share.
#![tactic(auto)]

ghost use Rattle.std.specs.Prelude.{◌≡◌, ◌≤◌, length};
ghost use Rattle.hash.specs.Promise.{longest};
ghost use Rattle.checks.specs.Check.{block_bytes, check, check_right};

use octets::{array_at, is_same};

// The bytes of a block, of its check, and those before it.
pub const BLOCK: usize = 512;

pub const CHECK: usize = 4;

pub const CHECKED: usize = BLOCK - CHECK;

// The bytes of a digest.
pub const DIGEST: usize = 32;

// The check of a string.
pub fn check_of(s: &[u8]) -> [u8; CHECK]
    requires { length s.now ≤ longest }
    ensures { result ≡ check s.now }
{
    array_at(&hash::digest(s), 0)
}

// Whether a block ends in the check of what stands before it.
pub fn is_checked(b: &[u8]) -> bool
    requires { length b.now ≡ block_bytes }
    ensures { result ≡ check_right b.now }
{
    is_same(&check_of(&b[..CHECKED]), &b[CHECKED..])
}
