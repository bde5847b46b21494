// Digests: made by the library.

pub const SIZE: usize = 32;

// The digest that the library makes of a message, if it makes one.
pub fn of(message: &[u8]) -> Option<[u8; SIZE]> {
    let mut digest = [0u8; SIZE];
    hash::sha256(message, &mut digest).ok().map(|()| digest)
}
