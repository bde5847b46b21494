// The keys, racks and labels of the cases.

pub const KEY: usize = 32;

// The bytes of racks of one, two, three and sixteen keys; the last is one too many.
pub const ONE: usize = 1 + KEY;

pub const TWO: usize = 1 + 2 * KEY;

pub const THREE: usize = 1 + 3 * KEY;

pub const SIXTEEN: usize = 1 + 16 * KEY;

pub fn key(n: u8) -> [u8; KEY] {
    [n; KEY]
}

pub fn label(n: u8) -> [u8; 16] {
    [n; 16]
}

// The rack of key n.
pub fn rack_of_one(n: u8) -> [u8; ONE] {
    let mut rack = [n; ONE];
    rack[0] = 1;
    rack
}

// The rack of keys 1 and 2.
pub fn rack_of_two() -> [u8; TWO] {
    let mut rack = [2u8; TWO];
    octets::copy_at(&mut rack, 1, &[1u8; KEY]);
    rack
}

// The rack of keys 1, 2 and 3.
pub fn rack_of_three() -> [u8; THREE] {
    let mut rack = [0u8; THREE];
    rack[0] = 3;
    octets::copy_at(&mut rack, 1, &[1u8; KEY]);
    octets::copy_at(&mut rack, 1 + KEY, &[2u8; KEY]);
    octets::copy_at(&mut rack, 1 + 2 * KEY, &[3u8; KEY]);
    rack
}

// Sixteen rising keys behind a first byte.
pub fn sixteen_keys(rack: &mut [u8; SIXTEEN], n: u8) {
    rack[0] = n;
    for i in 0..16 {
        rack[1 + KEY * i] = i as u8 + 1;
    }
}
