// The six functions of SHA-256 on 32-bit words, and the rotation that they are made of. They take fewer operations than the standard's formulas:
// each sigma rotates on from its last rotation.
ghost use Rattle.std.specs.Prelude.{◌≡◌, ◌<◌};
ghost use Rattle.hash.specs.Words.{rotr};
ghost use Rattle.hash.specs.Functions.{Ch, Maj, upper_sigma, lower_sigma};

// The rotation of x to the right by n, which stays written by shift and or: docs/FORMS.md names it as a form of its own.
#[tactic(auto, unfolding(crate::specs::Words::shl, crate::specs::Words::shr, crate::specs::Words::rotr))]
fn rotate(x: u32, n: u32) -> u32
    requires { (0 < n) × (n < 32) }
    ensures { result ≡ rotr 32 n x }
{
    (x >> n) | (x << (32 - n))
}

#[tactic(auto, using(crate::proofs::Mixing::Ch_by))]
pub fn ch(x: u32, y: u32, z: u32) -> u32
    ensures { result ≡ Ch 32 x y z }
{
    z ^ (x & (y ^ z))
}

#[tactic(auto, using(crate::proofs::Mixing::Maj_by))]
pub fn maj(x: u32, y: u32, z: u32) -> u32
    ensures { result ≡ Maj x y z }
{
    ((x ^ y) & (y ^ z)) ^ y
}

pub fn upper_sigma<const I: u32, const J: u32, const K: u32>(x: u32) -> u32
    requires { (0 < I) × (I < J) × (J < K) × (K < 32) }
    ensures { result ≡ upper_sigma 32 I J K x }
{
    rotate(rotate(rotate(x, K - J) ^ x, J - I) ^ x, I)
}

pub fn lower_sigma<const I: u32, const J: u32, const K: u32>(x: u32) -> u32
    requires { (0 < I) × (I < J) × (J < 32) × (K < 32) }
    ensures { result ≡ lower_sigma 32 I J K x }
{
    rotate(rotate(x, J - I) ^ x, I) ^ (x >> K)
}
