// Comparing strings.
ghost use Rattle.std.specs.Prelude.{◌≡◌};
ghost use Rattle.octets.specs.Strings.{all_zero, same, before};

// Whether every byte is zero. The loop has no way out early, so that a compiler takes many bytes at a time.
pub fn is_zero(s: &[u8]) -> bool
    ensures { result ≡ all_zero s.now }
{
    let mut seen = 0u8;
    for b in s {
        seen |= *b;
    }
    seen == 0
}

// Whether two strings are the same.
#[tactic(auto, using(crate::proofs::Compared::same_pointwise))]
pub fn is_same(a: &[u8], b: &[u8]) -> bool
    ensures { result ≡ same a.now b.now }
{
    a == b
}

// Whether the first string comes before the second in byte order. `cmp` takes many bytes at a time where `<` takes one.
#[tactic(auto, using(crate::proofs::Compared::before_cmp))]
pub fn is_before(a: &[u8], b: &[u8]) -> bool
    ensures { result ≡ before a.now b.now }
{
    a.cmp(b).is_lt()
}
