// One round of SHA-256.
ghost use Rattle.std.specs.Prelude.{◌≡◌};
ghost use Rattle.hash.specs.Rounds.{T₁, T₂, round};
ghost use Rattle.hash.specs.Sha256.{sha_256};
ghost use Rattle.hash.specs.Turns.{eight};

use crate::word::{ch, maj, upper_sigma};

// The eight working variables.
#[derive(Clone, Copy)]
pub struct Working {
    pub a: u32,
    pub b: u32,
    pub c: u32,
    pub d: u32,
    pub e: u32,
    pub f: u32,
    pub g: u32,
    pub h: u32,
}

fn first_sum(s: Working, k: u32, w: u32) -> u32
    ensures { result ≡ T₁ sha_256 (eight s) k w }
{
    let sum = s.h.wrapping_add(upper_sigma::<6, 11, 25>(s.e));
    sum.wrapping_add(ch(s.e, s.f, s.g))
        .wrapping_add(k)
        .wrapping_add(w)
}

fn second_sum(s: Working) -> u32
    ensures { result ≡ T₂ sha_256 (eight s) }
{
    upper_sigma::<2, 13, 22>(s.a).wrapping_add(maj(s.a, s.b, s.c))
}

// One round, with a constant and a word of the schedule.
#[tactic(auto, unfolding(crate::specs::Words::plus, crate::specs::Rounds::shifted, crate::specs::Rounds::round, crate::specs::Sha256::sha_256))]
pub fn one_round(s: Working, k: u32, w: u32) -> Working
    ensures { eight result ≡ round sha_256 (eight s) k w }
{
    let t1 = first_sum(s, k, w);
    let t2 = second_sum(s);
    Working {
        a: t1.wrapping_add(t2),
        b: s.a,
        c: s.b,
        d: s.c,
        e: s.d.wrapping_add(t1),
        f: s.e,
        g: s.f,
        h: s.g,
    }
}
