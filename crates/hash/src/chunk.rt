// The hash value through the chunks of a string.
ghost use Rattle.std.specs.Prelude.{◌≡◌, ◌/◌, length};
ghost use Rattle.hash.specs.Padding.{words};
ghost use Rattle.hash.specs.Rounds.{initial, summed, compressed};
ghost use Rattle.hash.specs.Digest.{absorbed};
ghost use Rattle.hash.specs.Sha256.{sha_256};
ghost use Rattle.hash.specs.Turns.{eight};

use crate::constants::{K, Table};
use crate::round::Working;
use crate::turn::{first_rounds, last_rounds};
use octets::word_at;

// The sixteen words of a chunk are the first of the schedule.
fn fill(w: &mut [u32], chunk: &[u8])
    requires { (length w.old ≡ 16) × (length chunk.now ≡ 64) }
    ensures { w.new ≡ words 4 chunk.now 16 }
{
    for (t, word) in w.iter_mut().enumerate() {
        *word = word_at(chunk, 4 * t);
    }
}

#[tactic(auto, unfolding(crate::specs::Rounds::initial))]
fn working(h: [u32; 8]) -> Working
    ensures { eight result ≡ initial h }
{
    Working {
        a: h[0],
        b: h[1],
        c: h[2],
        d: h[3],
        e: h[4],
        f: h[5],
        g: h[6],
        h: h[7],
    }
}

#[tactic(auto, unfolding(crate::specs::Words::plus, crate::specs::Rounds::summed, crate::specs::Sha256::sha_256))]
fn sums(h: [u32; 8], s: Working) -> [u32; 8]
    ensures { result ≡ summed sha_256 h (eight s) }
{
    [
        s.a.wrapping_add(h[0]),
        s.b.wrapping_add(h[1]),
        s.c.wrapping_add(h[2]),
        s.d.wrapping_add(h[3]),
        s.e.wrapping_add(h[4]),
        s.f.wrapping_add(h[5]),
        s.g.wrapping_add(h[6]),
        s.h.wrapping_add(h[7]),
    ]
}

// The hash value after one chunk.
fn compress(h: [u32; 8], w: &mut [u32], table: &Table, chunk: &[u8]) -> [u32; 8]
    requires { (length w.old ≡ 16) × (length chunk.now ≡ 64) }
    ensures { result ≡ compressed sha_256 h (words 4 chunk.now 16) }
{
    fill(w, chunk);
    let first = first_rounds(working(h), w, table);
    sums(h, last_rounds(first, w, table))
}

// The hash value after the whole chunks of a string. The constants are copied once, since each use of the table copies it whole.
// `next` stays: the checker has no proof where a call's array goes into a variable that is there already.
pub fn absorb(h: [u32; 8], w: &mut [u32], s: &[u8]) -> [u32; 8]
    requires { length w.old ≡ 16 }
    ensures { result ≡ absorbed sha_256 h s.now (length s.now / 64) }
{
    let table = Table { k: K };
    let mut value = h;
    for chunk in s.chunks_exact(64) {
        let next = compress(value, w, &table, chunk);
        value = next;
    }
    value
}
