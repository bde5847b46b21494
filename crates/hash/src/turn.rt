// The rounds of SHA-256, with sixteen words of the schedule: word t stands in place t mod 16.
ghost use Rattle.std.specs.Prelude.{◌≡◌, ◌+◌, ◌<◌, ◌≤◌, length};
ghost use Rattle.hash.specs.Sha256.{sha_256};
ghost use Rattle.hash.specs.Turns.{eight, stage, word_after, reads, turn, steps};

use crate::constants::Table;
use crate::round::{Working, one_round};
use crate::word::lower_sigma;

// Round t, with its constant and the word in its place.
fn round_at(s: Working, w: &[u32], table: &Table, t: usize) -> Working
    requires { (t < 64) × (length w.now ≡ 16) }
    ensures { eight result ≡ reads sha_256 w.now (eight s) t }
{
    one_round(s, table.k[t], w[t % 16])
}

// Word t + 16 of the schedule, from the sixteen before it.
#[tactic(auto, unfolding(crate::specs::Words::plus, crate::specs::Turns::word_after, crate::specs::Sha256::sha_256))]
fn word_after(w: &[u32], t: usize) -> u32
    requires { (t < 48) × (length w.now ≡ 16) }
    ensures { result ≡ word_after sha_256 w.now t }
{
    let sum = lower_sigma::<17, 19, 10>(w[(t + 14) % 16]).wrapping_add(w[(t + 9) % 16]);
    sum.wrapping_add(lower_sigma::<7, 18, 3>(w[(t + 1) % 16]))
        .wrapping_add(w[t % 16])
}

// Round t reads word t, and word t + 16 goes into its place.
fn one_turn(s: Working, w: &mut [u32], table: &Table, t: usize) -> Working
    requires { (t < 48) × (length w.old ≡ 16) }
    ensures { stage w.new result ≡ turn sha_256 (stage w.old s) t }
{
    let next = round_at(s, w, table, t);
    w[t % 16] = word_after(w, t);
    next
}

// Sixteen turns. They begin at a multiple of sixteen, so the optimiser knows each place, and the working variables need no moves. The calls stay written out:
// in a loop, or four loops of four, the hash takes 1.24 or 1.33 times as long (bench/README.md, "What limits the speed").
fn sixteen_turns(s: Working, w: &mut [u32], table: &Table, t: usize) -> Working
    requires { (t + 16 ≤ 48) × (length w.old ≡ 16) }
    ensures { stage w.new result ≡ steps (turn sha_256) (stage w.old s) t 16 }
{
    let s1 = one_turn(s, w, table, t);
    let s2 = one_turn(s1, w, table, t + 1);
    let s3 = one_turn(s2, w, table, t + 2);
    let s4 = one_turn(s3, w, table, t + 3);
    let s5 = one_turn(s4, w, table, t + 4);
    let s6 = one_turn(s5, w, table, t + 5);
    let s7 = one_turn(s6, w, table, t + 6);
    let s8 = one_turn(s7, w, table, t + 7);
    let s9 = one_turn(s8, w, table, t + 8);
    let s10 = one_turn(s9, w, table, t + 9);
    let s11 = one_turn(s10, w, table, t + 10);
    let s12 = one_turn(s11, w, table, t + 11);
    let s13 = one_turn(s12, w, table, t + 12);
    let s14 = one_turn(s13, w, table, t + 13);
    let s15 = one_turn(s14, w, table, t + 14);
    one_turn(s15, w, table, t + 15)
}

// The first forty-eight rounds, each of which leaves a word for a later one.
pub fn first_rounds(s: Working, w: &mut [u32], table: &Table) -> Working
    requires { length w.old ≡ 16 }
    ensures { stage w.new result ≡ steps (turn sha_256) (stage w.old s) 0 48 }
{
    let mut state = s;
    for i in 0..3 {
        state = sixteen_turns(state, w, table, 16 * i);
    }
    state
}

// Four rounds, which the compiler unrolls; a loop over all sixteen takes 1.05 times as long.
fn four_rounds(s: Working, w: &[u32], table: &Table, t: usize) -> Working
    requires { (t + 4 ≤ 64) × (length w.now ≡ 16) }
    ensures { eight result ≡ steps (reads sha_256 w.now) (eight s) t 4 }
{
    let mut state = s;
    for u in t..t + 4 {
        state = round_at(state, w, table, u);
    }
    state
}

// The last sixteen rounds.
pub fn last_rounds(s: Working, w: &[u32], table: &Table) -> Working
    requires { length w.now ≡ 16 }
    ensures { eight result ≡ steps (reads sha_256 w.now) (eight s) 48 16 }
{
    let mut state = s;
    for i in 12..16 {
        state = four_rounds(state, w, table, 4 * i);
    }
    state
}
