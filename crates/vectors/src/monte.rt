// The file of the Monte Carlo test: a seed, and the digests in which chains of digests end.
use crate::digest;
use crate::digest::SIZE;
use crate::outcome::Ran;
use crate::text::{Damaged, Text};

const COUNTS: u32 = 100;

// The digests of a chain, each of which is made of the three before it; the first three are the seed.
const LINKS: u32 = 1000;

// Where the second and the third of the last three digests begin, and where they end.
const SECOND: usize = SIZE;

const THIRD: usize = 2 * SIZE;

const END: usize = 3 * SIZE;

pub fn run(text: &mut Text) -> Result<Ran, Damaged> {
    let mut seed = [0u8; SIZE];
    text.header()?;
    text.word(b"Seed = ")?;
    text.hex(&mut seed)?;
    text.line_end()?;
    text.line_end()?;
    let mut differ: u32 = 0;
    for i in 0..COUNTS {
        if !count(text, i, &mut seed)? {
            differ += 1;
        }
    }
    text.end()?;
    Ok(Ran {
        run: COUNTS,
        differ,
    })
}

// Whether the chain from a seed ends in the file's digest. The next seed is the chain's own last digest, also where the file has another.
fn count(text: &mut Text, number: u32, seed: &mut [u8; SIZE]) -> Result<bool, Damaged> {
    let mut expected = [0u8; SIZE];
    text.word(b"COUNT = ")?;
    text.number(number as u64)?;
    text.line_end()?;
    text.word(b"MD = ")?;
    text.hex(&mut expected)?;
    text.line_end()?;
    text.line_end()?;
    Ok(chain(seed) && *seed == expected)
}

// Puts the chain's last digest in the seed's place, and answers whether the library made each.
fn chain(seed: &mut [u8; SIZE]) -> bool {
    let mut last = [0u8; END];
    for _ in 0..3 {
        append(&mut last, seed);
    }
    for _ in 0..LINKS {
        let Some(next) = digest::of(&last) else {
            return false;
        };
        *seed = next;
        append(&mut last, seed);
    }
    true
}

// Drops the first of the last three digests and puts a new one behind them.
fn append(last: &mut [u8; END], digest: &[u8; SIZE]) {
    last.copy_within(SECOND.., 0);
    last[THIRD..].copy_from_slice(digest);
}
