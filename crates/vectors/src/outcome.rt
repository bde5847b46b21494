// What comes of a file of vectors.
use crate::text::Damaged;
use std::fmt;

// How many vectors were run, and of how many the digests differ.
#[derive(Clone, Copy)]
pub struct Ran {
    pub run: u32,
    pub differ: u32,
}

// Why no vector of a file counts.
#[derive(Clone, Copy)]
pub enum Failure {
    Missing,
    // The number of the line that is not as it must be.
    Damaged { line: u64 },
}

impl Failure {
    // The line is the one that the last line end before the damage begins.
    pub fn in_text(text: &[u8], damaged: Damaged) -> Failure {
        let before = &text[..text.len().saturating_sub(damaged.left)];
        let ends = before.iter().filter(|b| **b == b'\n').count();
        Failure::Damaged {
            line: 1 + ends as u64,
        }
    }
}

impl fmt::Display for Ran {
    fn fmt<W: fmt::Write>(&self, f: &mut fmt::Formatter<W>) -> fmt::Result {
        write!(f, "{} run, {} differ", self.run, self.differ)
    }
}

impl fmt::Display for Failure {
    fn fmt<W: fmt::Write>(&self, f: &mut fmt::Formatter<W>) -> fmt::Result {
        match self {
            Failure::Missing => write!(f, "missing"),
            Failure::Damaged { line } => write!(f, "damaged at line {line}"),
        }
    }
}
