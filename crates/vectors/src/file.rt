// A file of vectors: read whole, and run by its kind.
ghost use Rattle.io.specs.Counts.{IsPrefixLen};

use crate::outcome::{Failure, Ran};
use crate::text::{Damaged, Text};
use crate::{messages, monte};
use std::fs;
use std::io::Read;
use std::rt::Files;

// The longest of the files has 426,209 bytes.
const ROOM: usize = 524288;

#[derive(Clone, Copy)]
pub enum Vectors {
    Short,
    Long,
    Monte,
}

pub fn run(rt: &impl Files, name: &str, vectors: Vectors) -> Result<Ran, Failure> {
    let Ok(mut file) = fs::open(rt, name) else {
        return Err(Failure::Missing);
    };
    let mut room = [0u8; ROOM];
    let size = fill(&mut file, &mut room);
    let text = &room[..size];
    if !is_at_end(&mut file) {
        return Err(Failure::in_text(text, Damaged { left: 0 }));
    }
    run_text(text, vectors).map_err(|damaged| Failure::in_text(text, damaged))
}

// Reads until the room is full, the file ends or a read fails, and answers how many bytes it put at the room's start.
// A reference to the array: one to a slice would have the check compute with all of its bytes.
fn fill(file: &mut impl Read, room: &mut [u8; ROOM]) -> usize
    ensures { IsPrefixLen result room.new }
{
    let mut done = 0;
    // This `while` stays: the step is what a read gave.
    while done < ROOM {
        let n = file.read(&mut room[done..]).unwrap_or(0);
        if n == 0 {
            break;
        }
        done += n;
    }
    done
}

// Where a read failed or the room was too small, the next read does not answer 0.
fn is_at_end(file: &mut impl Read) -> bool {
    let mut next = [0u8; 1];
    matches!(file.read(&mut next), Ok(0))
}

fn run_text(text: &[u8], vectors: Vectors) -> Result<Ran, Damaged> {
    let mut text = Text::new(text);
    match vectors {
        Vectors::Short => messages::run(&mut text, messages::SHORT),
        Vectors::Long => messages::run(&mut text, messages::LONG),
        Vectors::Monte => monte::run(&mut text),
    }
}
