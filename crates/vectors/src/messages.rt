// Files of messages: for each message its length in bits, its bytes and its digest.
ghost use Rattle.std.specs.Prelude.{◌≤◌, ◌<◌, length};
ghost use Rattle.vectors.specs.Messages.{Within};

use crate::digest;
use crate::digest::SIZE;
use crate::outcome::Ran;
use crate::text::{Damaged, Text};

// The messages of a file: how many, the bytes of the first, and how many bytes each has more than the one before it.
#[derive(Clone, Copy)]
pub struct Messages {
    count: u32,
    first: u32,
    step: u32,
}

pub const SHORT: Messages = Messages {
    count: 65,
    first: 0,
    step: 1,
};

pub const LONG: Messages = Messages {
    count: 64,
    first: 163,
    step: 99,
};

// The bytes of the last long message.
const LONGEST: usize = 6400;

impl Messages {
    // How many bytes message i has.
    fn size(self, i: u32) -> usize
        requires i_lt_count { i < self.count }
        requires within { Within self LONGEST }
        ensures { result ≤ LONGEST }
    {
        (self.first + self.step * i) as usize
    }
}

pub fn run(text: &mut Text, messages: Messages) -> Result<Ran, Damaged>
    requires { Within messages LONGEST }
{
    text.header()?;
    let mut differ: u32 = 0;
    for i in 0..messages.count {
        let mut message = [0u8; LONGEST];
        let size = messages.size(i);
        if !vector(text, &mut message[..size])? {
            differ += 1;
        }
    }
    text.end()?;
    Ok(Ran {
        run: messages.count,
        differ,
    })
}

// Whether the digest of the next vector, whose message must fill message, is the file's.
fn vector(text: &mut Text, message: &mut [u8]) -> Result<bool, Damaged>
    requires { length message.old ≤ LONGEST }
{
    let mut expected = [0u8; SIZE];
    text.word(b"Len = ")?;
    text.number(8 * message.len() as u64)?;
    text.line_end()?;
    read_message(text, message)?;
    text.word(b"MD = ")?;
    text.hex(&mut expected)?;
    text.line_end()?;
    text.line_end()?;
    Ok(digest::of(message) == Some(expected))
}

// The message of no bytes stands as `00`.
fn read_message(text: &mut Text, message: &mut [u8]) -> Result<(), Damaged> {
    if message.is_empty() {
        text.word(b"Msg = 00")?;
    } else {
        text.word(b"Msg = ")?;
        text.hex(message)?;
    }
    text.line_end()
}
