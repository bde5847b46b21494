// What a keeper keeps and what its calls answer. The rules of the calls are in specs/.
#![tactic(auto)]

mod answers;

// A keeper's head. Identity and digests are zero until they are set.
#[repr(C)]
#[derive(Clone, Copy)]
pub struct Head {
    pub status: u8,
    pub count: u8,
    pub key: [u8; 32],
    pub identity: [u8; 32],
    pub own: [u8; 32],
    pub previous: [u8; 32],
    pub next: [u8; 32],
}

// What a call answers: 0 and the number of bytes written, or a refusal; with 11 the present height; whether a finalise is a repeat.
#[repr(C)]
#[derive(Clone, Copy)]
pub struct Answer {
    pub number: u32,
    pub written: usize,
    pub height: u64,
    pub repeat: bool,
}

// What an accepted call leaves: how many bytes were written, whether they were written before, and the head.
#[derive(Clone, Copy)]
pub struct Done {
    pub written: usize,
    pub repeat: bool,
    pub head: Head,
}
