// The desk's verdict: whether a rack's signers vouch for a ledger's tail and height.
#![tactic(auto)]

mod asking;
mod judging;

ghost use Rattle.std.specs.Prelude.{◌≡◌, true};
ghost use Rattle.octets.specs.Layouts.{holds};
ghost use Rattle.rack.specs.Racks as racks;

pub use judging::{height_in, verdict, verdict_with};
use rack::rack_digest;
use statement::{DIGEST, LABEL, NUMBER};

// The bytes of a nonce: two numbers.
pub const NONCE: usize = 2 * NUMBER;

// What a desk asks: of the identity that it retains, of a ledger, with a nonce, and a kind. The kind is C's byte: every value of it is judged.
#[repr(C)]
#[derive(Clone, Copy)]
pub struct Question {
    pub identity: [u8; DIGEST],
    pub label: [u8; LABEL],
    pub nonce: [u8; NONCE],
    pub kind: u8,
}

// What the desk may show: 0 with the tail and the height, or a refusal and zeros.
#[repr(C)]
#[derive(Clone, Copy)]
pub struct Finding {
    pub number: u32,
    pub tail: [u8; DIGEST],
    pub height: u64,
}

// A rack with its digest, which is taken once.
#[derive(Clone, Copy)]
pub struct Digested<'a> {
    pub rack: &'a [u8],
    pub digest: [u8; DIGEST],
    ghost digested: { holds racks.rack_layout rack.now ≡ true → digest ≡ racks.rack_digest rack.now },
}

impl<'a> Digested<'a> {
    // Takes the digest of a rack.
    pub fn new(rack: &'a [u8]) -> Digested<'a>
        ensures { result.rack.now ≡ rack.now }
    {
        let digest = rack_digest(rack);
        Digested { rack, digest }
    }
}
