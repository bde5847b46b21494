// What the maker of handover bundles finds and answers. Its rule is in specs/.
#![tactic(auto)]

ghost use Rattle.std.specs.Prelude.{◌≡◌};
ghost use Rattle.refusals.specs.Refused.{refusal_number};

use refusals::Refusal;
use rows::TAIL;

// Height and tail of the highest old row of a label; zeros for a label that no old roll has.
#[derive(Clone, Copy)]
pub struct Highest {
    pub height: u64,
    pub tail: [u8; TAIL],
}

// What a call answers: 0 and the bytes written into the area of the roll and into that of the bundle, or a refusal.
#[repr(C)]
#[derive(Clone, Copy)]
pub struct Made {
    pub number: u32,
    pub roll: usize,
    pub bundle: usize,
}

impl From<Refusal> for Made {
    ghost from_gives = { λ refusal made. made ≡ record { number = refusal_number refusal; roll = 0; bundle = 0 } };

    fn from(refusal: Refusal) -> Made {
        Made {
            number: refusal.number(),
            roll: 0,
            bundle: 0,
        }
    }
}
