// The pass over a string's blocks in turn.
ghost use Rattle.std.specs.Prelude.{◌≡◌, ◌+◌, ◌<◌, ◌^◌};
ghost use Rattle.night.specs.Pass as specs;
ghost use Rattle.night.specs.Pass.{Kept, blocks, passed};

use crate::{LONGEST_RACK, Line, MOST_LABELS, Nearest, Night, Totals};
use checks::{BLOCK, DIGEST};
use rows::LABEL;

impl Night {
    // A night before its first block.
    #[tactic(auto, unfolding(crate::specs::Pass::start))]
    pub fn start() -> Night
        ensures { result ≡ specs.start }
    {
        Night {
            totals: Totals {
                blocks: 0,
                racks: 0,
                over: 0,
                damaged: 0,
            },
            known: 0,
            lines: [Line::new([0u8; LABEL]); MOST_LABELS],
            nearest: Nearest {
                rack: [0u8; LONGEST_RACK],
                size: 0,
                digest: [0u8; DIGEST],
            },
        }
    }

    // Counts all blocks of a string, of which the last may be short.
    pub fn pass(&mut self, s: &[u8])
        requires { Kept self.old × (self.old.totals.blocks + blocks s.now < 2 ^ 64) }
        ensures { self.new ≡ passed self.old s.now (blocks s.now) }
    {
        for block in s.chunks(BLOCK) {
            self.step(block);
        }
    }
}
