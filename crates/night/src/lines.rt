// A label's line: found, begun, and after a receipt.
ghost use Rattle.std.specs.Prelude.{◌≡◌, ◌+◌, ◌≤◌, ◌<◌, ◌^◌, take};
ghost use Rattle.night.specs.Lines as specs;
ghost use Rattle.night.specs.Lines.{most_labels, place};

use crate::{Line, Night};
use desk::Finding;
use octets::is_same;
use rows::LABEL;

impl Line {
    // A label's line before its first receipt.
    #[tactic(auto, unfolding(crate::specs::Lines::new_line))]
    pub fn new(label: [u8; LABEL]) -> Line
        ensures { result ≡ specs.new_line label }
    {
        Line {
            label,
            accepted: 0,
            refused: 0,
            top: 0,
        }
    }

    // The line after one receipt more. That the finding is C's number stays: `Finding` is a struct of the C interface.
    #[tactic(auto, unfolding(crate::specs::Lines::line_after))]
    pub fn after(mut self, finding: Finding) -> Line
        requires { self.accepted + self.refused + 1 < 2 ^ 64 }
        ensures { result ≡ specs.line_after self finding }
    {
        if finding.number == refusals::ACCEPTED {
            self.accepted += 1;
            self.top = self.top.max(finding.height);
        } else {
            self.refused += 1;
        }
        self
    }
}

impl Night {
    // Where the line of a label stands among the known ones, or so many as there are where it has none.
    pub fn place_of(&self, label: [u8; LABEL]) -> usize
        requires { self.now.known ≤ most_labels }
        ensures { result ≡ place label (take self.now.known self.now.lines) }
    {
        for (i, line) in self.lines[..self.known].iter().enumerate() {
            if is_same(&line.label, &label) {
                return i;
            }
        }
        self.known
    }
}
