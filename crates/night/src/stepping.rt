// A night after one block more.
ghost use Rattle.std.specs.Prelude.{◌≡◌, ◌+◌, ◌≤◌, ◌<◌, ◌^◌};
ghost use Rattle.rack.specs.Racks.{most};
ghost use Rattle.statement.specs.Kinds.{reading_size};
ghost use Rattle.receipts.specs.Block.{key_count, length_in, count_in};
ghost use Rattle.night.specs.Lines.{most_labels};
ghost use Rattle.night.specs.Pass as specs;
ghost use Rattle.night.specs.Pass.{Kept};

use crate::{Line, MOST_LABELS, Nearest, Night};
use checks::BLOCK;
use octets::array_at;
use receipts::{LABEL_PLACE, Sort, sort_of};

impl Night {
    // A rack.
    #[tactic(auto, unfolding(crate::specs::Pass::with_rack))]
    fn add_rack(&mut self, b: &[u8; BLOCK])
        requires kept { Kept self.old × (self.old.totals.blocks + 1 < 2 ^ 64) }
        requires count { key_count b.now ≤ most }
        ensures { self.new ≡ specs.with_rack self.old b.now }
    {
        self.totals.blocks += 1;
        self.totals.racks += 1;
        self.nearest = Nearest::read(b);
    }

    // A receipt past the last line. This and the next one stay two: each names its counter, and one with the counter as a parameter is no plainer.
    #[tactic(auto, unfolding(crate::specs::Pass::with_over))]
    fn add_over(&mut self)
        requires { Kept self.old × (self.old.totals.blocks + 1 < 2 ^ 64) }
        ensures { self.new ≡ specs.with_over self.old }
    {
        self.totals.blocks += 1;
        self.totals.over += 1;
    }

    #[tactic(auto, unfolding(crate::specs::Pass::with_damaged))]
    fn add_damaged(&mut self)
        requires { Kept self.old × (self.old.totals.blocks + 1 < 2 ^ 64) }
        ensures { self.new ≡ specs.with_damaged self.old }
    {
        self.totals.blocks += 1;
        self.totals.damaged += 1;
    }

    // A receipt of a label whose line stands at i, or comes to stand there.
    #[tactic(auto, using(crate::proofs::Keeping::line_below), unfolding(crate::specs::Pass::with_label, crate::specs::Lines::no_line, crate::specs::Lines::new_line))]
    fn add_judged(&mut self, b: &[u8; BLOCK], i: usize)
        requires kept { Kept self.old × (self.old.totals.blocks + 1 < 2 ^ 64) × (i < most_labels) × (i ≤ self.old.known) }
        requires counts { (length_in b.now ≤ reading_size) × (count_in b.now ≤ most) }
        ensures { self.new ≡ specs.with_label self.old b.now i }
    {
        let finding = self.nearest.finding(b);
        let line = if i < self.known {
            self.lines[i]
        } else {
            Line::new(array_at(b, LABEL_PLACE))
        };
        self.totals.blocks += 1;
        self.known = self.known.max(i + 1);
        self.lines[i] = line.after(finding);
    }

    #[tactic(auto, unfolding(crate::specs::Pass::with_receipt))]
    fn add_receipt(&mut self, b: &[u8; BLOCK])
        requires kept { Kept self.old × (self.old.totals.blocks + 1 < 2 ^ 64) }
        requires counts { (length_in b.now ≤ reading_size) × (count_in b.now ≤ most) }
        ensures { self.new ≡ specs.with_receipt self.old b.now }
    {
        let i = self.place_of(array_at(b, LABEL_PLACE));
        if i < MOST_LABELS {
            self.add_judged(b, i);
        } else {
            self.add_over();
        }
    }

    // One block more.
    #[tactic(auto, using(receipts::proofs::Sorts::of_sorts), unfolding(crate::specs::Pass::step, receipts::specs::Block::sort, receipts::specs::Block::whole))]
    pub fn step(&mut self, b: &[u8])
        requires { Kept self.old × (self.old.totals.blocks + 1 < 2 ^ 64) }
        ensures { self.new ≡ specs.step self.old b.now }
    {
        let Ok(block) = <&[u8; BLOCK]>::try_from(b) else {
            return self.add_damaged();
        };
        match sort_of(block) {
            Sort::Rack => self.add_rack(block),
            Sort::Receipt => self.add_receipt(block),
            Sort::Damaged => self.add_damaged(),
        }
    }
}
