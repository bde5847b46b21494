// Whether a statement's contents are such as its kind has.
ghost use Rattle.std.specs.Prelude.{◌≡◌};
ghost use Rattle.statement.specs.Contents.{receipt_fits, handover_fits, statement_fits};

use crate::{Kind, Statement};
use octets::is_zero;
use rows::row_holds;

impl Statement {
    // A new, append or read statement: a row at a height, and no second or third digest.
    #[tactic(auto, unfolding(crate::specs::Contents::receipt_fits))]
    fn receipt_fits(self, height: u64) -> bool
        ensures { result ≡ receipt_fits self height }
    {
        row_holds(&self.label, &self.tail, height) && is_zero(&self.other) && is_zero(&self.roll)
    }

    // A finalise or initialise statement: no label and no tail.
    #[tactic(auto, unfolding(crate::specs::Contents::handover_fits))]
    fn handover_fits(self) -> bool
        ensures { result ≡ handover_fits self }
    {
        is_zero(&self.label) && is_zero(&self.tail)
    }

    #[tactic(auto, unfolding(crate::specs::Contents::fits_as, crate::specs::Contents::statement_fits))]
    pub fn fits(self) -> bool
        ensures { result ≡ statement_fits self }
    {
        match self.kind {
            Kind::Blank => false,
            Kind::New => self.receipt_fits(0),
            Kind::Append { height } => 1 <= height && self.receipt_fits(height),
            Kind::Read { height, .. } => self.receipt_fits(height),
            Kind::Finalise | Kind::Initialise => self.handover_fits(),
        }
    }
}
