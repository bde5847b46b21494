// What Activate and Bytes to check both ask.
ghost use Rattle.std.specs.Prelude.{◌≡◌};
ghost use Rattle.refusals.specs.Order.{first};
ghost use Rattle.refusals.specs.Refused.{answer_of};
ghost use Rattle.rules.specs.Outcomes.{Lent};
ghost use Rattle.rules.specs.Activate.{bundle_tests};

use crate::racks::check_racks;
use bundle::is_bundle;
use entries::rolls_hold;
use record::{PREPARED, check_ready};
use refusals::Refusal;
use rules::Head;

// A record, the racks that it is shown, and their bundle.
#[derive(Clone, Copy)]
pub struct Handover<'a> {
    pub head: Head,
    pub table: &'a [u8],
    pub previous: &'a [u8],
    pub own: &'a [u8],
    pub bundle: &'a [u8],
}

impl<'a> Handover<'a> {
    // Tests what both calls ask, into an area of so many bytes.
    pub fn check(self, area: &[u8], size: usize) -> Result<(), Refusal>
        ensures { answer_of result
            ≡ first (bundle_tests size (record { head = self.entry.head; table = self.entry.table.now; area = area.now })
            self.entry.previous.now self.entry.own.now self.entry.bundle.now) }
    {
        check_ready(
            self.head,
            self.table,
            area,
            size,
            PREPARED,
            Refusal::NotPrepared,
        )?;
        check_racks(self.head, self.previous, self.own)?;
        let theirs = usize::from(self.previous[0]);
        let ours = usize::from(self.own[0]);
        if !is_bundle(self.bundle, theirs, ours, usize::from(self.head.count)) {
            return Err(Refusal::ListBroken);
        }
        if !rolls_hold(self.bundle) {
            return Err(Refusal::RollBroken);
        }
        Ok(())
    }
}
