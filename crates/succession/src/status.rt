// Finalise and Activate, over the flat bytes of the table, which both leave: what each is asked, its rule and its core.
ghost use Rattle.rules.specs.Finalise.{finalise_size, finalising};
ghost use Rattle.rules.specs.Activate.{activating};
ghost use Rattle.walks.proofs.OtherTables.{finalising_other, activating_other};

use leaving::FINALISE_SIZE;
use rules::Head;
use table::{Left, leave};
use walks::ChangesHead;

#[derive(Clone, Copy)]
pub struct Finalise<'a> {
    pub next: &'a [u8],
}

impl<'a> ChangesHead for Finalise<'a> {
    ghost rule = { λ call k. finalising k call.next.now };

    ghost size = { finalise_size };

    fn size(&self) -> usize {
        FINALISE_SIZE
    }

    // A repeat leaves the head.
    fn left(self, head: Head, table: &[u8], area: &mut [u8]) -> Left {
        leave(leaving::finalise(head, table, self.next, area), 0..0)
    }

    ghost refuses = { λ call. finalising_other call.next.now };
}

// It needs no area, and leaves what it is lent of one.
#[derive(Clone, Copy)]
pub struct Activate<'a> {
    pub previous: &'a [u8],
    pub own: &'a [u8],
    pub bundle: &'a [u8],
}

impl<'a> ChangesHead for Activate<'a> {
    ghost rule = { λ call k. activating k call.previous.now call.own.now call.bundle.now };

    ghost size = { 0 };

    fn size(&self) -> usize {
        0
    }

    fn left(self, head: Head, table: &[u8], _area: &mut [u8]) -> Left {
        leave(
            handover::activate(head, table, self.previous, self.own, self.bundle),
            0..0,
        )
    }

    ghost refuses = { λ call. activating_other call.previous.now call.own.now call.bundle.now };
}
