// Initialise and Bytes to check, over the flat bytes of the table, with three messages: what each is asked, its rule and its core.
ghost use Rattle.statement.specs.Kinds.{handover_size};
ghost use Rattle.rules.specs.Initialise.{initialising};
ghost use Rattle.rules.specs.Check.{checking};
ghost use Rattle.walks.proofs.OtherTables.{initialising_other, checking_other};

use refusals::Refusal;
use rows::MOST;
use rules::{Done, Head};
use statement::HANDOVER_SIZE;
use table::{Asked, Left, leave};
use walks::{ChangesRows, Looks};

#[derive(Clone, Copy)]
pub struct Initialise<'a> {
    pub asked: Asked,
    pub roll: &'a [u8],
    pub previous: &'a [u8],
    pub own: &'a [u8],
}

impl<'a> ChangesRows for Initialise<'a> {
    ghost rule = { λ call k. initialising k call.asked.identity call.roll.now call.previous.now call.own.now };

    ghost size = { handover_size };

    fn size(&self) -> usize {
        HANDOVER_SIZE
    }

    // The rows of the roll that is taken over.
    fn left(self, head: Head, table: &mut [u8], area: &mut [u8]) -> Left {
        let identity = self.asked.identity;
        let told = entering::initialise(
            head,
            table,
            identity,
            self.roll,
            self.previous,
            self.own,
            area,
        );
        leave(told, 0..MOST)
    }

    ghost refuses = { λ call. initialising_other call.asked.identity call.roll.now call.previous.now call.own.now };
}

#[derive(Clone, Copy)]
pub struct BytesToCheck<'a> {
    pub asked: Asked,
    pub previous: &'a [u8],
    pub own: &'a [u8],
    pub bundle: &'a [u8],
}

impl<'a> Looks for BytesToCheck<'a> {
    ghost rule = { λ call k. checking k call.previous.now call.own.now call.bundle.now call.asked.list call.asked.number };

    ghost size = { handover_size };

    fn size(&self) -> usize {
        HANDOVER_SIZE
    }

    fn told(self, head: Head, table: &[u8], area: &mut [u8]) -> Result<Done, Refusal> {
        let list = self.asked.list;
        let number = self.asked.number;
        handover::bytes_to_check(
            head,
            table,
            self.previous,
            self.own,
            self.bundle,
            list,
            number,
            area,
        )
    }

    ghost refuses = { λ call. checking_other call.previous.now call.own.now call.bundle.now call.asked.list call.asked.number };
}
