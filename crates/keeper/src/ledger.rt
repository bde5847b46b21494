// The calls on ledgers, over the flat bytes of the table: what each is asked, its rule and its core.
ghost use Rattle.std.specs.Prelude.{◌+◌};
ghost use Rattle.statement.specs.Kinds.{receipt_size, reading_size};
ghost use Rattle.rules.specs.New.{making};
ghost use Rattle.rules.specs.Append.{appending};
ghost use Rattle.rules.specs.AppendMany.{appending_many};
ghost use Rattle.rules.specs.Read.{reading, appending_and_reading};
ghost use Rattle.walks.proofs.OtherTables.{making_other, appending_other, appending_many_other, reading_other, both_other};

use reading::BOTH;
use refusals::Refusal;
use rows::MOST;
use rules::{Done, Head};
use statement::{READING_SIZE, RECEIPT_SIZE};
use table::{Asked, Left, leave, leave_moved};
use walks::{ChangesRows, Looks};

#[derive(Clone, Copy)]
pub struct New {
    pub asked: Asked,
}

impl ChangesRows for New {
    ghost rule = { λ call k. making k call.asked.label };

    ghost size = { receipt_size };

    fn size(&self) -> usize {
        RECEIPT_SIZE
    }

    // A row more moves the rows behind it.
    fn left(self, head: Head, table: &mut [u8], area: &mut [u8]) -> Left {
        leave(making::new(head, table, self.asked.label, area), 0..MOST)
    }

    ghost refuses = { λ call. making_other call.asked.label };
}

#[derive(Clone, Copy)]
pub struct Append {
    pub asked: Asked,
}

impl ChangesRows for Append {
    ghost rule = { λ call k. appending k call.asked.label call.asked.entry call.asked.expected };

    ghost size = { receipt_size };

    fn size(&self) -> usize {
        RECEIPT_SIZE
    }

    fn left(self, head: Head, table: &mut [u8], area: &mut [u8]) -> Left {
        let asked = self.asked;
        let place = appending::append(head, table, asked.label, asked.entry, asked.expected, area);
        leave_moved(place, RECEIPT_SIZE)
    }

    ghost refuses = { λ call. appending_other call.asked.label call.asked.entry call.asked.expected };
}

// The list is entry digests, one behind the other.
#[derive(Clone, Copy)]
pub struct AppendMany<'a> {
    pub asked: Asked,
    pub list: &'a [u8],
}

impl<'a> ChangesRows for AppendMany<'a> {
    ghost rule = { λ call k. appending_many k call.asked.label call.list.now call.asked.expected };

    ghost size = { receipt_size };

    fn size(&self) -> usize {
        RECEIPT_SIZE
    }

    fn left(self, head: Head, table: &mut [u8], area: &mut [u8]) -> Left {
        let asked = self.asked;
        let place = recording::append_many(
            head,
            table,
            asked.label,
            self.list,
            asked.expected,
            area,
        );
        leave_moved(place, RECEIPT_SIZE)
    }

    ghost refuses = { λ call. appending_many_other call.asked.label call.list.now call.asked.expected };
}

#[derive(Clone, Copy)]
pub struct AppendAndRead {
    pub asked: Asked,
}

impl ChangesRows for AppendAndRead {
    ghost rule = { λ call k. appending_and_reading k call.asked.label call.asked.entry call.asked.expected call.asked.nonce };

    ghost size = { receipt_size + reading_size };

    fn size(&self) -> usize {
        BOTH
    }

    fn left(self, head: Head, table: &mut [u8], area: &mut [u8]) -> Left {
        let asked = self.asked;
        let place = reading::append_and_read(
            head,
            table,
            asked.label,
            asked.entry,
            asked.expected,
            asked.nonce,
            area,
        );
        leave_moved(place, BOTH)
    }

    ghost refuses = { λ call. both_other call.asked.label call.asked.entry call.asked.expected call.asked.nonce };
}

#[derive(Clone, Copy)]
pub struct Read {
    pub asked: Asked,
}

impl Looks for Read {
    ghost rule = { λ call k. reading k call.asked.label call.asked.nonce };

    ghost size = { reading_size };

    fn size(&self) -> usize {
        READING_SIZE
    }

    fn told(self, head: Head, table: &[u8], area: &mut [u8]) -> Result<Done, Refusal> {
        reading::read(head, table, self.asked.label, self.asked.nonce, area)
    }

    ghost refuses = { λ call. reading_other call.asked.label call.asked.nonce };
}
